// Runs whose outside fails: each read and each put of each line, a name that isn't there, a sink
// without room.
use crate::runs::{Run, ends, ends_on, pieces_end, room_ends};
use crate::words::USAGE;
use command_runs::Status;
use std::alloc::Global;
use std::process::Abort;
use std::sync::Wait;
use std::test::Fail;
use std::thread::Threads;

const PRODUCT: &[u8] = b"{ x in [1,2] /\\ y in [3,5] -> x * y in ? }";

const PRODUCT_LINE: &str = "x * y in [3, 5b1]\n";

#[test]
fn each_call_may_move_one_byte(rt: HostRuntime) -> Result<(), Fail> {
    let run = Run {
        text: PRODUCT,
        failing_reads: &[],
        failing_puts: &[],
        most: 1,
    };
    ends(&rt, rt.alloc(), &run, Status::Answered, PRODUCT_LINE)
}

fn read_fails(
    rt: &(impl Abort + Threads + Wait + Sync),
    alloc: Global,
    number: u64,
) -> Result<(), Fail> {
    let run = Run {
        text: PRODUCT,
        failing_reads: &[number],
        failing_puts: &[],
        most: 1,
    };
    ends(rt, alloc, &run, Status::ReadFault, "read fault: a\n")
}

// The text has 42 bytes and its end, so that there are 43 reads of one byte.
#[test]
fn each_read_may_fail(rt: HostRuntime) -> Result<(), Fail> {
    for number in 1..44u64 {
        read_fails(&rt, rt.alloc(), number)?;
    }
    Ok(())
}

#[test]
fn a_failing_refusal_is_a_write_fault(rt: HostRuntime) -> Result<(), Fail> {
    let run = Run {
        text: b"!",
        failing_reads: &[],
        failing_puts: &[2],
        most: 7,
    };
    ends(&rt, rt.alloc(), &run, Status::WriteFault, "script:")
}

#[test]
fn an_absent_name_is_a_read_fault(rt: HostRuntime) -> Result<(), Fail> {
    let (words, files) = (["prove", "b"], [("a", PRODUCT)]);
    let (failed, line) = (Status::ReadFault, "read fault: b\n");
    pieces_end(&rt, rt.alloc(), &words, &files, &[1, 4096], failed, line)
}

// Words, a text, the reads that fail, and the text that is then put a byte a call.
const LINES: &[(&[&str], &[u8], &[u64], &str)] = &[
    (&["prove"], PRODUCT, &[], USAGE),
    (&["prove", "a"], PRODUCT, &[7], "read fault: a\n"),
    (&["prove", "a"], b"", &[], "script: Unexpected at 0\n"),
    (
        &["prove", "a", "--boxes", "1"],
        b"{ x in [0,1] -> x in ? } $ x in 2;",
        &[],
        "limit: more than 1 boxes\n",
    ),
    (
        &["prove", "a"],
        b"{ x in ? }",
        &[],
        "unproved: goal 1 at the whole box\n",
    ),
    (&["prove", "a"], PRODUCT, &[], PRODUCT_LINE),
    (
        &["prove", "a"],
        b"{ x in [1,2] -> x in ? /\\ x*x in ? }",
        &[],
        "x in [1, 1b1]\nx * x in [1, 1b2]\n",
    ),
];

// The put behind the first `done` fails.
fn put_fails(
    rt: &(impl Abort + Threads + Wait + Sync),
    alloc: Global,
    words: &[&str],
    text: &[u8],
    failing_reads: &[u64],
    line: &str,
    done: usize,
) -> Result<(), Fail> {
    let run = Run {
        text,
        failing_reads,
        failing_puts: &[(done as u64).saturating_add(1)],
        most: 1,
    };
    let front = line.get(..done).unwrap_or("");
    ends_on(rt, alloc, words, &run, Status::WriteFault, front)
}

#[test]
fn each_put_of_each_line_may_fail(rt: HostRuntime) -> Result<(), Fail> {
    for (words, text, failing_reads, line) in LINES {
        for done in 0..line.len() {
            put_fails(&rt, rt.alloc(), *words, *text, *failing_reads, line, done)?;
        }
    }
    Ok(())
}

// The room of a sink, and how the run ends.
const ROOMS: &[(usize, Status, &str)] = &[
    (0, Status::WriteFault, ""),
    (5, Status::WriteFault, "x * y"),
    (17, Status::WriteFault, "x * y in [3, 5b1]"),
    (18, Status::Answered, "x * y in [3, 5b1]\n"),
];

#[test]
fn a_sink_takes_what_has_room(rt: HostRuntime) -> Result<(), Fail> {
    for (room, status, printed) in ROOMS {
        room_ends(&rt, rt.alloc(), PRODUCT, *room, *status, printed)?;
    }
    Ok(())
}
