// Commands that make a file `n` of others: `upgrade`, `fix` and `trim`. The worked certificate in
// both versions, with a step twice, its faults, and the script of a program were worked out by
// hand.
use crate::equals::{bytes_are, equal, holds};
use crate::runs::{Outside, edited, pieces_end, run_left, run_on, sound};
use crate::words::USAGE;
use command_runs::Status;
use std::alloc::Global;
use std::process::Abort;
use std::sync::Wait;
use std::test::Fail;
use std::thread::Threads;

// What `n` has before a run.
const OLD: &[u8] = b"old";

/// The script of the worked certificate.
pub(crate) const PRODUCT: &str = "{ x in [1,2] /\\ y in [3,5] -> x * y in ? }";

/// The worked certificate in version 1.
const FIRST: [u8; 143] = [
    0x46, 0x58, 0x50, 0x43, 1, 0, 3, // the head, three nodes
    0, 0, 0, 0, 0, 1, 5, 0, 0, 0, 1, // x, y, x * y
    0, 0, // no marks
    1, 100, 0, 0, 1, 0, 0, // step 0: x in [1, 2], a hypothesis
    0, 0, 0, 0, 0, 0, 0, 0, 1, 0, 0, 0, 0, 0, 0, 0, 0, 0, 0, 1, 0, 1, 0, 0, 0, //
    1, 100, 0, 1, 1, 0, 1, // step 1: y in [3, 5]
    0, 0, 0, 0, 0, 0, 0, 0, 3, 0, 0, 0, 0, 0, 0, 0, 0, 0, 0, 5, 0, 0, 0, 0, 0, //
    1, 6, 0, 0, 1, 0, 2, // step 2: x * y in [3, 10], by 0 and 1
    0, 0, 0, 0, 0, 0, 0, 0, 3, 0, 0, 0, 0, 0, 0, 0, 0, 0, 0, 5, 0, 1, 0, 0, 2, //
    0, 0, 0, 0, 0, 0, 0, 0, 0, 0, 0, 0, 0, 0, 0, 1, //
    3, 0, 1, 0, 0, 0, 0, 0, 0, 0, 2, // the leaf, by step 2
];

/// The same in version 2.
pub(crate) const SECOND: [u8; 61] = [
    0x46, 0x58, 0x50, 0x43, 2, // the head
    3, 0, 0, 0, 1, 5, 0, 1, // three nodes: x, y, x * y
    0, // no marks
    1, 100, 0, 1, 0, 0, 2, 0, 0, 2, 2, 0, 0, // step 0: x in [1, 2], a hypothesis
    1, 100, 1, 1, 1, 0, 6, 0, 0, 10, 0, 0, 0, // step 1: y in [3, 5]
    1, 6, 0, 1, 2, 0, 6, 0, 0, 10, 2, 0, 2, 2, 1, // step 2: x * y in [3, 10], by 0 and 1
    3, 1, 1, // the leaf, by step 2
    6, 1, 3, // one section, three steps
];

/// With step 1 twice.
const TWICE: [u8; 74] = [
    0x46, 0x58, 0x50, 0x43, 2, //
    3, 0, 0, 0, 1, 5, 0, 1, //
    0, //
    1, 100, 0, 1, 0, 0, 2, 0, 0, 2, 2, 0, 0, //
    1, 100, 1, 1, 1, 0, 6, 0, 0, 10, 0, 0, 0, //
    1, 100, 1, 1, 1, 0, 6, 0, 0, 10, 0, 0, 0, // step 2, which nothing uses
    1, 6, 0, 1, 2, 0, 6, 0, 0, 10, 2, 0, 2, 3, 2, // step 3: x * y in [3, 10], by 0 and 1
    3, 1, 1, // the leaf, by step 3
    6, 1, 4, // one section, four steps
];

const SQUARE: &str = "in x : s16.15 [0,0.5]; y : s16.15 dn = x * x; out y;";

const SQUARE_SCRIPT: &[u8] = b"y = fixed<-15,dn>(x * x);\n\
     { x in [0, 0.5] /\\ @FIX(x,-15) -> y in [-32768b-15, 32767b-15] /\\ y in ? }\n";

const UPGRADED: &str = "upgraded: 1 sections, 3 steps\n";

const UPGRADE: &[&str] = &["upgrade", "c", "n"];

const TRIM: &[&str] = &["trim", "a", "c", "n"];

// Words, the text of `a`, the bytes of `c`, what `n` has at the end, and the lines.
const MAKINGS: &[(&[&str], &str, &[u8], &[u8], &str)] = &[
    (UPGRADE, "", &FIRST, &SECOND, UPGRADED),
    (UPGRADE, "", &SECOND, &SECOND, UPGRADED),
    (
        &["fix", "a", "n"],
        SQUARE,
        &[],
        SQUARE_SCRIPT,
        "fix: 1 steps, 1 outputs\n",
    ),
    (TRIM, PRODUCT, &FIRST, &SECOND, "trimmed: 3 of 3 steps\n"),
    (TRIM, PRODUCT, &TWICE, &SECOND, "trimmed: 3 of 4 steps\n"),
];

// The words end with this status and these lines, leave `n` with these bytes, and `a` and `c` as
// they were.
fn ends_with(
    rt: &(impl Abort + Threads + Wait + Sync),
    alloc: Global,
    words: &[&str],
    outside: &Outside<'_>,
    status: Status,
    printed: &str,
    new: &[u8],
) -> Result<(), Fail> {
    let ended = run_left(rt, alloc, words, outside, status, printed)?;
    for (name, bytes) in outside.files {
        let held = ended.folder.bytes(*name).expect(rt, "the file is there");
        let wanted = if *name == "n" { new } else { *bytes };
        bytes_are(rt, printed, 0, held, wanted);
    }
    Ok(())
}

// In pieces of any size.
fn is_made(
    rt: &(impl Abort + Threads + Wait + Sync),
    alloc: Global,
    words: &[&str],
    files: &[(&str, &[u8])],
    whole: &[u8],
    lines: &str,
) -> Result<(), Fail> {
    for most in &[1usize, 7, 4096] {
        let outside = sound(&*files, *most);
        ends_with(rt, alloc, words, &outside, Status::Answered, lines, whole)?;
    }
    Ok(())
}

// Each put fails in turn: then `n` is whole behind the folder's calls.
fn puts_fail(
    rt: &(impl Abort + Threads + Wait + Sync),
    alloc: Global,
    words: &[&str],
    files: &[(&str, &[u8])],
    whole: &[u8],
    lines: &str,
) -> Result<(), Fail> {
    for number in 1..4usize {
        let failing = [number as u64];
        let outside = Outside {
            failing_puts: &failing,
            ..sound(&*files, 7)
        };
        let front = lines.get(..7 * (number - 1)).unwrap_or("");
        ends_with(rt, alloc, words, &outside, Status::WriteFault, front, whole)?;
    }
    Ok(())
}

#[test]
fn the_file_is_whole(rt: HostRuntime) -> Result<(), Fail> {
    for (words, text, cert, whole, lines) in MAKINGS {
        let files = [("a", text.as_bytes()), ("c", *cert), ("n", OLD)];
        is_made(&rt, rt.alloc(), *words, &files, *whole, lines)?;
        puts_fail(&rt, rt.alloc(), *words, &files, *whole, lines)?;
    }
    Ok(())
}

// A call of the folder fails: `n` has what it had, or a front of the whole; a read fault names the
// file that was read. False where the run meets no fault, and `n` is whole.
fn call_fails(
    rt: &(impl Abort + Threads + Wait + Sync),
    alloc: Global,
    words: &[&str],
    files: &[(&str, &[u8])],
    whole: &[u8],
    number: u64,
) -> Result<bool, Fail> {
    let failing = [number];
    let outside = Outside {
        failing_calls: &failing,
        ..sound(&*files, 7)
    };
    let ended = run_on(rt, alloc, words, &outside)?;
    let held = ended.folder.bytes("n").expect(rt, "`n` is there");
    left_by_fault(rt, ended.status, ended.out.bytes(), held, whole, number);
    Ok(ended.status != Status::Answered)
}

// What a run leaves whose call with this number fails, if there is one.
fn left_by_fault(
    rt: &impl Abort,
    status: Status,
    lines: &[u8],
    held: &[u8],
    whole: &[u8],
    number: u64,
) {
    match status {
        Status::Answered => return bytes_are(rt, "no fault", number, held, whole),
        Status::ReadFault => {
            let named = lines == b"read fault: a\n".as_slice()
                || lines == b"read fault: c\n".as_slice();
            holds(rt, "a read fault", number, named);
        }
        _ => {
            equal(rt, "a write fault", number, status, Status::WriteFault);
            bytes_are(rt, "a write fault", number, lines, &[]);
        }
    }
    holds(
        rt,
        "a front",
        number,
        held == OLD || whole.starts_with(held),
    );
}

// Each call of the folder fails in turn, until a run meets no fault.
fn calls_fail(
    rt: &(impl Abort + Threads + Wait + Sync),
    alloc: Global,
    words: &[&str],
    files: &[(&str, &[u8])],
    whole: &[u8],
) -> Result<(), Fail> {
    for number in 1..400u64 {
        if !call_fails(rt, alloc, words, files, whole, number)? {
            return Ok(());
        }
    }
    panic!(rt; "each run met a fault")
}

#[test]
fn a_failing_call_leaves_a_front(rt: HostRuntime) -> Result<(), Fail> {
    for (words, text, cert, whole, _) in MAKINGS {
        let files = [("a", text.as_bytes()), ("c", *cert), ("n", OLD)];
        calls_fail(&rt, rt.alloc(), *words, &files, *whole)?;
    }
    Ok(())
}

// A place in the certificate of version 2, the piece that stands there instead of its bytes up to
// another place, and the fault.
const FAULTS: &[(usize, &[u8], usize, &str)] = &[
    (60, &[4], 61, "certificate: BadCount at 60\n"),
    (60, &[], 61, "certificate: Truncated at 60\n"),
    (61, &[0], 61, "certificate: TrailingBytes at 61\n"),
    (13, &[128, 0], 14, "certificate: BadNumber at 13\n"),
    (4, &[3], 5, "certificate: BadVersion at 4\n"),
];

// `upgrade` and `trim` of this certificate end with this fault, and leave `n`.
fn faulty_ends(
    rt: &(impl Abort + Threads + Wait + Sync),
    alloc: Global,
    cert: &[u8],
    printed: &str,
) -> Result<(), Fail> {
    let files = [("a", PRODUCT.as_bytes()), ("c", cert), ("n", OLD)];
    let outside = sound(&files, 4096);
    let refused = Status::Certificate;
    ends_with(rt, alloc, UPGRADE, &outside, refused, printed, OLD)?;
    ends_with(rt, alloc, TRIM, &outside, refused, printed, OLD)
}

#[test]
fn a_faulty_certificate_leaves_the_file(rt: HostRuntime) -> Result<(), Fail> {
    for (front, piece, back, printed) in FAULTS {
        let cert = edited(rt.alloc(), &SECOND, *front, *piece, *back)?;
        faulty_ends(&rt, rt.alloc(), &cert, printed)?;
    }
    Ok(())
}

// Words and the text of `a`, beside the worked certificate `c`, that leave `n` as it was.
const LEFT: &[(&[&str], &str, Status, &str)] = &[
    (&["upgrade", "c", "c"], "", Status::Usage, USAGE),
    (
        &["upgrade", "d", "n"],
        "",
        Status::ReadFault,
        "read fault: d\n",
    ),
    (
        &["fix", "a", "n"],
        "in x : s16.15 [0,1]; out x;",
        Status::Program,
        "program: BadRange at 17\n",
    ),
    (&["fix", "a", "a"], SQUARE, Status::Usage, USAGE),
    (
        &["trim", "a", "c", "n"],
        "!",
        Status::Script,
        "script: BadToken at 0\n",
    ),
    (
        &["trim", "a", "d", "n"],
        "!",
        Status::Script,
        "script: BadToken at 0\n",
    ),
    (
        &["trim", "a", "d", "n"],
        PRODUCT,
        Status::ReadFault,
        "read fault: d\n",
    ),
    (
        &["trim", "a", "c", "n"],
        "{ x in [1,2] /\\ y in [3,5] -> x - y in ? }",
        Status::Certificate,
        "certificate: WrongScript 2\n",
    ),
    (&["trim", "a", "c", "c"], PRODUCT, Status::Usage, USAGE),
];

fn is_left(
    rt: &(impl Abort + Threads + Wait + Sync),
    alloc: Global,
    words: &[&str],
    text: &str,
    status: Status,
    printed: &str,
) -> Result<(), Fail> {
    let files = [("a", text.as_bytes()), ("c", FIRST.as_slice()), ("n", OLD)];
    ends_with(rt, alloc, words, &sound(&files, 4096), status, printed, OLD)
}

#[test]
fn nothing_is_written_before_all_was_read(rt: HostRuntime) -> Result<(), Fail> {
    for (words, text, status, printed) in LEFT {
        is_left(&rt, rt.alloc(), *words, text, *status, printed)?;
    }
    Ok(())
}

// What `fix` writes of a square is proved.
#[test]
fn written_scripts_are_proved(rt: HostRuntime) -> Result<(), Fail> {
    let (words, files) = (["prove", "n"], [("n", SQUARE_SCRIPT)]);
    let lines = "y in [0, 1b-2]\ny in [0, 1b-2]\n";
    pieces_end(
        &rt,
        rt.alloc(),
        &words,
        &files,
        &[4096],
        Status::Answered,
        lines,
    )
}
