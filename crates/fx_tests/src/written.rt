// Certificates that `prove` writes to `c`. What is written is judged by `check`. Expected lines
// were worked out by hand, or by a plain program of the definitions.
use crate::equals::{bytes_are, equal, holds};
use crate::made_files::{PRODUCT, SECOND};
use crate::runs::{Ended, Outside, check_ends, run_left, run_on, sound};
use crate::words::USAGE;
use command_runs::Status;
use std::alloc::Global;
use std::process::Abort;
use std::sync::Wait;
use std::test::Fail;
use std::thread::Threads;

// What `c` has before a run.
const OLD: &[u8] = b"old";

const WRITE: &[&str] = &["prove", "a", "--cert", "c"];

const CHECK: &[&str] = &["check", "a", "c"];

// 15 boxes
const HALVED: &str = "{ x in [0,1] -> x * (1 - x) in [0,0.3] } x * (1 - x) $ x;";

const HALVED_LINE: &str = "x * ( 1 - x ) in [0, 9b-5]\n";

// The bytes of `c`.
fn cert_of<'a>(rt: &impl Abort, ended: &'a Ended) -> &'a [u8] {
    ended.folder.bytes("c").expect(rt, "`c` is there")
}

// The words end with this status and these lines, and leave `c` with these bytes.
fn ends_with(
    rt: &(impl Abort + Threads + Wait + Sync),
    alloc: Global,
    words: &[&str],
    outside: &Outside<'_>,
    status: Status,
    printed: &str,
    cert: &[u8],
) -> Result<(), Fail> {
    let ended = run_left(rt, alloc, words, outside, status, printed)?;
    bytes_are(rt, printed, 0, cert_of(rt, &ended), cert);
    Ok(())
}

// Words, a script, and the lines, which a check of what was written has too.
const ANSWERED: &[(&[&str], &str, &str)] = &[
    (WRITE, HALVED, HALVED_LINE),
    (
        WRITE,
        "{ x in [1,2] /\\ y in [3,5] -> x * y in ? }",
        "x * y in [3, 5b1]\n",
    ),
    (WRITE, "{ x >= 1 -> x >= 0.5 }", "x in [1, +inf]\n"),
    // no assignment is left: of the script, and of two of four boxes
    (
        WRITE,
        "{ x in [0,1] /\\ x in [2,3] -> x in ? }",
        "x in empty\n",
    ),
    (
        WRITE,
        "{ x in [-1,1] /\\ x * x in [0.5,1] -> 1 / x in ? } $ x in 4;",
        "1 / x in [-1b1, 1b1]\n",
    ),
    // several cases: of one box each, with a contradiction, cut and halved; and a part twice
    (
        WRITE,
        "{ x in [0,1] \\/ x in [3,4] -> x * x in ? }",
        "x * x in [0, 1b4]\n",
    ),
    (
        WRITE,
        "{ x in [0,1] /\\ x in [2,3] \\/ x in [4,5] -> x in ? }",
        "x in [1b2, 5]\n",
    ),
    (
        WRITE,
        "{ x in [0,1] /\\ x in [2,3] \\/ x in [4,5] /\\ x in [6,7] -> x in ? }",
        "x in empty\n",
    ),
    (
        WRITE,
        "{ x in [0,0] \\/ x in [0,1] -> x * (1 - x) in [0,0.3] } x * (1 - x) $ x;",
        HALVED_LINE,
    ),
    (
        WRITE,
        "{ x in [0,1] \\/ x in [3,4] -> x in [0,1] \\/ x in [3,4] -> x in ? }",
        "x in [0, 1b2]\n",
    ),
    // cuts at points, and pieces that are halved
    (
        WRITE,
        "{ x in [0,1] -> x * (1 - x) in ? } $ x in (0.25, 0.5);",
        "x * ( 1 - x ) in [0, 1b-1]\n",
    ),
    (
        &["prove", "--cert=c", "--depth=4", "a"],
        "{ x in [0,1] /\\ y in [0,1] -> x * (1 - x) in [0,0.6] /\\ y in ? } x * (1 - x) $ x; $ y in 2;",
        "x * ( 1 - x ) in [0, 1b-1]\ny in [0, 1]\n",
    ),
    // hints that are checked, and assumed ones
    (
        WRITE,
        "{ x in [1,2] /\\ y in [2,3] -> y / x * x in ? } y / x * x -> y;",
        "y / x * x in [1b1, 3]\n",
    ),
    (
        WRITE,
        "{ x in [0,1] -> y in ? /\\ z in ? } y -> x + 1; x * x -> x * x; z -> y + 1;",
        "y in [1, 1b1]\nz in [1b1, 3]\nhint 1 assumed\nhint 3 assumed\n",
    ),
    // relative errors
    (
        WRITE,
        "{ x -/ y in [-0.5,-0.25] /\\ x -/ y in [0.25,0.5] -> x -/ y in ? /\\ y in ? }",
        "x -/ y in none\ny in [0, 0]\n",
    ),
    (
        &["prove", "a", "--rounds", "2", "--cert", "c"],
        "@rnd = fixed<-10,ne>; { x in [1,2] -> rnd(x) -/ x in ? }",
        "rnd ( x ) -/ x in [-1b-11, 1b-11]\n",
    ),
    // an interpolation, which needs seven rounds
    (
        &["prove", "a", "--rounds", "7", "--cert", "c"],
        "@q = fixed<-15,dn>; d q= b - a; p q= d * t; r q= a + p; Mr = a + (b - a) * t; \
         { @FIX(a,-15) /\\ @FIX(b,-15) /\\ @FIX(t,-15) /\\ a in [0,1] /\\ b in [0,1] /\\ t in [0,1] -> r in ? /\\ r - Mr in ? }",
        "r in [-1, 1b1]\nr - Mr in [-32767b-30, 0]\n",
    ),
];

// The words end with an answer, and so does a check of what they wrote.
fn is_accepted(
    rt: &(impl Abort + Threads + Wait + Sync),
    alloc: Global,
    words: &[&str],
    text: &str,
    lines: &str,
) -> Result<(), Fail> {
    let files = [("a", text.as_bytes()), ("c", OLD)];
    let before = sound(&files, 4096);
    let written = run_left(rt, alloc, words, &before, Status::Answered, lines)?;
    let cert = cert_of(rt, &written);
    check_ends(rt, alloc, text, cert, &[4096], Status::Answered, lines)
}

#[test]
fn what_is_written_is_accepted(rt: HostRuntime) -> Result<(), Fail> {
    for (words, text, lines) in ANSWERED {
        is_accepted(&rt, rt.alloc(), *words, text, lines)?;
    }
    Ok(())
}

// A box that isn't cut has no step that its end doesn't need: with all its steps it has more bytes.
#[test]
fn no_unused_step_of_a_leaf_is_written(rt: HostRuntime) -> Result<(), Fail> {
    let files = [("a", PRODUCT.as_bytes()), ("c", OLD)];
    let outside = sound(&files, 4096);
    ends_with(
        &rt,
        rt.alloc(),
        WRITE,
        &outside,
        Status::Answered,
        "x * y in [3, 5b1]\n",
        &SECOND,
    )
}

// How many workers there are, and the most bytes that a call moves.
const SAME: &[(&[&str], usize)] = &[
    (&["prove", "a", "--cert", "c", "--workers", "1"], 4096),
    (&["prove", "a", "--cert", "c", "--workers", "2"], 4096),
    (&["prove", "a", "--cert", "c", "--workers", "16"], 4096),
    (WRITE, 1),
    (WRITE, 7),
    (&["prove", "a", "--cert", "c", "--workers", "16"], 7),
];

// Four pieces whatever is settled: what is written for halved boxes shows a narrower interval than
// a run would.
const QUARTERED: &str = "{ x in [0,1] -> x * (1 - x) in ? } $ x in 4;";

// The words over a script and a certificate end with an answer, and leave this certificate.
fn is_same(
    rt: &(impl Abort + Threads + Wait + Sync),
    alloc: Global,
    words: &[&str],
    most: usize,
    text: &str,
    before: &[u8],
    cert: &[u8],
) -> Result<(), Fail> {
    let files = [("a", text.as_bytes()), ("c", before)];
    let (outside, answered) = (sound(&files, most), Status::Answered);
    ends_with(rt, alloc, words, &outside, answered, HALVED_LINE, cert)
}

fn halved_cert(rt: &(impl Abort + Threads + Wait + Sync), alloc: Global) -> Result<Vec<u8>, Fail> {
    let files = [("a", HALVED.as_bytes()), ("c", OLD)];
    let written = run_on(rt, alloc, WRITE, &sound(&files, 4096))?;
    Ok(cert_of(rt, &written).to_vec(alloc)?)
}

#[test]
fn neither_workers_nor_pieces_change_a_byte(rt: HostRuntime) -> Result<(), Fail> {
    let alloc = rt.alloc();
    let cert = halved_cert(&rt, alloc)?;
    for (words, most) in SAME {
        is_same(&rt, alloc, *words, *most, HALVED, OLD, &cert)?;
        is_same(&rt, alloc, CHECK, *most, HALVED, &cert, &cert)?;
        is_same(&rt, alloc, CHECK, *most, QUARTERED, &cert, &cert)?;
    }
    Ok(())
}

// Runs that write nothing: of a script that is refused, that isn't there, that stays unproved, that
// has too many boxes; by words that name one file as script and certificate; and of a certificate
// whose name isn't there.
const UNWRITTEN: &[(&[&str], &str, Status, &str)] = &[
    (WRITE, "!", Status::Script, "script: BadToken at 0\n"),
    (
        &["prove", "b", "--cert", "c"],
        "",
        Status::ReadFault,
        "read fault: b\n",
    ),
    (
        WRITE,
        "{ x in ? }",
        Status::Unproved,
        "unproved: goal 1 at the whole box\n",
    ),
    (
        &["prove", "a", "--cert", "c", "--depth", "3"],
        HALVED,
        Status::Unproved,
        "unproved: goal 1 at x in [3b-3, 1b-1]\n",
    ),
    (
        &["prove", "a", "--cert", "c", "--boxes", "14"],
        HALVED,
        Status::Limit,
        "limit: more than 14 boxes\n",
    ),
    (
        WRITE,
        "{ x in [1,2] \\/ x in [-1,1] -> 1 / x in ? }",
        Status::Unproved,
        "unproved: goal 1 at case 2, the whole box\n",
    ),
    (&["prove", "c", "--cert", "c"], "", Status::Usage, USAGE),
    (
        &["prove", "a", "--cert", "d"],
        "!",
        Status::Script,
        "script: BadToken at 0\n",
    ),
    (
        &["prove", "a", "--cert", "d"],
        HALVED,
        Status::WriteFault,
        "",
    ),
];

fn is_kept(
    rt: &(impl Abort + Threads + Wait + Sync),
    alloc: Global,
    words: &[&str],
    text: &str,
    status: Status,
    printed: &str,
) -> Result<(), Fail> {
    let files = [("a", text.as_bytes()), ("c", OLD)];
    ends_with(rt, alloc, words, &sound(&files, 4096), status, printed, OLD)
}

#[test]
fn a_file_is_kept_where_nothing_is_written(rt: HostRuntime) -> Result<(), Fail> {
    for (words, text, status, printed) in UNWRITTEN {
        is_kept(&rt, rt.alloc(), *words, text, *status, printed)?;
    }
    Ok(())
}

// The folder's first calls read the script to its end and make the file new.
const FIRST: &[(u64, Status, &str)] = &[
    (1, Status::ReadFault, "read fault: a\n"),
    (2, Status::ReadFault, "read fault: a\n"),
    (3, Status::WriteFault, ""),
];

// The certificate, which a run writes in pieces of 64 bytes at most.
fn whole_cert(
    rt: &(impl Abort + Threads + Wait + Sync),
    alloc: Global,
    whole: &Outside<'_>,
) -> Result<Vec<u8>, Fail> {
    let written = run_left(rt, alloc, WRITE, whole, Status::Answered, HALVED_LINE)?;
    Ok(cert_of(rt, &written).to_vec(alloc)?)
}

// Too little room leaves a front.
fn room_fails(
    rt: &(impl Abort + Threads + Wait + Sync),
    alloc: Global,
    whole: &Outside<'_>,
    cert: &[u8],
) -> Result<(), Fail> {
    let outside = Outside {
        room: 100,
        ..*whole
    };
    let front = cert.get(..100).unwrap_or(&[]);
    ends_with(rt, alloc, WRITE, &outside, Status::WriteFault, "", front)
}

// Puts of seven bytes, behind which the certificate is whole.
fn put_fails(
    rt: &(impl Abort + Threads + Wait + Sync),
    alloc: Global,
    whole: &Outside<'_>,
    cert: &[u8],
    number: usize,
) -> Result<(), Fail> {
    let failing = [number as u64];
    let outside = Outside {
        failing_puts: &failing,
        most: 7,
        ..*whole
    };
    let done = 7 * number.saturating_sub(1).min(100);
    let front = HALVED_LINE.get(..done).unwrap_or("");
    ends_with(rt, alloc, WRITE, &outside, Status::WriteFault, front, cert)
}

// A call that fails before the certificate is written.
fn first_fails(
    rt: &(impl Abort + Threads + Wait + Sync),
    alloc: Global,
    whole: &Outside<'_>,
    number: u64,
    status: Status,
    printed: &str,
) -> Result<(), Fail> {
    let failing = [number];
    let outside = Outside {
        failing_calls: &failing,
        ..*whole
    };
    ends_with(rt, alloc, WRITE, &outside, status, printed, OLD)
}

// A call that writes the certificate fails, and leaves a front; or no call does, which is answered.
fn append_fails(
    rt: &(impl Abort + Threads + Wait + Sync),
    alloc: Global,
    whole: &Outside<'_>,
    cert: &[u8],
    number: u64,
) -> Result<bool, Fail> {
    let failing = [number];
    let outside = Outside {
        failing_calls: &failing,
        ..*whole
    };
    let ended = run_on(rt, alloc, WRITE, &outside)?;
    let left = cert_of(rt, &ended);
    if ended.status == Status::Answered {
        bytes_are(rt, "an append", number, left, cert);
        return Ok(false);
    }
    equal(rt, "an append", number, ended.status, Status::WriteFault);
    bytes_are(rt, "an append", number, ended.out.bytes(), &[]);
    holds(rt, "an append", number, cert.starts_with(left));
    Ok(true)
}

#[test]
fn a_fault_leaves_a_front(rt: HostRuntime) -> Result<(), Fail> {
    let alloc = rt.alloc();
    let files = [("a", HALVED.as_bytes()), ("c", OLD)];
    let whole = sound(&files, 64);
    let cert = whole_cert(&rt, alloc, &whole)?;
    room_fails(&rt, alloc, &whole, &cert)?;
    for number in 1..5usize {
        put_fails(&rt, alloc, &whole, &cert, number)?;
    }
    for (number, status, printed) in FIRST {
        first_fails(&rt, alloc, &whole, *number, *status, printed)?;
    }
    // appends of 64 bytes at most, until a run meets no fault
    for number in 4..4000u64 {
        if !append_fails(&rt, alloc, &whole, &cert, number)? {
            return Ok(());
        }
    }
    panic!(rt; "each run met a fault")
}
