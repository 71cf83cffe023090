//! Files with many names, statements and items: what runs make of them that want more memory than
//! a short one. Expected lines were worked out by hand.
use crate::equals::{bytes_are, equal, holds};
use crate::made_files::PRODUCT;
use crate::runs::{pieces_end, run_left, run_on, sound, text_of};
use command_runs::Status;
use std::alloc::Global;
use std::process::Abort;
use std::sync::Wait;
use std::test::Fail;
use std::thread::Threads;

// A text by its pieces, each with how often it stands there.
type Pieces<'a> = &'a [(&'a str, usize)];

// Words, the text of `a`, how the run ends, and the lines.
#[derive(Clone, Copy)]
struct Row<'a> {
    words: &'a [&'a str],
    long: Pieces<'a>,
    status: Status,
    lines: Pieces<'a>,
}

const BATCH: &[&str] = &["batch", "a"];

const FIX: &[&str] = &["fix", "a", "n"];

const ROWS: &[Row<'static>] = &[
    Row {
        words: BATCH,
        long: &[("b\n", 64)],
        status: Status::Answered,
        lines: &[("script b\nx * y in [3, 5b1]\n", 64)],
    },
    Row {
        words: BATCH,
        long: &[("b\n", 65)],
        status: Status::List,
        lines: &[("list: Limit at 128\n", 1)],
    },
    // an input weighs 2, and an output 1
    Row {
        words: FIX,
        long: &[("in x:u1.0[0,1];", 1), ("out x;", 126)],
        status: Status::Answered,
        lines: &[("fix: 0 steps, 126 outputs\n", 1)],
    },
    Row {
        words: FIX,
        long: &[("in x:u1.0[0,1];", 1), ("out x;", 127)],
        status: Status::Program,
        lines: &[("program: Limit at 775\n", 1)],
    },
];

fn row_ends(
    rt: &(impl Abort + Threads + Wait + Sync),
    alloc: Global,
    row: &Row<'_>,
) -> Result<(), Fail> {
    let text = text_of(alloc, row.long)?;
    let lines = text_of(alloc, row.lines)?;
    let files = [
        ("a", text.as_slice()),
        ("b", PRODUCT.as_bytes()),
        ("n", b"old".as_slice()),
    ];
    let ended = run_on(rt, alloc, row.words, &sound(&files, 4096))?;
    equal(rt, "a long file", 0, ended.status, row.status);
    bytes_are(rt, "a long file", 0, ended.out.bytes(), lines.as_slice());
    Ok(())
}

#[test]
fn long_lists_and_programs(rt: HostRuntime) -> Result<(), Fail> {
    for row in ROWS {
        row_ends(&rt, rt.alloc(), row)?;
    }
    Ok(())
}

// Two cases whose boxes are cut once each.
const CUT: &str = "{ x in [0,1] \\/ x in [3,4] -> x * (1 - x) in ? } $ x in 2;";

const CUT_LINE: &str = "x * ( 1 - x ) in [-3b2, 1b-1]\n";

// The certificate that `prove` writes.
fn written(rt: &(impl Abort + Threads + Wait + Sync), alloc: Global) -> Result<Vec<u8>, Fail> {
    let files = [("a", CUT.as_bytes()), ("c", b"old".as_slice())];
    let words: &[&str] = &["prove", "a", "--cert", "c"];
    let outside = sound(&files, 4096);
    let proved = run_left(rt, alloc, words, &outside, Status::Answered, CUT_LINE)?;
    let cert = proved.folder.bytes("c").expect(rt, "`c` is there");
    Ok(cert.to_vec(alloc)?)
}

// What `trim` makes of a certificate.
fn trimmed(
    rt: &(impl Abort + Threads + Wait + Sync),
    alloc: Global,
    cert: &[u8],
) -> Result<Vec<u8>, Fail> {
    let files = [("a", CUT.as_bytes()), ("c", cert), ("n", b"old".as_slice())];
    let words: &[&str] = &["trim", "a", "c", "n"];
    let trimmed = run_on(rt, alloc, words, &sound(&files, 4096))?;
    equal(rt, "trim", 0, trimmed.status, Status::Answered);
    let new = trimmed.folder.bytes("n").expect(rt, "`n` is there");
    Ok(new.to_vec(alloc)?)
}

#[test]
fn a_certificate_with_cuts_and_cases_is_trimmed(rt: HostRuntime) -> Result<(), Fail> {
    let alloc = rt.alloc();
    let cert = written(&rt, alloc)?;
    let new = trimmed(&rt, alloc, &cert)?;
    holds(&rt, "trim", 0, new.len() < cert.len());
    let files = [("a", CUT.as_bytes()), ("n", new.as_slice())];
    let words: &[&str] = &["check", "a", "n"];
    pieces_end(
        &rt,
        alloc,
        words,
        &files,
        &[4096],
        Status::Answered,
        CUT_LINE,
    )
}

// The step wraps where the input is -1, the greatest word plus one being the product.
const WRAPS: &str = "in x : s16.15 [-1,0x7fffp-15]; y : s16.15 dn = x * x; out y;";

const WRAPS_SCRIPT: &str = "y = fixed<-15,dn>(x * x);\n\
     { x in [-1, 0x7fffp-15] /\\ @FIX(x,-15) -> y in [-32768b-15, 32767b-15] /\\ y in ? }\n";

// Words, how the run ends, and the lines.
const WRAPPING: &[(&[&str], Status, &str)] = &[
    (FIX, Status::Answered, "fix: 1 steps, 1 outputs\n"),
    (
        &["prove", "s"],
        Status::Unproved,
        "unproved: goal 1 at the whole box\n",
    ),
    (
        &["at", "s", "p"],
        Status::Answered,
        "hypothesis 1: holds\nhypothesis 2: holds\ngoal 1: 1, fails\ngoal 2: 1\npoint: meets\n",
    ),
];

fn wrapping_ends(
    rt: &(impl Abort + Threads + Wait + Sync),
    alloc: Global,
    words: &[&str],
    status: Status,
    lines: &str,
) -> Result<(), Fail> {
    let files = [
        ("a", WRAPS.as_bytes()),
        ("n", b"old".as_slice()),
        ("s", WRAPS_SCRIPT.as_bytes()),
        ("p", b"x = -1;".as_slice()),
    ];
    let ended = run_left(rt, alloc, words, &sound(&files, 4096), status, lines)?;
    let new = ended.folder.bytes("n").expect(rt, "`n` is there");
    let wanted = if words == FIX { WRAPS_SCRIPT } else { "old" };
    bytes_are(rt, lines, 0, new, wanted.as_bytes());
    Ok(())
}

#[test]
fn a_program_that_wraps_stays_unproved(rt: HostRuntime) -> Result<(), Fail> {
    for (words, status, lines) in WRAPPING {
        wrapping_ends(&rt, rt.alloc(), *words, *status, lines)?;
    }
    Ok(())
}
