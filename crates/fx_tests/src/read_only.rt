// Commands that only read: `at` and `batch`. Expected lines were worked out by hand.
use crate::equals::{bytes_are, equal};
use crate::runs::{Outside, pieces_end, run_on, sound};
use crate::words::USAGE;
use command_runs::Status;
use std::alloc::Global;
use std::process::Abort;
use std::sync::Wait;
use std::test::Fail;
use std::thread::Threads;

const AT: &[&str] = &["at", "a", "b"];

const BATCH: &[&str] = &["batch", "c"];

const ROUNDED: &str = "@rnd = fixed<-4,dn>; y = rnd(x); { x in [0,1] -> y - x in ? }";

const PRODUCT: &str = "{ x in [1,2] /\\ y in [3,5] -> x * y in ? }";

const OPEN: &str = "{ x in ? }";

// The texts of `a` and `b`, and how `at` ends on them.
const POINTS: &[(&str, &str, Status, &str)] = &[
    (
        ROUNDED,
        "x = 1 / 3;",
        Status::Answered,
        "hypothesis 1: holds\ngoal 1: -1/48\npoint: meets\n",
    ),
    (
        "{ x in [1,2] -> 1 / (x - x) in ? }",
        "x = 1;",
        Status::Answered,
        "hypothesis 1: holds\ngoal 1: no value\npoint: meets\n",
    ),
    (
        "{ x in [0,1] \\/ x in [3,4] -> x in [0,3] }",
        "x = 4;",
        Status::Answered,
        "hypothesis 1: fails\nhypothesis 2: holds\ngoal 1: 4, fails\npoint: meets\n",
    ),
    (
        PRODUCT,
        "x = 0; y = 4;",
        Status::Answered,
        "hypothesis 1: fails\nhypothesis 2: holds\ngoal 1: 0\npoint: misses\n",
    ),
    (OPEN, "x = 1b200;", Status::TooWide, "too wide: entry 1\n"),
    // four variables, in another order than that of the script
    (
        "{ a in [0,1] /\\ b <= 1 -> a + b + c + d in ? }",
        "d = 1/2; c = 0; b = 1; a = 1;",
        Status::Answered,
        "hypothesis 1: holds\nhypothesis 2: holds\ngoal 1: 5/2\npoint: meets\n",
    ),
    // a relative goal whose two sides are 0, and a hint that is assumed
    (
        "{ x -/ y in [0.5,1] } x -> x + 1 { x < 0 };",
        "y = 0; x = 0;",
        Status::Answered,
        "goal 1: zero, holds\nhint 1: holds\npoint: meets\n",
    ),
    // numbers that are too wide, by where they stand
    (
        "{ x * x in ? }",
        "x = 1b64;",
        Status::TooWide,
        "too wide: node 1\n",
    ),
    (
        "{ x in [0,1b200] -> 1 / (x - x) in [0,1b200] }",
        "x = 1;",
        Status::TooWide,
        "too wide: hypothesis 1\n",
    ),
    (
        "{ x in ? } y -> x { x < 0, x < 1b200 };",
        "x = 1; y = 2;",
        Status::TooWide,
        "too wide: hint 1\n",
    ),
    (OPEN, "", Status::Point, "point: Missing at 0\n"),
    (OPEN, "x = 1; x = 2;", Status::Point, "point: Twice at 7\n"),
    (OPEN, "z = 1;", Status::Point, "point: Unknown at 0\n"),
    ("!", "!", Status::Script, "script: BadToken at 0\n"),
];

#[test]
fn points_of_scripts(rt: HostRuntime) -> Result<(), Fail> {
    for (text, point, status, printed) in POINTS {
        let files = [("a", text.as_bytes()), ("b", point.as_bytes())];
        pieces_end(&rt, rt.alloc(), AT, &files, &[1, 4096], *status, printed)?;
    }
    Ok(())
}

const BOTH: &str = "script a\nx * y in [3, 5b1]\nscript b\nunproved: goal 1 at the whole box\n";

// Words, the list, and how the run ends where `a` is proved and `b` stays unproved.
const LISTS: &[(&[&str], &str, Status, &str)] = &[
    (BATCH, "a\nb\n", Status::Unproved, BOTH),
    (
        &["batch", "c", "--workers", "1"],
        "a\nb",
        Status::Unproved,
        BOTH,
    ),
    (
        &["batch", "c", "--workers=16"],
        "a\nb",
        Status::Unproved,
        BOTH,
    ),
    (
        BATCH,
        "a\na\n",
        Status::Answered,
        "script a\nx * y in [3, 5b1]\nscript a\nx * y in [3, 5b1]\n",
    ),
    (
        BATCH,
        "c\nb\n",
        Status::Script,
        "script c\nscript: Unexpected at 2\nscript b\nunproved: goal 1 at the whole box\n",
    ),
    (BATCH, "a\nd\n", Status::ReadFault, "read fault: d\n"),
    (BATCH, "", Status::List, "list: EmptyName at 0\n"),
    (BATCH, "a\n\nb\n", Status::List, "list: EmptyName at 2\n"),
    (
        &["batch", "c", "--boxes", "513"],
        "a\n",
        Status::Usage,
        USAGE,
    ),
];

#[test]
fn lists_of_scripts(rt: HostRuntime) -> Result<(), Fail> {
    for (words, list, status, printed) in LISTS {
        let files = [
            ("a", PRODUCT.as_bytes()),
            ("b", OPEN.as_bytes()),
            ("c", list.as_bytes()),
        ];
        pieces_end(&rt, rt.alloc(), *words, &files, &[4096], *status, printed)?;
    }
    Ok(())
}

// A call of the folder fails: a read fault comes. False where the run meets no fault, and has its
// lines.
fn call_fails(
    rt: &(impl Abort + Threads + Wait + Sync),
    alloc: Global,
    words: &[&str],
    files: &[(&str, &[u8])],
    status: Status,
    printed: &str,
    number: u64,
) -> Result<bool, Fail> {
    let failing = [number];
    let outside = Outside {
        failing_calls: &failing,
        ..sound(&*files, 16)
    };
    let ended = run_on(rt, alloc, words, &outside)?;
    if ended.status == status {
        bytes_are(rt, printed, number, ended.out.bytes(), printed.as_bytes());
        return Ok(false);
    }
    equal(rt, printed, number, ended.status, Status::ReadFault);
    Ok(true)
}

// A put fails: where the run ends by that, what was put is a front of the lines.
fn put_fails(
    rt: &(impl Abort + Threads + Wait + Sync),
    alloc: Global,
    words: &[&str],
    files: &[(&str, &[u8])],
    status: Status,
    printed: &str,
    number: u64,
) -> Result<(), Fail> {
    let failing = [number];
    let outside = Outside {
        failing_puts: &failing,
        ..sound(&*files, 16)
    };
    let ended = run_on(rt, alloc, words, &outside)?;
    if ended.status != status {
        let done = 16 * number.saturating_sub(1).min(100) as usize;
        let front = printed.get(..done).unwrap_or("");
        equal(rt, printed, number, ended.status, Status::WriteFault);
        bytes_are(rt, printed, number, ended.out.bytes(), front.as_bytes());
    }
    Ok(())
}

// Each call of the folder and each put fails in turn, until a run meets no fault.
fn calls_fail(
    rt: &(impl Abort + Threads + Wait + Sync),
    alloc: Global,
    words: &[&str],
    files: &[(&str, &[u8])],
    status: Status,
    printed: &str,
) -> Result<(), Fail> {
    for number in 1..40u64 {
        if !call_fails(rt, alloc, words, files, status, printed, number)? {
            return Ok(());
        }
        put_fails(rt, alloc, words, files, status, printed, number)?;
    }
    panic!(rt; "each run met a fault")
}

#[test]
fn a_failing_call_has_its_status(rt: HostRuntime) -> Result<(), Fail> {
    let (_, point, status, printed) = POINTS[0];
    let files = [("a", ROUNDED.as_bytes()), ("b", point.as_bytes())];
    calls_fail(&rt, rt.alloc(), AT, &files, status, printed)?;
    let files = [
        ("a", PRODUCT.as_bytes()),
        ("b", OPEN.as_bytes()),
        ("c", b"a\nb\n".as_slice()),
    ];
    calls_fail(&rt, rt.alloc(), BATCH, &files, Status::Unproved, BOTH)
}
