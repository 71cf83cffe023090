// The worked certificate checked for a script: whole, damaged, and from a folder that fails.
ghost use Rattle.std.specs.Prelude.{◌≤◌};

use crate::equals::bytes_are;
use crate::turned::{CHECKED, run_at};
use crate::worked::{WHOLE, edited, folder_of, turned};
use cert_bytes::Reader;
use cert_checker::{CheckStop, Lines};
use report::proved::answer_text;
use script_checker::check_script;
use script_grammar::{Script, parse};
use std::alloc::{AllocError, Global};
use std::process::Abort;
use std::test::Fail;

const SCRIPT: &str = "{ x in [1,2] /\\ y in [3,5] -> x * y in ? }";

const LINE: &str = "x * y in [3, 5b1]\n";

fn lines_of(
    alloc: Global,
    script: &Script<'_>,
    bytes: &[u8],
    failing: &[u64],
    most: usize,
) -> Result<Lines, CheckStop>
    requires { 1 ≤ most }
{
    let mut folder = folder_of(alloc, bytes, failing, most)?;
    let mut reader = Reader::new(alloc, "c")?;
    check_script(alloc, script, &mut reader, &mut folder)
}

pub(crate) fn lines_text(
    alloc: Global,
    script: &Script<'_>,
    lines: &Lines,
) -> Result<Vec<u8>, AllocError> {
    answer_text(
        alloc,
        script.text(),
        script.tokens(),
        script.goal_spans(),
        lines.rows.as_slice(),
        lines.marks.as_slice(),
    )
}

pub(crate) fn stop_text(alloc: Global, stop: CheckStop) -> Result<Vec<u8>, AllocError> {
    let text = match stop {
        CheckStop::Cert(fault) => format!(in alloc; "{:?} {}", fault.kind, fault.at)?,
        CheckStop::Check(fault) => format!(in alloc; "{fault:?}")?,
        _ => format!(in alloc; "{stop:?}")?,
    };
    Ok(text.into_bytes())
}

fn answer(
    alloc: Global,
    script: &Script<'_>,
    bytes: &[u8],
    failing: &[u64],
    most: usize,
) -> Result<Vec<u8>, AllocError>
    requires { 1 ≤ most }
{
    match lines_of(alloc, script, bytes, failing, most) {
        Ok(lines) => lines_text(alloc, script, &lines),
        Err(stop) => stop_text(alloc, stop),
    }
}

// What is printed of the bytes as a certificate of the script; or why they aren't accepted.
fn checked(
    alloc: Global,
    text: &str,
    bytes: &[u8],
    failing: &[u64],
    most: usize,
) -> Result<Vec<u8>, AllocError>
    requires { 1 ≤ most }
{
    match parse(alloc, text.as_bytes()) {
        Ok(script) => answer(alloc, &script, bytes, failing, most),
        Err(_) => Ok(Vec::new(alloc)),
    }
}

// Step 2, step 1, step 0.
const LAST_FIRST: &[u8] = &[
    1, 6, 0, 0, 1, 0, 2, 0, 0, 0, 0, 0, 0, 0, 0, 3, 0, 0, 0, 0, 0, 0, 0, 0, 0, 0, 5, 0, 1, 0, 0, 2,
    0, 0, 0, 0, 0, 0, 0, 0, 0, 0, 0, 0, 0, 0, 0, 1, 1, 100, 0, 1, 1, 0, 1, 0, 0, 0, 0, 0, 0, 0, 0,
    3, 0, 0, 0, 0, 0, 0, 0, 0, 0, 0, 5, 0, 0, 0, 0, 0, 1, 100, 0, 0, 1, 0, 0, 0, 0, 0, 0, 0, 0, 0,
    0, 1, 0, 0, 0, 0, 0, 0, 0, 0, 0, 0, 1, 0, 1, 0, 0, 0,
];

// The bytes before a place of the certificate, a piece, and the bytes from a place on; and what
// comes of them.
const ROWS: &[(usize, &[u8], usize, &str)] = &[
    (143, &[], 143, LINE),
    (4, &[9], 5, "BadVersion 4"),
    (142, &[], 143, "Truncated 142"),
    (143, &[0], 143, "TrailingBytes 143"),
    // fewer nodes, another operand, a node twice, a mark
    (6, &[2], 7, "WrongScript(2)"),
    (15, &[1], 16, "WrongScript(2)"),
    (
        6,
        &[4, 0, 0, 0, 0, 0, 1, 5, 0, 0, 0, 1, 0, 0, 1],
        18,
        "BadNode(3)",
    ),
    (19, &[1], 20, "HintMark(1)"),
    // another rule, another hypothesis
    (21, &[101], 22, "BadStep(0)"),
    (21, &[102], 22, "BadStep(0)"),
    (23, &[1], 24, "BadStep(0)"),
    (85, &[5], 86, "BadStep(2)"),
    // an end off its form, lower ends, an end too low, higher ends, an end too high
    (28, &[1], 29, "BadNumber 27"),
    (99, &[1], 100, "x * y in [1, 5b1]\n"),
    (110, &[7], 111, "x * y in [3, 7b1]\n"),
    (99, &[5], 100, "BadStep(2)"),
    (
        103,
        &[9, 255, 255, 255, 255, 255, 255, 255, 255, 200],
        113,
        "BadStep(2)",
    ),
    // met with a later step; later premises; one premise twice
    (113, &[1, 0, 0, 0, 0, 0, 0, 0, 2], 114, "BadPremise(2)"),
    (123, &[2], 124, "BadPremise(2)"),
    (131, &[2], 132, "BadPremise(2)"),
    (131, &[0], 132, "BadStep(2)"),
    // the last step first, so that all steps stand elsewhere
    (20, LAST_FIRST, 132, "BadPremise(0)"),
    // a cut along x, whose sections end alike; along the product; one that has a section too few
    (
        132,
        &[
            2, 0, 0, 1, 0, 0, 0, 0, 0, 0, 0, 1, 0, 0, 3, 0, 1, 0, 0, 0, 0, 0, 0, 0, 2,
        ],
        132,
        LINE,
    ),
    (
        132,
        &[2, 0, 2, 1, 0, 0, 0, 0, 0, 0, 0, 1, 0, 0],
        132,
        "BadCut(0)",
    ),
    (
        132,
        &[2, 0, 0, 1, 0, 0, 0, 0, 0, 0, 0, 1, 0, 0],
        132,
        "Truncated 157",
    ),
    // a dead end by a step that isn't VOID; no goal, two goals, steps of other goals, a step that
    // isn't there
    (132, &[4], 135, "GoalMissing(0, 0)"),
    (134, &[0], 143, "GoalMissing(0, 1)"),
    (134, &[2, 0, 0, 0, 0, 0, 0, 0, 2], 135, "GoalMissing(0, 2)"),
    (142, &[0], 143, "GoalMissing(0, 1)"),
    (142, &[1], 143, "GoalMissing(0, 1)"),
    (142, &[3], 143, "GoalMissing(0, 1)"),
];

// This is the answer to the bytes, by so many a read at most; `at` is the place of the row.
fn is_checked(
    rt: &impl Abort,
    alloc: Global,
    bytes: &[u8],
    failing: &[u64],
    most: usize,
    wanted: &str,
    at: usize,
) -> Result<(), Fail>
    requires { 1 ≤ most }
{
    let text = checked(alloc, SCRIPT, bytes, failing, most)?;
    bytes_are(rt, at, text.as_slice(), wanted.as_bytes());
    Ok(())
}

#[test]
fn damage_is_answered_by_the_line_or_the_first_fault(rt: HostRuntime) -> Result<(), Fail> {
    for (front, piece, back, wanted) in ROWS {
        let bytes = edited(rt.alloc(), *front, *piece, *back)?;
        is_checked(&rt, rt.alloc(), &bytes, &[], 7, wanted, *front)?;
    }
    Ok(())
}

#[test]
fn each_turned_bit_is_checked_as_in_the_table(rt: HostRuntime) -> Result<(), Fail> {
    for at in 0..143usize {
        let bytes = turned(rt.alloc(), 8 * at)?;
        is_checked(&rt, rt.alloc(), &bytes, &[], 1, run_at(&CHECKED, at), at)?;
    }
    Ok(())
}

// By 7 bytes a read there are 21 reads, and one more that finds the end.
#[test]
fn each_read_that_fails_is_told(rt: HostRuntime) -> Result<(), Fail> {
    for failing in 1..24usize {
        let wanted = if failing <= 22 { "Failed" } else { LINE };
        let reads = [failing as u64];
        is_checked(&rt, rt.alloc(), &WHOLE, &reads, 7, wanted, failing)?;
    }
    Ok(())
}

#[test]
fn another_script_has_other_nodes(rt: HostRuntime) -> Result<(), Fail> {
    let text = checked(rt.alloc(), "{ x in [1,2] -> x + x in ? }", &WHOLE, &[], 7)?;
    bytes_are(&rt, 0, text.as_slice(), b"WrongScript(1)".as_slice());
    Ok(())
}
