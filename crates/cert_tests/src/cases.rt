// A certificate of a script with two cases, checked against what the cases ask.

use crate::checks::{lines_text, stop_text};
use crate::equals::bytes_are;
use crate::worked::folder_of;
use cert_bytes::Reader;
use cert_checker::{CheckStop, Lines, Subject, check_subject};
use fx_edge::Items;
use script_checker::subject_of;
use script_grammar::{Script, parse};
use std::alloc::{AllocError, Global};
use std::process::Abort;
use std::test::Fail;

// The certificate of the square of x in [0, 1] or in [3, 4].
const WHOLE: [u8; 201] = [
    0x46, 0x58, 0x50, 0x43, 1, 0, 2, // the head, two nodes
    0, 0, 0, 5, 0, 0, 0, 0, // x, x * x
    0, 0, // no marks
    5, 2, // two cases
    1, 100, 0, 0, 1, 0, 0, // step 0: x in [0, 1], hypothesis 0 of the first case
    0, 0, 0, 0, 0, 0, 0, 0, 0, 0, 0, 0, 0, 0, 0, 0, 0, 0, 0, 1, 0, 0, 0, 0, 0, //
    1, 6, 0, 0, 1, 0, 1, // step 1: x * x in [0, 1]
    0, 0, 0, 0, 0, 0, 0, 0, 0, 0, 0, 0, 0, 0, 0, 0, 0, 0, 0, 1, 0, 0, 0, 0, 2, //
    0, 0, 0, 0, 0, 0, 0, 0, 0, 0, 0, 0, 0, 0, 0, 0, //
    3, 0, 1, 0, 0, 0, 0, 0, 0, 0, 1, // the leaf of the first case, by step 1
    1, 100, 0, 0, 1, 0, 0, // step 2: x in [3, 4], hypothesis 0 of the second case
    0, 0, 0, 0, 0, 0, 0, 0, 3, 0, 0, 0, 0, 0, 0, 0, 0, 0, 0, 1, 0, 2, 0, 0, 0, //
    1, 6, 0, 0, 1, 0, 1, // step 3: x * x in [9, 16]
    0, 0, 0, 0, 0, 0, 0, 0, 9, 0, 0, 0, 0, 0, 0, 0, 0, 0, 0, 1, 0, 4, 0, 0, 2, //
    0, 0, 0, 0, 0, 0, 0, 2, 0, 0, 0, 0, 0, 0, 0, 2, //
    3, 0, 1, 0, 0, 0, 0, 0, 0, 0, 3, // the leaf of the second case, by step 3
];

// The section of the second case cut at 3.5. Behind its step 2 stands a cut, and a section for each
// piece.
const CUT: [u8; 244] = [
    1, 100, 0, 0, 1, 0, 0, // step 2: x in [3, 4]
    0, 0, 0, 0, 0, 0, 0, 0, 3, 0, 0, 0, 0, 0, 0, 0, 0, 0, 0, 1, 0, 2, 0, 0, 0, //
    2, 0, 0, 1, 0, 0, 0, 0, 0, 0, 0, 7, 255, 255, // x is cut at 7 * 2^-1
    1, 102, 0, 0, 1, 0, 0, // step 3: x in [3, 7b-1], by the piece, met with step 2
    0, 0, 0, 0, 0, 0, 0, 0, 3, 0, 0, 0, 0, 0, 0, 0, 0, 0, 0, 7, 255, 255, 1, //
    0, 0, 0, 0, 0, 0, 0, 2, 0, 0, //
    1, 6, 0, 0, 1, 0, 1, // step 4: x * x in [9, 49b-2]
    0, 0, 0, 0, 0, 0, 0, 0, 9, 0, 0, 0, 0, 0, 0, 0, 0, 0, 0, 49, 255, 254, 0, 0, 2, //
    0, 0, 0, 0, 0, 0, 0, 3, 0, 0, 0, 0, 0, 0, 0, 3, //
    3, 0, 1, 0, 0, 0, 0, 0, 0, 0, 4, //
    1, 102, 0, 0, 1, 0, 0, // step 5: x in [7b-1, 4]
    0, 0, 0, 0, 0, 0, 0, 0, 7, 255, 255, 0, 0, 0, 0, 0, 0, 0, 0, 1, 0, 2, 1, //
    0, 0, 0, 0, 0, 0, 0, 2, 0, 0, //
    1, 6, 0, 0, 1, 0, 1, // step 6: x * x in [49b-2, 16]
    0, 0, 0, 0, 0, 0, 0, 0, 49, 255, 254, 0, 0, 0, 0, 0, 0, 0, 0, 1, 0, 4, 0, 0, 2, //
    0, 0, 0, 0, 0, 0, 0, 5, 0, 0, 0, 0, 0, 0, 0, 5, //
    3, 0, 1, 0, 0, 0, 0, 0, 0, 0, 6, //
];

// Scripts that differ in their hypotheses alone, each a case.
const FIRST: &str = "{ x in [0,1] -> x * x in ? }";

const SECOND: &str = "{ x in [3,4] -> x * x in ? }";

// The subject with the cases of another behind its own.
fn with_cases(subject: Subject, further: Subject) -> Result<Subject, AllocError> {
    let Subject {
        nodes,
        variables,
        cases,
        goals,
        marks,
        hints,
    } = subject;
    let mut all = cases.into_vec();
    for case in further.cases.into_vec() {
        all.push(case)?;
    }
    Ok(Subject {
        nodes,
        variables,
        cases: Items::from_vec(all),
        goals,
        marks,
        hints,
    })
}

// What a script with these two cases asks, or with the first alone.
fn subject_with(
    alloc: Global,
    first: &Script<'_>,
    second: Option<&Script<'_>>,
) -> Result<Subject, AllocError> {
    let subject = subject_of(alloc, first)?;
    match second {
        Some(script) => with_cases(subject, subject_of(alloc, script)?),
        None => Ok(subject),
    }
}

fn lines_of(
    alloc: Global,
    first: &Script<'_>,
    second: Option<&Script<'_>>,
    bytes: &[u8],
) -> Result<Lines, CheckStop> {
    let subject = subject_with(alloc, first, second)?;
    if subject.goals.as_slice().len() >= 65535 || subject.marks.as_slice().len() >= 65535 {
        return Err(CheckStop::OutOfMemory);
    }
    let mut folder = folder_of(alloc, bytes, &[], 7)?;
    let mut reader = Reader::new(alloc, "c")?;
    check_subject(alloc, subject, &mut reader, &mut folder)
}

// The line, or why there is none.
fn told(
    alloc: Global,
    script: &Script<'_>,
    found: Result<Lines, CheckStop>,
) -> Result<Vec<u8>, AllocError> {
    match found {
        Ok(lines) => lines_text(alloc, script, &lines),
        Err(stop) => stop_text(alloc, stop),
    }
}

// The line of the bytes as a certificate of the script, and of the second case; or why they aren't
// accepted.
fn checked_with(
    alloc: Global,
    first: &Script<'_>,
    both: bool,
    bytes: &[u8],
) -> Result<Vec<u8>, AllocError> {
    if !both {
        let found = lines_of(alloc, first, None, bytes);
        return told(alloc, first, found);
    }
    match parse(alloc, SECOND.as_bytes()) {
        Ok(second) => {
            let found = lines_of(alloc, first, Some(&second), bytes);
            told(alloc, first, found)
        }
        Err(_) => Ok(Vec::new(alloc)),
    }
}

// The line of the bytes as a certificate of the two cases, or of the first alone; or why they
// aren't accepted.
fn checked(alloc: Global, both: bool, bytes: &[u8]) -> Result<Vec<u8>, AllocError> {
    match parse(alloc, FIRST.as_bytes()) {
        Ok(first) => checked_with(alloc, &first, both, bytes),
        Err(_) => Ok(Vec::new(alloc)),
    }
}

// Adds a piece of these certificates, or of a wrong one, by its letter in the rows below.
fn add(letter: char, bytes: &mut Vec<u8>) -> Result<(), AllocError> {
    match letter {
        'h' => bytes.extend_from_slice(&WHOLE[..17]),
        't' => bytes.extend_from_slice(&WHOLE[17..19]),
        'f' => bytes.extend_from_slice(&WHOLE[19..110]),
        's' => bytes.extend_from_slice(&WHOLE[110..]),
        'c' => bytes.extend_from_slice(&CUT),
        // the sections without the first two bytes of their first step
        'F' => bytes.extend_from_slice(&WHOLE[21..110]),
        'S' => bytes.extend_from_slice(&WHOLE[112..]),
        // a step by the piece of a cut, a leaf, a dead end, no item
        'x' => bytes.extend_from_slice(&[1, 102]),
        'l' => bytes.extend_from_slice(&[3, 0, 0]),
        'd' => bytes.extend_from_slice(&[4, 0, 0, 0, 0, 0, 0, 0, 0]),
        'n' => bytes.extend_from_slice(&[9]),
        // other numbers of cases
        '0' => bytes.extend_from_slice(&[5, 0]),
        '1' => bytes.extend_from_slice(&[5, 1]),
        '3' => bytes.extend_from_slice(&[5, 3]),
        '4' => bytes.extend_from_slice(&[5, 64]),
        '5' => bytes.extend_from_slice(&[5, 65]),
        // the second case's leaf by step 1; its step 3 by step 1
        'L' => {
            bytes.extend_from_slice(&WHOLE[110..200])?;
            bytes.extend_from_slice(&[1])
        }
        _ => {
            bytes.extend_from_slice(&WHOLE[110..181])?;
            bytes.extend_from_slice(&[1])?;
            bytes.extend_from_slice(&WHOLE[182..])
        }
    }
}

// The pieces with these letters, one behind the other.
fn joined(alloc: Global, letters: &str) -> Result<Vec<u8>, AllocError> {
    let mut bytes = Vec::new(alloc);
    for letter in letters.chars() {
        add(letter, &mut bytes)?;
    }
    Ok(bytes)
}

const LINE: &str = "x * x in [0, 1b4]\n";

// Whether the second case is asked for, the letters, and the line or why there is none.
const ROWS: &[(bool, &str, &str)] = &[
    (true, "htfs", LINE),
    // another tree in the second case
    (true, "htfc", LINE),
    (false, "htfs", "BadCases(2)"),
    (true, "hf", "BadCases(1)"),
    (false, "hf", "x * x in [0, 1]\n"),
    // before what else is wrong with the item: a step, a leaf, a dead end
    (true, "hxF", "BadCases(1)"),
    (false, "hxF", "BadStep(0)"),
    (true, "hl", "BadCases(1)"),
    (true, "hd", "BadCases(1)"),
    (true, "hn", "BadTag 17"),
    // other numbers
    (true, "h0fs", "BadNumber 18"),
    (true, "h1fs", "BadNumber 18"),
    (true, "h3fs", "BadCases(3)"),
    (true, "h4fs", "BadCases(64)"),
    (true, "h5fs", "BadNumber 18"),
    (true, "httf", "BadTag 19"),
    // the other case's hypothesis; a section too few, or too many
    (true, "htsf", "BadStep(0)"),
    (true, "htf", "Truncated 110"),
    (true, "htfss", "TrailingBytes 201"),
    // the piece of no cut in the second root section; its leaf cites the first
    (true, "htfxS", "BadStep(2)"),
    (true, "htfL", "GoalMissing(1, 1)"),
    // its step cites one of the first
    (true, "htfP", "BadPremise(3)"),
];

fn is_checked(
    rt: &impl Abort,
    alloc: Global,
    both: bool,
    letters: &str,
    wanted: &str,
) -> Result<(), Fail> {
    let bytes = joined(alloc, letters)?;
    let text = checked(alloc, both, bytes.as_slice())?;
    bytes_are(rt, letters.len(), text.as_slice(), wanted.as_bytes());
    Ok(())
}

#[test]
fn a_root_section_stands_for_each_case(rt: HostRuntime) -> Result<(), Fail> {
    for (both, letters, wanted) in ROWS {
        is_checked(&rt, rt.alloc(), *both, letters, wanted)?;
    }
    Ok(())
}
