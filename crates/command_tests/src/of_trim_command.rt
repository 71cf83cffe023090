// Certificates of one script, written anew over folders in memory.
use crate::equals::{bytes_are, equal, holds};
use crate::folders::folder_of;
use command_line::TrimRequest;
use command_runs::Status;
use fx_edge::{MemFolder, SureSink};
use std::alloc::{AllocError, Global};
use std::process::Abort;
use std::test::Fail;
use trim_command::run_trim;

const SCRIPT: &[u8] = b"{ x in [1,2] /\\ y in [3,5] -> x * y in ? }";

// What the new file holds before a run.
const OLD: &[u8] = b"old";

// Version 1: the head, three nodes, x, y and x * y, and no marks.
const HEAD: &[u8] = &[
    0x46, 0x58, 0x50, 0x43, 1, 0, 3, 0, 0, 0, 0, 0, 1, 5, 0, 0, 0, 1, 0, 0,
];

// Steps: x in [1, 2] and y in [3, 5], which are hypotheses.
const XS: &[u8] = &[
    1, 0x64, 0, 0, 1, 0, 0, 0, 0, 0, 0, 0, 0, 0, 0, 1, 0, 0, 0, 0, 0, 0, 0, 0, 0, 0, 1, 0, 1, 0, 0,
    0,
];

const YS: &[u8] = &[
    1, 0x64, 0, 1, 1, 0, 1, 0, 0, 0, 0, 0, 0, 0, 0, 3, 0, 0, 0, 0, 0, 0, 0, 0, 0, 0, 5, 0, 0, 0, 0,
    0,
];

// That x * y lies in [3, 10], by rule 6 on steps 0 and 1.
const PRODUCT: &[u8] = &[
    1, 6, 0, 0, 1, 0, 2, 0, 0, 0, 0, 0, 0, 0, 0, 3, 0, 0, 0, 0, 0, 0, 0, 0, 0, 0, 5, 0, 1, 0, 0, 2,
    0, 0, 0, 0, 0, 0, 0, 0, 0, 0, 0, 0, 0, 0, 0, 1,
];

// Version 2 of what is left, as `docs/FORMATS.md` has it.
const NEW: &[u8] = &[
    0x46, 0x58, 0x50, 0x43, 2, 3, 0, 0, 0, 1, 5, 0, 1, 0, // the head, the nodes, no marks
    1, 0x64, 0, 1, 0, 0, 2, 0, 0, 2, 2, 0, 0, // step 0
    1, 0x64, 1, 1, 1, 0, 6, 0, 0, 0x0a, 0, 0, 0, // step 1
    1, 6, 0, 1, 2, 0, 6, 0, 0, 0x0a, 2, 0, 2, 2, 1, // step 2
    3, 1, 1, 6, 1, 3, // the leaf, and the trailer
];

// The leaf, before the number of its step.
const LEAF: &[u8] = &[3, 0, 1, 0, 0, 0, 0, 0, 0, 0];

fn joined(alloc: Global, pieces: &[&[u8]]) -> Result<Vec<u8>, AllocError> {
    let mut bytes = Vec::new(alloc);
    for piece in pieces {
        bytes.extend_from_slice(piece)?;
    }
    Ok(bytes)
}

// What is whole, by step 2.
const WHOLE: &[&[u8]] = &[HEAD, XS, YS, PRODUCT, LEAF, &[2]];

// How a run ends: its status, its lines, where they are looked at, and what the new file holds: its
// old bytes or a prefix of the new ones, where no bytes are named.
type End = (Status, Option<&'static str>, Option<&'static [u8]>);

fn new_file(folder: &MemFolder) -> &[u8] {
    match folder.bytes("n") {
        Some(bytes) => bytes,
        None => &[],
    }
}

fn lines_are(rt: &impl Abort, run: &str, failing: &[u64], found: &[u8], wanted: Option<&str>) {
    if let Some(text) = wanted {
        bytes_are(rt, run, failing, found, text.as_bytes());
    }
}

fn new_file_is(rt: &impl Abort, run: &str, failing: &[u64], found: &[u8], wanted: Option<&[u8]>) {
    match wanted {
        Some(bytes) => bytes_are(rt, run, failing, found, bytes),
        None => holds(rt, run, failing, found == OLD || NEW.starts_with(found)),
    }
}

// The run over this certificate, of which these calls of the folder fail, ends so.
fn cert_ends<'x>(
    rt: &impl Abort,
    alloc: Global,
    run: &str,
    script: &'x [u8],
    cert: &'x [u8],
    failing: &[u64],
    end: End,
) -> Result<(), Fail> {
    let files = [("a", script), ("c", cert), ("n", OLD)];
    let mut folder = folder_of(alloc, &files, failing, 100, 50)?;
    let mut out = SureSink::new(alloc, 100)?;
    let request = TrimRequest {
        script: "a",
        cert: "c",
        new: "n",
    };
    let status = run_trim(alloc, request, &mut folder, &mut out);
    equal(rt, run, failing, status, end.0);
    lines_are(rt, run, failing, out.bytes(), end.1);
    new_file_is(rt, run, failing, new_file(&folder), end.2);
    Ok(())
}

// The same of a certificate in pieces.
fn trim_ends(
    rt: &impl Abort,
    alloc: Global,
    run: &str,
    script: &[u8],
    cert: &[&[u8]],
    failing: &[u64],
    end: End,
) -> Result<(), Fail> {
    let cert = joined(alloc, cert)?;
    cert_ends(rt, alloc, run, script, &cert, failing, end)
}

// A script, a certificate in pieces, and how the run ends.
type Row = (&'static str, &'static [u8], &'static [&'static [u8]], End);

fn rows_end(rt: &impl Abort, alloc: Global, rows: &[Row]) -> Result<(), Fail> {
    for (run, script, cert, end) in rows {
        trim_ends(rt, alloc, run, *script, *cert, &[], *end)?;
    }
    Ok(())
}

const USED: &[Row] = &[(
    "used steps",
    SCRIPT,
    WHOLE,
    (Status::Answered, Some("trimmed: 3 of 3 steps\n"), Some(NEW)),
)];

#[test]
fn steps_that_are_used_stay(rt: HostRuntime) -> Result<(), Fail> {
    rows_end(&rt, rt.alloc(), USED)
}

const UNUSED: &[Row] = &[(
    "an unused step",
    SCRIPT,
    &[HEAD, XS, YS, YS, PRODUCT, LEAF, &[3]],
    (Status::Answered, Some("trimmed: 3 of 4 steps\n"), Some(NEW)),
)];

#[test]
fn a_step_that_is_not_used_goes(rt: HostRuntime) -> Result<(), Fail> {
    rows_end(&rt, rt.alloc(), UNUSED)
}

const NOT_ACCEPTED: &[Row] = &[
    (
        "cut off",
        SCRIPT,
        &[HEAD, XS, YS, PRODUCT],
        (
            Status::Certificate,
            Some("certificate: Truncated at 132\n"),
            Some(OLD),
        ),
    ),
    (
        "an early premise",
        SCRIPT,
        &[HEAD, XS, PRODUCT, LEAF, &[1]],
        (
            Status::Certificate,
            Some("certificate: BadPremise 1\n"),
            Some(OLD),
        ),
    ),
    ("no script", b"", &[HEAD], (Status::Script, None, Some(OLD))),
];

#[test]
fn what_is_not_accepted_is_not_written(rt: HostRuntime) -> Result<(), Fail> {
    rows_end(&rt, rt.alloc(), NOT_ACCEPTED)
}

// Six reads of the script and of the certificate; then the new file is made, and written twice.
fn end_of(call: u64) -> End {
    if call <= 6 {
        (Status::ReadFault, None, Some(OLD))
    } else if call <= 9 {
        (Status::WriteFault, Some(""), None)
    } else {
        (Status::Answered, None, Some(NEW))
    }
}

#[test]
fn each_call_of_the_folder_may_fail(rt: HostRuntime) -> Result<(), Fail> {
    for call in 1..12u64 {
        let end = end_of(call);
        trim_ends(
            &rt,
            rt.alloc(),
            "a failing call",
            SCRIPT,
            WHOLE,
            &[call],
            end,
        )?;
    }
    Ok(())
}
