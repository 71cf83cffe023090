//! What no clause says: that memory is found. Three programs, and what comes of each.
use crate::equals::{bytes_are, equal, file_is};
use crate::folders::{folder_of, owned};
use command_line::FixRequest;
use command_runs::Status;
use fix_command::run_fix;
use fx_edge::{MemSink, SureFolder, SureSink};
use std::alloc::Global;
use std::process::Abort;
use std::test::Fail;

const NAMES: FixRequest<'static> = FixRequest {
    program: "p",
    script: "s",
};

// A program with its status and line, and what the script's file holds then.
type Row = (&'static str, Status, &'static str, &'static str);

const ROWS: &[Row] = &[
    (
        "in x : s16.15 [0,0.5]; y : s16.15 dn = x * x; out y;",
        Status::Answered,
        "fix: 1 steps, 1 outputs\n",
        "y = fixed<-15,dn>(x * x);\n\
         { x in [0, 0.5] /\\ @FIX(x,-15) -> y in [-32768b-15, 32767b-15] /\\ y in ? }\n",
    ),
    (
        "in x : s16.15 [-1,0.5]; y : s16.15 dn = x * x; out y;",
        Status::Answered,
        "fix: 1 steps, 1 outputs\n",
        "y = fixed<-15,dn>(x * x);\n\
         { x in [-1, 0.5] /\\ @FIX(x,-15) -> y in [-32768b-15, 32767b-15] /\\ y in ? }\n",
    ),
    (
        "in x : s16.15 [0,1]; out x;",
        Status::Program,
        "program: BadRange at 17\n",
        "old",
    ),
];

// What the script's file held.
const OLD: &[u8] = b"old";

// The program's status, line and file come over a folder and a sink that move few bytes in a call.
fn comes_piece_by_piece(
    rt: &impl Abort,
    alloc: Global,
    program: &str,
    status: Status,
    line: &str,
    script: &str,
) -> Result<(), Fail> {
    let files = [("p", program.as_bytes()), ("s", OLD)];
    let mut folder = folder_of(alloc, &files, &[], 200, 7)?;
    let mut out = MemSink::new(alloc, Vec::new(alloc), 99, 5)?;
    let ended = run_fix(alloc, NAMES, &mut folder, &mut out);
    equal(rt, program, &[], ended, status);
    bytes_are(rt, program, &[], out.bytes(), line.as_bytes());
    file_is(rt, program, folder.bytes("s"), script.as_bytes());
    Ok(())
}

// The same where all bytes are moved at once.
fn comes_whole(
    rt: &impl Abort,
    alloc: Global,
    program: &str,
    status: Status,
    line: &str,
    script: &str,
) -> Result<(), Fail> {
    let files = [("p", program.as_bytes()), ("s", OLD)];
    let mut folder = SureFolder::new(alloc, owned(alloc, &files)?, 200)?;
    let mut out = SureSink::new(alloc, 99)?;
    let ended = run_fix(alloc, NAMES, &mut folder, &mut out);
    equal(rt, program, &[], ended, status);
    bytes_are(rt, program, &[], out.bytes(), line.as_bytes());
    file_is(rt, program, folder.bytes("s"), script.as_bytes());
    Ok(())
}

#[test]
fn programs_are_turned(rt: HostRuntime) -> Result<(), Fail> {
    for (program, status, line, script) in ROWS {
        comes_piece_by_piece(&rt, rt.alloc(), program, *status, line, script)?;
        comes_whole(&rt, rt.alloc(), program, *status, line, script)?;
    }
    Ok(())
}
