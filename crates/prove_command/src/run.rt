// The command.
ghost use Rattle.command_line.specs.Reading.{asked_of, AreInRange};
ghost use Rattle.command_runs.specs.Runs.{run, seen};
ghost use Rattle.prove_command.specs.Certified.{IsPutBehind};
ghost use Rattle.prove_command.specs.Command.{IsProveRun};

use crate::certify::{Certified, certify_text};
use cert_writer::WriteStop;
use command_line::Request;
use command_runs::{Status, print, print_stop};
use fx_edge::{Folder, Gate, Sink};
use script_answers::text_answers_are_one;
use script_texts::read_script;
use std::alloc::Global;
use std::sync::Wait;
use std::thread::Threads;

// Puts the lines of a text, where all that was to be written for it is.
fn put_certified<O: Sink>(out: &mut O, certified: &Certified) -> Status
    ensures { IsPutBehind certified.now.written certified.now.status certified.now.lines.items
        (O.taken out.old) (O.taken out.new) (O.faults out.old) (O.faults out.new) result }
{
    match certified.written {
        Ok(()) => print(out, &certified.lines, certified.status),
        Err(WriteStop::Failed) => Status::WriteFault,
        Err(WriteStop::OutOfMemory) => Status::OutOfMemory,
    }
}

/// Runs `prove`: reads the script from the folder, proves its goals, and puts the answer's lines.
/// Where the request names a file for the certificate and all goals are proved, that is written
/// before, and the lines are made before it. Workers, as many as the request says, settle the
/// boxes; each calls the gate before and after a box. It may wait.
pub fn run_prove<F: Folder, O: Sink, G: Gate, R: Threads + Wait + Sync>(
    rt: &R,
    alloc: Global,
    request: Request<'_>,
    folder: &mut F,
    out: &mut O,
    gate: &G,
) -> Status
    requires { AreInRange request }
    // At `Answered` the sink took whole the lines of a script whose goals are all proved, and where
    // a file is named, it holds a certificate that is accepted for the script with these lines, of
    // 2^44 bytes at most. After a write fault, and where memory ran out, the sink took a front of
    // such lines, and the file holds what it held or a front of such a certificate; no line is put
    // before the file is whole. Each other status comes with its lines, and no file changes.
    // Where the script's text is told, its status comes, or else a fault of the outside or lack of
    // memory.
    ensures run { IsProveRun (asked_of request.entry)
        (run (seen F.Folder O.Sink folder.old out.old) (seen F.Folder O.Sink folder.new out.new)
        result) }
{
    text_answers_are_one();
    match read_script(alloc, folder, request.script) {
        Ok(text) => match certify_text(rt, alloc, &text, &request, folder, gate) {
            Ok(certified) => put_certified(out, &certified),
            Err(_) => Status::OutOfMemory,
        },
        Err(stop) => print_stop(alloc, request.script, stop, out),
    }
}
