// What `trim` does.
ghost use Rattle.command_line.specs.Trim.{trim_of};
ghost use Rattle.command_runs.specs.Runs.{run, seen};
ghost use Rattle.trim_command.specs.Command.{IsTrimRun};

use crate::answer::trim_answer;
use crate::laws::trim_answers_are_one;
use crate::stop::TrimStop;
use command_line::TrimRequest;
use command_runs::{Status, print, print_stop};
use fx_edge::{Folder, Sink};
use script_texts::read_script;
use std::alloc::Global;
use whole_texts::ReadStop;

/// Reads a script and then a certificate of it, which it writes to the new file in version 2,
/// without its unused steps, where it is accepted for the script; and puts how many steps are left,
/// or why it isn't written. The certificate is read only where the script's text spells a script,
/// and the new file is made only where the certificate is accepted.
pub fn run_trim<F: Folder, O: Sink>(
    alloc: Global,
    request: TrimRequest<'_>,
    folder: &mut F,
    out: &mut O,
) -> Status
    ensures run { IsTrimRun (trim_of request.entry)
        (run (seen F.Folder O.Sink folder.old out.old) (seen F.Folder O.Sink folder.new out.new)
        result) }
{
    trim_answers_are_one();
    match read_script(alloc, folder, request.script) {
        Ok(text) => match trim_answer(alloc, &text, request.cert, folder, request.new) {
            Ok((status, lines)) => print(out, &lines, status),
            Err(TrimStop::Unread) => print_stop(alloc, request.cert, ReadStop::Fault, out),
            Err(TrimStop::Unwritten) => Status::WriteFault,
            Err(TrimStop::OutOfMemory) => Status::OutOfMemory,
        },
        Err(stop) => print_stop(alloc, request.script, stop, out),
    }
}
