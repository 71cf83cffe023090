// What `check` does.
ghost use Rattle.command_line.specs.Check.{check_of};
ghost use Rattle.command_runs.specs.Runs.{run, seen};
ghost use Rattle.check_command.specs.Command.{IsCheckRun};

use crate::check::check_answer;
use crate::laws::check_answers_are_one;
use command_line::CheckRequest;
use command_runs::{Status, print, print_stop};
use fx_edge::{Folder, Sink};
use script_texts::read_script;
use std::alloc::Global;

/// Reads a script and then a certificate of it, and puts the lines that it shows, where it is
/// accepted for the script; else its first fault. It is read only where the script's text spells a
/// script. Nothing is written.
pub fn run_check<F: Folder, O: Sink>(
    alloc: Global,
    request: CheckRequest<'_>,
    folder: &mut F,
    out: &mut O,
) -> Status
    ensures run { IsCheckRun (check_of request.entry)
        (run (seen F.Folder O.Sink folder.old out.old) (seen F.Folder O.Sink folder.new out.new)
        result) }
{
    check_answers_are_one();
    match read_script(alloc, folder, request.script) {
        Ok(text) => match check_answer(alloc, &text, request.cert, folder) {
            Ok((status, lines)) => print(out, &lines, status),
            Err(stop) => print_stop(alloc, request.cert, stop, out),
        },
        Err(stop) => print_stop(alloc, request.script, stop, out),
    }
}
