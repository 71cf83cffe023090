// What `at` does.
ghost use Rattle.command_line.specs.At.{at_of};
ghost use Rattle.command_runs.specs.Runs.{run, seen};
ghost use Rattle.at_command.specs.Command.{IsAtRun};

use crate::laws::at_answers_are_one;
use crate::point::at_answer;
use command_line::AtRequest;
use command_runs::{Status, print, print_stop};
use fx_edge::{Folder, Sink};
use script_texts::read_script;
use std::alloc::Global;

/// Reads a script and then a point, and puts what the script's claims and assumed hints are at the
/// point; or the point's first fault, or the first place with a number that is too wide. The point
/// is read only where the script's text spells a script. Nothing is written.
pub fn run_at<F: Folder, O: Sink>(
    alloc: Global,
    request: AtRequest<'_>,
    folder: &mut F,
    out: &mut O,
) -> Status
    // Each status comes only with its lines; where all that is read is told, that status comes
    // which has them.
    ensures run { IsAtRun (at_of request.entry)
        (run (seen F.Folder O.Sink folder.old out.old) (seen F.Folder O.Sink folder.new out.new)
        result) }
{
    at_answers_are_one();
    match read_script(alloc, folder, request.script) {
        Ok(text) => match at_answer(alloc, &text, request.point, folder) {
            Ok((status, lines)) => print(out, &lines, status),
            Err(stop) => print_stop(alloc, request.point, stop, out),
        },
        Err(stop) => print_stop(alloc, request.script, stop, out),
    }
}
