// The command.
ghost use Rattle.std.specs.Prelude.{IsErr, OnOk, OnErr, string_bytes};
ghost use Rattle.std.specs.Option.{option_map};
ghost use Rattle.command_line.specs.Fix.{fix_of};
ghost use Rattle.whole_texts.specs.OnlyWrites.{OnlyWrites};
ghost use Rattle.command_runs.specs.Fates.{Leaves, begun};
ghost use Rattle.command_runs.specs.Runs.{run, seen};
ghost use Rattle.fix_command.specs.Command.{IsFixRun, left_of};

use crate::turned::outcome_of;
use command_line::FixRequest;
use command_runs::{Status, print, print_stop};
use fixprog::turn::{MOST_BYTES, texts_are_one};
use fx_edge::{Failed, Folder, Sink};
use std::alloc::Global;
use whole_texts::{read_text, write_new};

// Makes the file new with the script, if there is one.
fn save<F: Folder>(folder: &mut F, name: &str, script: &Option<String>) -> Result<(), Failed>
    ensures ok { OnOk result (Leaves (left_of (option_map string_bytes script.now))
        (F.told folder.old name.now) (F.told folder.new name.now)) }
    ensures err { OnErr result (Leaves (begun (left_of (option_map string_bytes script.now)))
        (F.told folder.old name.now) (F.told folder.new name.now)) }
    ensures only_writes { OnlyWrites F.Folder name.now folder.old folder.new (IsErr result) }
{
    match script {
        Some(script) => write_new(folder, name, script.as_bytes()),
        None => Ok(()),
    }
}

/// Reads the program's text, at most one byte more than a program may have. Where it spells a
/// program, the script's file is made new and gets its script, and then a line is put with the
/// numbers of steps and outputs. Else the line is the text's first fault, or that of a read fault,
/// and nothing is written.
pub fn run_fix<F: Folder, O: Sink>(
    alloc: Global,
    request: FixRequest<'_>,
    folder: &mut F,
    out: &mut O,
) -> Status
    // Each status comes only with its line and what it leaves in the script's file; where the
    // program's text is told, that status comes which has them.
    ensures run { IsFixRun (fix_of request.entry)
        (run (seen F.Folder O.Sink folder.old out.old) (seen F.Folder O.Sink folder.new out.new)
        result) }
{
    texts_are_one();
    let text = match read_text(alloc, folder, request.program, MOST_BYTES + 1) {
        Ok(text) => text,
        Err(stop) => return print_stop(alloc, request.program, stop, out),
    };
    let Ok(outcome) = outcome_of(alloc, &text) else {
        return Status::OutOfMemory;
    };
    match save(folder, request.script, &outcome.script) {
        Ok(()) => print(out, &outcome.line, outcome.status),
        Err(Failed) => Status::WriteFault,
    }
}
