// The command.
ghost use Rattle.std.specs.Prelude.{◌≤◌, IfOk, length, map, string_bytes};
ghost use Rattle.fx_edge.specs.OnlyReads.{OnlyReads};
ghost use Rattle.fx_edge.specs.Outside.{Rose};
ghost use Rattle.command_line.specs.Batch.{AreInBatchRange, batch_of};
ghost use Rattle.command_runs.specs.Runs.{run, seen};
ghost use Rattle.proof_options.specs.Ranges.{AreAllowed};
ghost use Rattle.settler.specs.Answers.{options_from};
ghost use Rattle.batch_command.specs.Command.{IsBatchRun};
ghost use Rattle.batch_command.specs.Told.{Prints, ScriptsPrint};

use crate::job::answer_texts;
use crate::lines::{list_fault_line, print_answers};
use crate::read::{Texts, read_scripts};
use command_line::BatchRequest;
use command_runs::{Status, print, read_fault_line};
use fx_edge::{Folder, Gate, Sink};
use name_list::{ListStop, fronts_decide, list_faults_are_one, read_list};
use proof_options::Options;
use script_answers::text_answers_are_one;
use std::alloc::{AllocError, Global};
use std::sync::Wait;
use std::thread::Threads;
use whole_texts::{ReadStop, read_text};

/// How much of a list is read, in bytes: these decide.
const MOST: usize = 65_540;

// The status and all lines of the scripts of these names (1 to 64), each of which is read before
// any is proved. `Err` only where memory runs out.
fn prove_scripts<F: Folder, G: Gate, R: Threads + Wait + Sync>(
    rt: &R,
    alloc: Global,
    names: &[String],
    options: Options,
    folder: &mut F,
    gate: &G,
) -> Result<(Status, Vec<u8>), AllocError>
    requires some { 1 ≤ length names.now }
    requires few { length names.now ≤ 64 }
    requires allowed { AreAllowed options }
    ensures prints { IfOk result (λ r. ScriptsPrint
        (Rose (F.read_faults folder.old) (F.read_faults folder.new))
        (options_from options) (F.told folder.old) (map string_bytes names.now) r.0 r.1.items) }
    ensures only_reads { OnlyReads F.Folder folder.old folder.new ⊥ }
{
    match read_scripts(alloc, folder, names)? {
        Texts::Unread(line) => Ok((Status::ReadFault, line)),
        Texts::Read(texts) => {
            let answers = answer_texts(rt, alloc, &texts, options, gate)?;
            print_answers(alloc, names, &answers)
        }
    }
}

// The status and all lines. `Err` only where memory runs out.
fn batch<F: Folder, G: Gate, R: Threads + Wait + Sync>(
    rt: &R,
    alloc: Global,
    request: BatchRequest<'_>,
    folder: &mut F,
    gate: &G,
) -> Result<(Status, Vec<u8>), AllocError>
    requires { AreInBatchRange request }
    ensures prints { IfOk result (λ r.
        Prints (Rose (F.read_faults folder.old) (F.read_faults folder.new))
        (batch_of request.entry) (F.told folder.old) r.0 r.1.items) }
    ensures only_reads { OnlyReads F.Folder folder.old folder.new ⊥ }
{
    fronts_decide();
    let text = match read_text(alloc, folder, request.list, MOST) {
        Ok(text) => text,
        Err(ReadStop::Fault) => {
            return Ok((Status::ReadFault, read_fault_line(alloc, request.list)?));
        }
        Err(ReadStop::OutOfMemory) => return Err(AllocError),
    };
    match read_list(alloc, &text) {
        Ok(names) => prove_scripts(rt, alloc, &names, request.options, folder, gate),
        Err(ListStop::Fault(fault)) => Ok((Status::List, list_fault_line(alloc, fault)?)),
        Err(ListStop::OutOfMemory) => Err(AllocError),
    }
}

/// Reads a list of names, and puts for each name, in order, its line and what `prove` puts for its
/// script. All scripts are read before any is proved; workers prove them, each script by one of
/// them. The status is that of the first script whose status isn't `Answered`. A list that is at
/// fault is refused. Nothing is written. It may wait.
pub fn run_batch<F: Folder, O: Sink, G: Gate, R: Threads + Wait + Sync>(
    rt: &R,
    alloc: Global,
    request: BatchRequest<'_>,
    folder: &mut F,
    out: &mut O,
    gate: &G,
) -> Status
    requires { AreInBatchRange request }
    // Each status comes only with its lines; where all that is read is told, that status comes
    // which has them, whatever the workers' number and schedule.
    ensures run { IsBatchRun (batch_of request.entry)
        (run (seen F.Folder O.Sink folder.old out.old) (seen F.Folder O.Sink folder.new out.new)
        result) }
{
    list_faults_are_one();
    text_answers_are_one();
    match batch(rt, alloc, request, folder, gate) {
        Ok((status, lines)) => print(out, &lines, status),
        Err(AllocError) => Status::OutOfMemory,
    }
}
