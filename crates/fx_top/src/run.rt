// The top call.
ghost use Rattle.std.specs.Prelude.{map, string_bytes, Some};
ghost use Rattle.command_runs.specs.Runs.{run, seen};
ghost use Rattle.fx_top.specs.Commands.{IsSound, command_from, reading};
ghost use Rattle.fx_top.specs.Run.{IsRun};

use crate::wanted::{Invocation, command_of};
use at_command::run_at;
use batch_command::run_batch;
use check_command::run_check;
use command_line::{WordsError, usage};
use command_runs::{Status, print};
use fix_command::run_fix;
use fx_edge::{Folder, Gate, Sink};
use gen_command::run_gen;
use prove_command::run_prove;
use std::alloc::Global;
use std::sync::Wait;
use std::thread::Threads;
use trim_command::run_trim;
use upgrade_command::run_upgrade;

// Runs a command.
fn run_wanted<R: Threads + Wait + Sync, F: Folder, O: Sink, G: Gate>(
    rt: &R,
    alloc: Global,
    wanted: Invocation<'_>,
    folder: &mut F,
    out: &mut O,
    gate: &G,
) -> Status
    requires { IsSound wanted }
    ensures { IsRun (Some (command_from wanted.entry))
        (run (seen F.Folder O.Sink folder.old out.old) (seen F.Folder O.Sink folder.new out.new)
        result) }
{
    match wanted {
        Invocation::Prove(request) => run_prove(rt, alloc, request, folder, out, gate),
        Invocation::Check(request) => run_check(alloc, request, folder, out),
        Invocation::Gen(n) => run_gen(rt, alloc, n, out, gate),
        Invocation::Upgrade(request) => run_upgrade(alloc, request, folder, out),
        Invocation::Fix(request) => run_fix(alloc, request, folder, out),
        Invocation::At(request) => run_at(alloc, request, folder, out),
        Invocation::Trim(request) => run_trim(alloc, request, folder, out),
        Invocation::Batch(request) => run_batch(rt, alloc, request, folder, out, gate),
    }
}

/// Runs the program on the words of its command line, without the program's name. `prove SCRIPT`
/// reads the script's text from the folder, proves its goals, and puts the answer's lines; with
/// `--cert FILE`, where all goals are proved, it first makes the file new and writes a certificate
/// of the answer to it. `gen N` proves the made script of degree N. Workers, as many as the words
/// say, settle the boxes; each calls the gate before and after a box. `check SCRIPT CERT` reads the
/// script and then the certificate, and puts the lines that it shows, where it is accepted.
/// `upgrade CERT NEW` rewrites a certificate in version 2. `fix PROGRAM SCRIPT` turns a fixed-point
/// program into the script that says that no step wraps. `at SCRIPT POINT` evaluates a script
/// exactly at a point. `trim SCRIPT CERT NEW` checks a certificate and writes it without its unused
/// steps. `batch LIST` proves the scripts of a list, one a worker at a time. It may wait.
pub fn fx_run<R: Threads + Wait + Sync, F: Folder, O: Sink, G: Gate>(
    rt: &R,
    alloc: Global,
    words: &[String],
    folder: &mut F,
    out: &mut O,
    gate: &G,
) -> Status
    // Whatever the workers' schedule is, of which nothing is said: the run is one of the command
    // that the words name, by its own record (`IsRun`). Each status comes only with its defined
    // lines, which the sink took whole, and with its defined bytes in the file that the command
    // writes, which are there before the lines. A run that broke off put a front of such lines, and
    // left what the file held or a front of such bytes. Where the folder tells what is read, the
    // defined status comes, or else a fault of the outside or lack of memory. No other name's bytes
    // change.
    ensures run { IsRun (reading (map string_bytes words.now))
        (run (seen F.Folder O.Sink folder.old out.old) (seen F.Folder O.Sink folder.new out.new)
        result) }
{
    match command_of(alloc, words) {
        Ok(wanted) => run_wanted(rt, alloc, wanted, folder, out, gate),
        Err(WordsError::Usage) => print(out, usage(), Status::Usage),
        Err(WordsError::OutOfMemory) => Status::OutOfMemory,
    }
}
