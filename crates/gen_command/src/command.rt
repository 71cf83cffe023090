// What `gen` does.
ghost use Rattle.std.specs.Prelude.{ℕ};
ghost use Rattle.command_runs.specs.Runs.{Told, run, seen_beside};
ghost use Rattle.gen_command.specs.Command.{IsGenRun};

use command_runs::{Status, print};
use fx_edge::{Gate, Sink};
use script_answers::{made_answer, made_answers_are_one};
use std::alloc::Global;
use std::sync::Wait;
use std::thread::Threads;

/// Proves the made script of degree `n`, and puts the line of its boxes and its goal's interval, or
/// another answer's lines. Nothing is read or written. It may wait.
pub fn run_gen<O: Sink, G: Gate, R: Threads + Wait + Sync>(
    rt: &R,
    alloc: Global,
    n: u8,
    out: &mut O,
    gate: &G,
) -> Status
    // So it is with any folder, since none is touched.
    ensures run { (told : Told) (reads writes : ℕ) →
        IsGenRun n (run (seen_beside told reads writes O.Sink out.old)
        (seen_beside told reads writes O.Sink out.new) result) }
{
    made_answers_are_one();
    match made_answer(rt, alloc, n, gate) {
        Ok((status, lines)) => print(out, &lines, status),
        Err(_) => Status::OutOfMemory,
    }
}
