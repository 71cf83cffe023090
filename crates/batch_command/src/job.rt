// Scripts by number, over one set of workers.
ghost use Rattle.std.specs.Prelude.{◌≤◌, IfOk, length};
ghost use Rattle.proof_options.specs.Ranges.{AreAllowed};
ghost use Rattle.settler.specs.Answers.{options_from};
ghost use Rattle.batch_command.specs.Told.{AreAnswers};

use command_runs::Status;
use fx_edge::Gate;
use job_workers::{Job, run_jobs};
use proof_options::Options;
use script_answers::answer;
use std::alloc::{AllocError, Global};
use std::sync::Wait;
use std::thread::Threads;

/// The texts of scripts, each to be answered under these options.
#[derive(Drop)]
struct Scripts<'a> {
    alloc: Global,
    texts: &'a [Vec<u8>],
    options: Options,
    ghost allowed: { AreAllowed options },
}

impl<'a> Job for Scripts<'a> {
    ghost use Rattle.std.specs.Prelude.{IfSome, slice_get};
    ghost use Rattle.settler.specs.Answers.{options_from};
    ghost use Rattle.script_answers.specs.Answers.{ProvePrints};

    type Out = (Status, Vec<u8>);

    // an answer to the text in this place
    ghost is_result = { λ job n answer. IfSome (slice_get job.texts.now n)
        (λ text. ProvePrints (options_from job.options) text.items answer.0 answer.1.items) };

    fn size(&self, number: u16) -> usize {
        let Some(text) = self.texts.get(usize::from(number)) else {
            return 0;
        };
        text.len()
    }

    fn run(&self, number: u16) -> Result<(Status, Vec<u8>), AllocError> {
        match self.texts.get(usize::from(number)) {
            Some(text) => answer(self.alloc, text, self.options),
            None => Err(AllocError),
        }
    }
}

/// The answers to the texts (1 to 64), in their order: each by one worker alone, of so many as the
/// options say. A worker calls the gate before and after each. `Err` only where memory runs out. It
/// may wait.
pub fn answer_texts<G: Gate, R: Threads + Wait + Sync>(
    rt: &R,
    alloc: Global,
    texts: &[Vec<u8>],
    options: Options,
    gate: &G,
) -> Result<Vec<(Status, Vec<u8>)>, AllocError>
    requires some { 1 ≤ length texts.now }
    requires few { length texts.now ≤ 64 }
    requires allowed { AreAllowed options }
    ensures { IfOk result (λ answers. AreAnswers (options_from options) texts.now answers.items) }
{
    let job = Scripts {
        alloc,
        texts,
        options,
    };
    run_jobs(rt, alloc, &job, gate, texts.len() as u16, options.workers)
}
