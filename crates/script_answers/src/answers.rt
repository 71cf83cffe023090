// The status and the lines for a text.
ghost use Rattle.std.specs.Prelude.{◌≡◌, IfOk};
ghost use Rattle.proof_options.specs.Ranges.{AreAllowed};
ghost use Rattle.settler.specs.Answers.{options_from};
ghost use Rattle.settler.specs.Jobs.{IsJob};
ghost use Rattle.report.specs.Proved as spec;
ghost use Rattle.script_answers.specs.Answers.{IsFound, ProvePrints};

use crate::found::{Found, prove_job_alone, unbuilt_line};
use command_runs::Status;
use facts::HintMark;
use goals::Line;
use proof_options::Options;
use report::proved::answer_text;
use script_grammar::{Script, parse};
use script_texts::refused_line;
use settler::Job;
use std::alloc::{AllocError, Global};
use universe::classify;

/// The lines of a script that is proved, where this is shown of its goals and its hints have these
/// marks. `Err` only where memory runs out.
pub fn proved_lines(
    alloc: Global,
    script: &Script<'_>,
    shown: &[Line],
    marks: &[HintMark],
) -> Result<Vec<u8>, AllocError>
    ensures { IfOk result (λ lines. lines.items ≡ spec.answer_text script.now.text
        script.now.tokens script.now.spans shown.now marks.now) }
{
    answer_text(
        alloc,
        script.text(),
        script.tokens(),
        script.goal_spans(),
        shown,
        marks,
    )
}

// The status and the lines for what was found of the script under some options. `Err` only where
// memory runs out.
fn lines_for(
    alloc: Global,
    script: &Script<'_>,
    found: Found,
) -> Result<(Status, Vec<u8>), AllocError>
    ensures { IfOk result (λ r.
        (o : _) → IsFound o script.now found → ProvePrints o script.now.text r.0 r.1.items) }
{
    match found {
        Found::Stopped(status, lines) => Ok((status, lines)),
        Found::Proved(_, shown) => {
            let marks = classify(alloc, script)?;
            let lines = proved_lines(alloc, script, shown.as_slice(), &marks)?;
            Ok((Status::Answered, lines))
        }
    }
}

// What is answered to a job, by this thread alone.
fn job_answer(alloc: Global, job: &mut Job<'_, '_>) -> Result<(Status, Vec<u8>), AllocError>
    requires { IsJob job.old }
    ensures { IfOk result (λ r.
        ProvePrints (options_from job.old.options) job.old.script.now.text r.0 r.1.items) }
{
    let found = prove_job_alone(alloc, job)?;
    lines_for(alloc, job.script, found)
}

// What is answered to a script. Who calls it has the script, and does nothing else with it: a
// function that owns a script has a long proof of its own.
fn script_answer(
    alloc: Global,
    script: &Script<'_>,
    options: Options,
) -> Result<(Status, Vec<u8>), AllocError>
    requires { AreAllowed options }
    ensures { IfOk result (λ r. ProvePrints (options_from options) script.now.text r.0 r.1.items) }
{
    match Job::new(alloc, script, options) {
        Ok(mut job) => job_answer(alloc, &mut job),
        Err(fault) => Ok((Status::Limit, unbuilt_line(alloc, script, fault)?)),
    }
}

/// What is answered to a text under the options, by this thread alone: the status and all lines. It
/// calls no gate, and waits for nobody. `Err` only where memory runs out.
pub fn answer(alloc: Global, text: &[u8], options: Options) -> Result<(Status, Vec<u8>), AllocError>
    requires { AreAllowed options }
    ensures { IfOk result (λ r. ProvePrints (options_from options) text.now r.0 r.1.items) }
{
    match parse(alloc, text) {
        Ok(script) => script_answer(alloc, &script, options),
        Err(stop) => Ok((Status::Script, refused_line(alloc, text, stop)?)),
    }
}
