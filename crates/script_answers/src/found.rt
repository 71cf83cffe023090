// What is found of a script.
ghost use Rattle.std.specs.Prelude.{◌≡◌, ◌<◌, List, Some, IfOk, length, slice_get};
ghost use Rattle.script_claims.specs.declared.claim.Claim.{Claim};
ghost use Rattle.script_grammar.specs.Cases.{cases_of};
ghost use Rattle.universe.specs.Universes.{IsTooLarge};
ghost use Rattle.settler.specs.Answers.{ComesTo, options_from, plan_of};
ghost use Rattle.settler.specs.Held.{ProvedHolds};
ghost use Rattle.settler.specs.Jobs.{IsJob, IsSameJob};
ghost use Rattle.report.specs.Unproved as spec;
ghost use Rattle.script_answers.specs.Answers.{IsFound, ProvePrints};

use bisect::{OpenLeaf, Outcome, lines_of};
use command_runs::Status;
use fx_edge::{Gate, Items};
use goals::Line;
use report::runs::{boxes_text, expressions_text};
use report::unproved::unproved_text;
use script_grammar::{Script, script_or_refusal};
use settler::{Job, open_leaves_are_first, proved_lines_are_tight};
use std::alloc::{AllocError, Global};
use std::sync::Wait;
use std::thread::Threads;
use universe::UniverseFault;

/// What is found of a script.
#[derive(Drop)]
pub enum Found {
    /// All goals are settled: the number of boxes, and what is shown of each goal.
    Proved(u32, Items<Line>),
    /// There is another answer: its status, and its line.
    Stopped(Status, Vec<u8>),
}

// The line of an open leaf of the job.
fn open_line(alloc: Global, job: &Job<'_, '_>, leaf: OpenLeaf) -> Result<Vec<u8>, AllocError>
    requires job { IsJob job.now }
    requires case { leaf.case < length (cases_of job.now.script.now) }
    ensures { IfOk result (λ line. (claims : List Claim)
        × (slice_get (cases_of job.now.script.now) leaf.case ≡ Some claims)
        × (line.items ≡ spec.unproved_text job.now.script.now
        (plan_of job.now.script.now claims job.now.options.depth)
        (length (cases_of job.now.script.now)) leaf.case leaf.path leaf.goal)) }
{
    let number = usize::from(leaf.case);
    let case = &job.cases[number];
    unproved_text(alloc, job.script, &case.plan, job.cases.len(), &leaf)
}

// What is found of a job that comes to this. `Err` only where memory runs out.
fn found_of(alloc: Global, job: &Job<'_, '_>, outcome: Outcome) -> Result<Found, AllocError>
    requires job { IsJob job.now }
    requires comes { ComesTo job.now.script.now (options_from job.now.options) outcome }
    requires holds { ProvedHolds job.now.script.now (options_from job.now.options) }
    ensures { IfOk result (IsFound (options_from job.now.options) job.now.script.now) }
{
    job.script.laws();
    script_or_refusal();
    proved_lines_are_tight();
    open_leaves_are_first();
    match outcome {
        Outcome::BoxLimit => {
            let text = boxes_text(alloc, job.options.boxes)?;
            Ok(Found::Stopped(Status::Limit, text))
        }
        Outcome::Unproved { leaf, .. } => {
            let text = open_line(alloc, job, leaf)?;
            Ok(Found::Stopped(Status::Unproved, text))
        }
        Outcome::Leaves { boxes, leaves } => {
            let lines = lines_of(alloc, leaves.as_slice(), job.script.goals().len())?;
            Ok(Found::Proved(boxes, lines))
        }
    }
}

/// What is found of a job, by as many workers as its options say. It stays the same job, also where
/// memory runs out, which is the only error. It may wait.
pub fn prove_job<G: Gate, R: Threads + Wait + Sync>(
    rt: &R,
    alloc: Global,
    job: &mut Job<'_, '_>,
    gate: &G,
) -> Result<Found, AllocError>
    requires { IsJob job.old }
    ensures found { IfOk result (IsFound (options_from job.old.options) job.old.script.now) }
    ensures job { IsJob job.new }
    ensures same { IsSameJob job.old job.new }
{
    let outcome = job.answer(rt, alloc, gate)?;
    found_of(alloc, job, outcome)
}

/// The same by this thread alone: it calls no gate, and waits for nobody.
pub fn prove_job_alone(alloc: Global, job: &mut Job<'_, '_>) -> Result<Found, AllocError>
    requires { IsJob job.old }
    ensures found { IfOk result (IsFound (options_from job.old.options) job.old.script.now) }
    ensures job { IsJob job.new }
    ensures same { IsSameJob job.old job.new }
{
    let outcome = job.answer_alone(alloc)?;
    found_of(alloc, job, outcome)
}

/// The line of a script that has no universe, under any options. `Err` only where memory runs out.
pub fn unbuilt_line(
    alloc: Global,
    script: &Script<'_>,
    fault: UniverseFault,
) -> Result<Vec<u8>, AllocError>
    requires { fault ≡ UniverseFault.ExprLimit → IsTooLarge script.now }
    ensures { IfOk result (λ line.
        (o : _) → ProvePrints o script.now.text Status.Limit line.items) }
{
    script.laws();
    match fault {
        UniverseFault::ExprLimit => expressions_text().to_vec(alloc),
        UniverseFault::OutOfMemory => Err(AllocError),
    }
}
