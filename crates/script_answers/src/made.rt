// The status and the lines for the made script.
ghost use Rattle.std.specs.Prelude.{◌≡◌, IfOk};
ghost use Rattle.script_judge.specs.declared.refusal.Refusal.{Refusal};
ghost use Rattle.script_grammar.specs.Spells.{IsRefused};
ghost use Rattle.made_script.specs.Script.{script_text};
ghost use Rattle.settler.specs.Answers.{options_from};
ghost use Rattle.settler.specs.Jobs.{IsJob};
ghost use Rattle.script_answers.specs.Answers.{IsFound, MadePrints, first_line, made_options};

use crate::found::{Found, prove_job, unbuilt_line};
use command_runs::Status;
use fx_edge::Gate;
use goals::Line;
use made_script::{made_options, made_script};
use report::proved::made_text;
use script_grammar::{ParseStop, Script, parse};
use script_texts::refused_line;
use settler::Job;
use std::alloc::{AllocError, Global};
use std::sync::Wait;
use std::thread::Threads;

// The first line.
fn first_line(lines: &[Line]) -> Line
    ensures { result ≡ first_line lines.now }
{
    match lines {
        [] => Line::None,
        [line, ..] => *line,
    }
}

// The status and the lines for what was found of the made script of degree n.
#[tactic(auto, using(crate::proofs::MadeText::made_stopped, crate::proofs::MadeText::made_proved))]
fn made_lines(
    alloc: Global,
    n: u8,
    script: &Script<'_>,
    found: Found,
) -> Result<(Status, Vec<u8>), AllocError>
    requires text { script.now.text ≡ script_text n }
    requires found { IsFound made_options script.now found }
    ensures { IfOk result (λ r. MadePrints n r.0 r.1.items) }
{
    match found {
        Found::Stopped(status, lines) => Ok((status, lines)),
        Found::Proved(boxes, shown) => {
            let line = made_text(alloc, n, boxes, first_line(shown.as_slice()))?;
            Ok((Status::Answered, line))
        }
    }
}

// The status and the lines for a made script whose text gives none. `Err` only where memory runs
// out.
fn made_unread(
    alloc: Global,
    n: u8,
    text: &[u8],
    stop: ParseStop,
) -> Result<(Status, Vec<u8>), AllocError>
    requires text { text.now ≡ script_text n }
    requires refused { (r : Refusal) → stop ≡ ParseStop.Refused r → IsRefused text.now r }
    ensures { IfOk result (λ r. MadePrints n r.0 r.1.items) }
{
    let line = refused_line(alloc, text, stop)?;
    Ok((Status::Script, line))
}

// What is answered to the job of the made script.
fn made_job_answer<G: Gate, R: Threads + Wait + Sync>(
    rt: &R,
    alloc: Global,
    n: u8,
    job: &mut Job<'_, '_>,
    gate: &G,
) -> Result<(Status, Vec<u8>), AllocError>
    requires job { IsJob job.old }
    requires text { job.old.script.now.text ≡ script_text n }
    requires options { options_from job.old.options ≡ made_options }
    ensures { IfOk result (λ r. MadePrints n r.0 r.1.items) }
{
    let found = prove_job(rt, alloc, job, gate)?;
    made_lines(alloc, n, job.script, found)
}

// What is answered to the made script, which was read.
fn made_script_answer<G: Gate, R: Threads + Wait + Sync>(
    rt: &R,
    alloc: Global,
    n: u8,
    script: &Script<'_>,
    gate: &G,
) -> Result<(Status, Vec<u8>), AllocError>
    requires { script.now.text ≡ script_text n }
    ensures { IfOk result (λ r. MadePrints n r.0 r.1.items) }
{
    match Job::new(alloc, script, made_options()) {
        Ok(mut job) => made_job_answer(rt, alloc, n, &mut job, gate),
        Err(fault) => {
            let line = unbuilt_line(alloc, script, fault)?;
            Ok((Status::Limit, line))
        }
    }
}

// What is answered to the made script's text.
fn made_text_answer<G: Gate, R: Threads + Wait + Sync>(
    rt: &R,
    alloc: Global,
    n: u8,
    text: &[u8],
    gate: &G,
) -> Result<(Status, Vec<u8>), AllocError>
    requires { text.now ≡ script_text n }
    ensures { IfOk result (λ r. MadePrints n r.0 r.1.items) }
{
    match parse(alloc, text) {
        Ok(script) => made_script_answer(rt, alloc, n, &script, gate),
        Err(stop) => made_unread(alloc, n, text, stop),
    }
}

/// What is answered to the made script of degree n: the status and all lines. `Err` only where
/// memory runs out. It may wait.
pub fn made_answer<G: Gate, R: Threads + Wait + Sync>(
    rt: &R,
    alloc: Global,
    n: u8,
    gate: &G,
) -> Result<(Status, Vec<u8>), AllocError>
    ensures { IfOk result (λ r. MadePrints n r.0 r.1.items) }
{
    let text = made_script(alloc, n)?;
    made_text_answer(rt, alloc, n, &text, gate)
}
