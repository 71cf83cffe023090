//! What is wrong with steps and with ends of sections, if anything.
ghost use Rattle.std.specs.Prelude.{◌≡◌, ◌<◌, ◌↔◌, IsTrue, MatchOption, Some, length};
ghost use Rattle.facts.specs.declared.fact.Fact.TheVariants as fact;
ghost use Rattle.cert_checker.specs.Sources.{givens_of};
ghost use Rattle.cert_checker.specs.Faults.{IsJudged, JudgesStep, JudgesCut, JudgesLeaf};
ghost use Rattle.cert_checker.specs.Faults.{JudgesDead, AreSettled, IsFirstMissing, IsSettledBy};

use crate::conclude::{Sources, is_concluded, is_like, premise_facts, with_fact};
use crate::fault::{CheckFault, TakeStop};
use crate::open::OpenSteps;
use cert_bytes::StepRow;
use expr_dag::Dag;
use facts::Fact;
use fx_model::{ExprId, Node};
use goals::{Goal, settles};

fn refuse(fault: CheckFault) -> Result<(), TakeStop>
    ensures { result ≡ Err (TakeStop.Check fault) }
{
    Err(TakeStop::Check(fault))
}

/// Whether the step cites what it may, and is concluded. The facts of its premises are left in
/// `premises`.
pub fn judge_step(
    sources: &Sources<'_>,
    steps: &OpenSteps,
    row: &StepRow,
    premises: &mut Vec<Fact>,
) -> Result<(), TakeStop>
    ensures { IsJudged (JudgesStep (givens_of sources.now) steps.now.rows steps.now.next row.now)
        result }
{
    let bad_premise = CheckFault::BadPremise(steps.next());
    if !premise_facts(steps, row.premises.as_slice(), premises)? {
        return refuse(bad_premise);
    }
    let Some(with) = with_fact(steps, row.with) else {
        return refuse(bad_premise);
    };
    if !is_like(&row.fact, with) {
        return refuse(bad_premise);
    }
    if !is_concluded(sources, row, premises, with) {
        return refuse(CheckFault::BadStep(steps.next()));
    }
    Ok(())
}

/// Whether a section so many cuts deep may be cut along the expression.
pub fn judge_cut(nodes: &Dag, depth: usize, section: u64, var: ExprId) -> Result<(), TakeStop>
    ensures { IsJudged (JudgesCut nodes.now depth section var) result }
{
    match nodes.get(var) {
        Some(Node::Var(_)) if depth < 64 => Ok(()),
        _ => refuse(CheckFault::BadCut(section)),
    }
}

// Whether the step settles the goal.
fn is_settled(steps: &OpenSteps, goal: &Goal, step: u64) -> bool
    ensures { IsTrue result ↔ IsSettledBy steps.now.rows goal.now step }
{
    match steps.find(step) {
        Some(fact) => settles(goal, &fact),
        None => false,
    }
}

// The number of the first goal, from 0, that the steps don't settle, each in its place.
fn first_missing(steps: &OpenSteps, goals: &[Goal], refs: &[u64]) -> Option<u16>
    requires { length goals.now < 65535 }
    ensures first { MatchOption result (AreSettled steps.now.rows goals.now refs.now)
        (IsFirstMissing steps.now.rows goals.now refs.now) }
    ensures short { MatchOption result (Unit {0}) (λ k. k < 65535) }
{
    let partners = goals.len().min(refs.len());
    for k in 0..partners {
        if !is_settled(steps, &goals[k], refs[k]) {
            return Some(k as u16);
        }
    }
    if goals.len() == refs.len() {
        None
    } else {
        Some(partners as u16)
    }
}

/// Whether the steps settle the goals, each in its place.
pub fn judge_leaf(
    steps: &OpenSteps,
    goals: &[Goal],
    section: u64,
    refs: &[u64],
) -> Result<(), TakeStop>
    requires { length goals.now < 65535 }
    ensures { IsJudged (JudgesLeaf steps.now.rows goals.now section refs.now) result }
{
    match first_missing(steps, goals, refs) {
        None => Ok(()),
        Some(goal) => refuse(CheckFault::GoalMissing(section, goal + 1)),
    }
}

/// Whether the step leaves no assignment.
pub fn judge_dead(steps: &OpenSteps, section: u64, step: u64) -> Result<(), TakeStop>
    ensures { IsJudged (JudgesDead steps.now.rows section step) result }
{
    match steps.find(step) {
        Some(Fact::Void) => Ok(()),
        _ => refuse(CheckFault::GoalMissing(section, 0)),
    }
}
