//! Whether a step is concluded.
ghost use Rattle.std.specs.Prelude.{◌≡◌, ◌↔◌, IsTrue, Some, None, MatchOption, Option, IfOk};
ghost use Rattle.fx_model.specs.declared.Node.{Node};
ghost use Rattle.facts.specs.declared.fact.Fact.TheVariants as fact_of;
ghost use Rattle.cert_checker.specs.Steps as spec;
ghost use Rattle.cert_checker.specs.Steps.{Concludes, IsMetWith, IsLike, Found};
ghost use Rattle.cert_checker.specs.Sources.{givens_of};

use crate::cuts::Cuts;
use crate::given::Given;
use crate::open::OpenSteps;
use crate::subject::Subject;
use cert_bytes::StepRow;
use expr_dag::Dag;
use facts::{Fact, Slot, meet, slot, stronger};
use fx_model::{ExprId, Node};
use interval::Interval;
use std::alloc::AllocError;
use theorem_list::conclude;

/// What rules draw on beside premises.
#[derive(Clone, Copy)]
pub struct Sources<'a> {
    /// What the script says: the facts of its cases, and the rows of its hints.
    pub subject: &'a Subject,
    /// The number of the case that is open, from 0.
    pub case: usize,
    /// The nodes so far.
    pub nodes: &'a Dag,
    /// The cuts around the open section.
    pub cuts: &'a Cuts,
}

// Whether each node of the fact is in the list.
fn are_known(nodes: &Dag, fact: &Fact) -> bool
    ensures { IsTrue result ↔ spec.AreKnown nodes.now fact.now }
{
    match *fact {
        Fact::Bnd(x, _) => nodes.knows(x),
        Fact::Abs(x, _) => nodes.knows(x),
        Fact::Rel(x, y, _) => nodes.knows(x) && nodes.knows(y),
        Fact::Fix(x, _) => nodes.knows(x),
        Fact::Nzr(x) => nodes.knows(x),
        Fact::Void => true,
    }
}

// The whole line for an expression, where it is a variable.
fn variable_fact(nodes: &Dag, x: ExprId) -> Option<Fact>
    ensures { result ≡ spec.variable_fact x (spec.node_of nodes.now x) }
{
    match nodes.get(x) {
        Some(Node::Var(_)) => Some(Fact::Bnd(x, Interval::whole())),
        _ => None,
    }
}

fn or_else(first: Option<Fact>, second: Option<Fact>) -> Option<Fact>
    ensures { result ≡ spec.or_else first second }
{
    match first {
        Some(fact) => Some(fact),
        None => second,
    }
}

// The whole line for the first variable of the fact.
fn whole_line(nodes: &Dag, fact: &Fact) -> Option<Fact>
    ensures { result ≡ spec.whole_line nodes.now fact.now }
{
    match *fact {
        Fact::Bnd(x, _) => variable_fact(nodes, x),
        Fact::Abs(x, _) => variable_fact(nodes, x),
        Fact::Rel(x, y, _) => or_else(variable_fact(nodes, x), variable_fact(nodes, y)),
        Fact::Fix(x, _) => variable_fact(nodes, x),
        Fact::Nzr(x) => variable_fact(nodes, x),
        Fact::Void => None,
    }
}

// The slot that the rule's conclusion is wanted on.
fn target_of(fact: &Fact, with: Option<Fact>) -> Slot
    ensures { result ≡ spec.target_of fact.now with }
{
    match (*fact, with) {
        (Fact::Void, Some(other)) => slot(&other),
        _ => slot(fact),
    }
}

fn without(premises: &[Fact], fact: Option<Fact>) -> Option<Fact>
    ensures { result ≡ spec.without premises.now fact }
{
    if premises.is_empty() { fact } else { None }
}

fn only_for(arg: u16, fact: Option<Fact>) -> Option<Fact>
    ensures { result ≡ spec.only_for arg fact }
{
    if arg == 0 { fact } else { None }
}

// What the step's rule gives.
fn gives(
    sources: &Sources<'_>,
    row: &StepRow,
    premises: &[Fact],
    with: Option<Fact>,
) -> Option<Fact>
    ensures { result ≡ spec.gives (givens_of sources.now) row.now premises.now with }
{
    let Sources {
        subject,
        case,
        nodes,
        cuts,
    } = *sources;
    match Given::of(row.rule) {
        Some(Given::Hypothesis) => without(premises, hypothesis(subject.facts(case), row.arg)),
        Some(Given::Variable) => without(premises, only_for(row.arg, whole_line(nodes, &row.fact))),
        Some(Given::Piece) => without(premises, only_for(row.arg, cuts.open_piece())),
        None => conclude(
            nodes,
            subject.hints.as_slice(),
            row.rule,
            row.arg,
            premises,
            target_of(&row.fact, with),
        ),
    }
}

fn hypothesis(facts: &[Fact], arg: u16) -> Option<Fact>
    ensures { result ≡ spec.fact_of facts.now arg }
{
    facts.get(usize::from(arg)).copied()
}

// Whether what is given is as strong as the fact.
fn is_given(given: Option<Fact>, fact: &Fact) -> bool
    ensures { IsTrue result ↔ spec.IsEnough given fact.now }
{
    match given {
        Some(conclusion) => stronger(&conclusion, fact),
        None => false,
    }
}

fn met_with(given: Option<Fact>, with: Option<Fact>) -> Option<Fact>
    ensures { result ≡ spec.met_with given with }
{
    match (given, with) {
        (None, _) => None,
        (Some(fact), None) => Some(fact),
        (Some(fact), Some(other)) => meet(&fact, &other),
    }
}

// Whether what is given, met with the cited fact, is as strong as the stated one. The meet is made
// only where what is given isn't as strong alone.
fn is_enough(given: Option<Fact>, with: Option<Fact>, fact: &Fact) -> bool
    requires { IsLike fact.now with }
    ensures { IsTrue result ↔ spec.IsEnough (spec.met_with given with) fact.now }
{
    is_given(given, fact) || is_given(met_with(given, with), fact)
}

/// Whether the stated fact is no stronger than what the rule gives from these premises, met with
/// the fact that is cited for that.
pub fn is_concluded(
    sources: &Sources<'_>,
    row: &StepRow,
    premises: &[Fact],
    with: Option<Fact>,
) -> bool
    requires { IsLike row.now.fact with }
    ensures { IsTrue result
        ↔ Concludes (givens_of sources.now) row.now premises.now with }
{
    if !are_known(sources.nodes, &row.fact) {
        return false;
    }
    let given = gives(sources, row, premises, with);
    is_enough(given, with, &row.fact)
}

/// The facts of the premises, one after the other; false exactly where one of them can't be cited.
pub fn premise_facts(
    steps: &OpenSteps,
    numbers: &[u64],
    premises: &mut Vec<Fact>,
) -> Result<bool, AllocError>
    ensures { IfOk result (Found (spec.step_facts steps.now.rows numbers.now) premises.new.items) }
{
    premises.clear();
    let mut left = numbers;
    while let [number, later @ ..] = left {
        let Some(fact) = steps.find(*number) else {
            return Ok(false);
        };
        premises.push(fact)?;
        left = later;
    }
    Ok(true)
}

fn is_void(fact: &Fact) -> bool
    ensures { IsTrue result ↔ (fact.now ≡ fact_of.Void) }
{
    matches!(*fact, Fact::Void)
}

/// Whether the stated fact and the one that it is met with are on one slot, or one is VOID.
pub fn is_like(fact: &Fact, with: Option<Fact>) -> bool
    ensures { IsTrue result ↔ IsLike fact.now with }
{
    match with {
        None => true,
        Some(other) => is_void(fact) || is_void(&other) || slot(fact) == slot(&other),
    }
}

/// What the step is met with, if anything; None where it can't be cited.
pub fn with_fact(steps: &OpenSteps, with: Option<u64>) -> Option<Option<Fact>>
    ensures { MatchOption result ((f : Option Fact) → ¬ IsMetWith steps.now.rows with f)
        (λ f. IsMetWith steps.now.rows with f) }
{
    match with {
        None => Some(None),
        Some(number) => match steps.find(number) {
            None => None,
            Some(fact) => Some(Some(fact)),
        },
    }
}
