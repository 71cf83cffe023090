//! What a box begins with.
ghost use Rattle.std.specs.Prelude.{◌≡◌, ◌<◌, ◌≤◌, ◌+◌, ◌^◌, [], None, Some, IfOk, length};
ghost use Rattle.std.specs.Prelude.{slice_get};
ghost use Rattle.facts.specs.declared.fact.Fact.{Fact as Claim};
ghost use Rattle.facts.specs.declared.fact.Fact.TheVariants as fact;
ghost use Rattle.derivation.specs.Known.{IsGiven};
ghost use Rattle.derivation.specs.Rounds.{Improves};
ghost use Rattle.derivation.specs.Begun.{IsGathered, FirstLines};
ghost use Rattle.saturate.specs.Universes.{setting_of};
ghost use Rattle.box_trace.specs.Tables.{known_at, HasRows};
ghost use Rattle.box_trace.specs.Boxes.{BeginsRoot, BeginsBelow};
ghost use Rattle.box_trace.specs.Rounds.{BeginsBy, BeginsRootBy, IsStepIn, most_given};

use crate::known::Known;
use crate::log::{Log, Source};
use cert_checker::Given;
use facts::{Fact, slot};
use fx_model::{ExprId, Node};
use interval::Interval;
use rule_universe::Universe;
use std::alloc::{AllocError, Global};

// The hypothesis with this number.
fn hypothesis(uni: &Universe, k: usize) -> Fact
    requires { k < length uni.now.hypotheses }
    ensures { slice_get uni.now.hypotheses k ≡ Some result }
{
    uni.hyps()[k]
}

// A log of no steps.
fn begin(alloc: Global, first: u64, known: Known) -> Log
    ensures first { result.first ≡ first }
    ensures steps { result.steps.items ≡ [] }
    ensures known { result.known ≡ known }
{
    Log {
        first,
        steps: Vec::new(alloc),
        known,
    }
}

/// The root begins with the hypotheses, and that each variable has a value.
pub(crate) fn root_start(alloc: Global, uni: &Universe, first: u64) -> Result<Log, AllocError>
    requires few { length uni.now.hypotheses ≤ 65536 }
    requires room { first + length uni.now.hypotheses + length uni.now.nodes < 2 ^ 64 }
    ensures gathered { IfOk result (λ l. IsGathered (setting_of uni.now)
        (IsGiven (setting_of uni.now)) (FirstLines uni.now.nodes uni.now.hypotheses
        (length uni.now.nodes)) (known_at uni.now l.known)) }
    ensures begins { IfOk result (BeginsRoot uni.now first) }
    ensures gives { IfOk result (BeginsRootBy uni.now (most_given uni.now None) first) }
{
    uni.laws();
    let known = Known::blank(alloc, uni)?;
    let mut log = begin(alloc, first, known);
    for k in 0..uni.hyps().len() {
        let fact = hypothesis(uni, k);
        let place = uni.place(slot(&fact));
        let source = Source::given(alloc, Given::Hypothesis, k as u16);
        let _hypothesis = log.come(uni, fact, place, source)?;
    }
    let dag = uni.dag();
    for n in 0..dag.len() {
        if let Node::Var(_) = dag.node(ExprId(n)) {
            let line = Fact::Bnd(ExprId(n), Interval::whole());
            let origin = Source::given(alloc, Given::Variable, 0);
            let _variable = log.come(uni, line, n, origin)?;
        }
    }
    Ok(log)
}

/// A box below another begins with what is known there, and the piece that the last cut left of a
/// variable.
pub(crate) fn child_start(
    alloc: Global,
    uni: &Universe,
    piece: (ExprId, Interval),
    parent: &Known,
    first: u64,
) -> Result<Log, AllocError>
    requires variable { (piece.0).0 < length uni.now.nodes }
    requires rows { HasRows uni.now parent.now }
    requires room { first < 2 ^ 64 }
    ensures improves { IfOk result (λ l. (k : Claim) × Improves (known_at uni.now parent.now)
        (known_at uni.now l.known) (fact.Bnd piece.0 piece.1) k) }
    ensures begins { IfOk result (BeginsBelow uni.now (piece.0, piece.1) parent.now first) }
    ensures gives { IfOk result (BeginsBy uni.now (IsStepIn uni.now parent.now) 1 first) }
{
    uni.laws();
    let known = parent.copy(alloc)?;
    let mut log = begin(alloc, first, known);
    let source = Source::given(alloc, Given::Piece, 0);
    let _piece = log.come(uni, Fact::Bnd(piece.0, piece.1), (piece.0).0, source)?;
    Ok(log)
}
