//! The steps of a box.
ghost use Rattle.std.specs.Prelude.{◌≡◌, ◌<◌, ◌≤◌, ◌+◌, ◌^◌, [], IfOk, IfSome, IsTrue, None};
ghost use Rattle.std.specs.Prelude.{length};
ghost use Rattle.derivation.specs.Known.{IsTableAt};
ghost use Rattle.saturate.specs.Universes.{setting_of};
ghost use Rattle.box_trace.specs.Tables.{known_at, HasRows};
ghost use Rattle.box_trace.specs.Rounds.{AreItsRounds, AreRoundsBelow, IsByRounds};
ghost use Rattle.box_trace.specs.Boxes.{IsSomeBox, IsOfUniverse, HasItsTable, IsTableBelow};
ghost use Rattle.box_trace.specs.Boxes.{AreRootSteps, AreStepsBelow, AreItsSteps, log_of};
ghost use Rattle.box_trace.specs.Boxes.{most_steps};

use crate::known::Known;
use crate::log::Log;
use crate::rounds::rounds;
use crate::starts::{child_start, root_start};
use crate::swept::swept;
use cert_bytes::StepRow;
use fx_model::ExprId;
use interval::Interval;
use rule_universe::Universe;
use saturate::rules_are_lawful;
use std::alloc::{AllocError, Global};

/// A box's own steps, in their order, and its best facts, each with the number of its step: the
/// box's own or an ancestor's.
#[derive(Drop)]
pub struct Traced {
    /// The steps.
    pub steps: Vec<StepRow>,
    /// The facts.
    pub known: Known,
}

// The log of the root.
fn trace_root(alloc: Global, uni: &Universe, height: u8, first: u64) -> Result<Log, AllocError>
    requires few { length uni.now.hypotheses ≤ 65536 }
    requires room { first + most_steps uni.now height < 2 ^ 64 }
    ensures table { IfOk result
        (λ l. IsTableAt (setting_of uni.now) height [] (known_at uni.now l.known)) }
    ensures rows { IfOk result (λ l. HasRows uni.now l.known) }
    ensures steps { IfOk result (AreRootSteps uni.now first) }
    ensures few { IfOk result (λ l. length l.steps.items ≤ most_steps uni.now height) }
    ensures rounds { IfOk result (λ l. AreItsRounds uni.now None height first l.steps.items) }
{
    uni.laws();
    rules_are_lawful();
    let log = root_start(alloc, uni, first)?;
    let done = rounds(alloc, uni, height, log, None)?;
    Ok(done)
}

// The expression whose interval alone is told to have changed, where the parent is closed.
fn changed_below(parent: &Known, x: ExprId) -> Option<ExprId>
    ensures { IfSome result (λ y. (y ≡ x) × IsTrue parent.now.closed) }
{
    if parent.closed { Some(x) } else { None }
}

// The log of a box below another.
fn trace_child(
    alloc: Global,
    uni: &Universe,
    piece: (ExprId, Interval),
    parent: &Known,
    height: u8,
    first: u64,
) -> Result<Log, AllocError>
    requires variable { (piece.0).0 < length uni.now.nodes }
    requires rows { HasRows uni.now parent.now }
    requires room { first + most_steps uni.now height < 2 ^ 64 }
    ensures table { IfOk result
        (λ l. IsTableBelow uni.now height (piece.0, piece.1) parent.now l.known) }
    ensures rows { IfOk result (λ l. HasRows uni.now l.known) }
    ensures steps { IfOk result (AreStepsBelow uni.now (piece.0, piece.1) parent.now first) }
    ensures few { IfOk result (λ l. length l.steps.items ≤ most_steps uni.now height) }
    ensures rounds { IfOk result (λ l.
        AreRoundsBelow uni.now parent.now height first l.steps.items) }
{
    uni.laws();
    rules_are_lawful();
    if parent.closed {
        let begun = child_start(alloc, uni, piece, parent, first)?;
        let by_sweep = swept(alloc, uni, piece.0, height, begun)?;
        if let Some(last) = by_sweep {
            return Ok(last);
        }
    }
    let log = child_start(alloc, uni, piece, parent, first)?;
    let changed = changed_below(parent, piece.0);
    let done = rounds(alloc, uni, height, log, changed)?;
    Ok(done)
}

// The log of a box.
fn log_at(
    alloc: Global,
    uni: &Universe,
    piece: Option<(ExprId, Interval)>,
    parent: Option<&Known>,
    height: u8,
    first: u64,
) -> Result<Log, AllocError>
    requires given { IsSomeBox uni.now height piece parent }
    requires places { IsOfUniverse uni.now piece parent }
    requires few { length uni.now.hypotheses ≤ 65536 }
    requires room { first + most_steps uni.now height < 2 ^ 64 }
    ensures table { IfOk result (λ l. HasItsTable uni.now height piece parent.entry l.known) }
    ensures steps { IfOk result (AreItsSteps uni.now piece parent.entry first) }
    ensures few { IfOk result (λ l. length l.steps.items ≤ most_steps uni.now height) }
    ensures rounds { IfOk result (λ l.
        AreItsRounds uni.now parent.entry height first l.steps.items) }
{
    match (piece, parent) {
        (Some(piece), Some(parent)) => trace_child(alloc, uni, piece, parent, height, first),
        _ => trace_root(alloc, uni, height, first),
    }
}

/// The steps by which a checker comes to the best facts of a box, numbered from `first` on. At the
/// root nothing is given; at any other box the piece that the last cut left and what is known at
/// the parent, for this universe and so many rounds. A hypothesis has a number of 16 bits.
pub fn trace(
    alloc: Global,
    uni: &Universe,
    piece: Option<(ExprId, Interval)>,
    parent: Option<&Known>,
    height: u8,
    first: u64,
) -> Result<Traced, AllocError>
    requires given { IsSomeBox uni.now height piece parent }
    requires places { IsOfUniverse uni.now piece parent }
    requires few { length uni.now.hypotheses ≤ 65536 }
    requires room { first + most_steps uni.now height < 2 ^ 64 }
    // The facts are the best that are known at the box, as those of `settle` are, each in the row
    // of its slot.
    ensures table { IfOk result (λ t. HasItsTable uni.now height piece parent.entry t.known) }
    // Wherever the box's section may stand, its steps are accepted, and each fact has its step
    // among them or the parent's.
    ensures steps { IfOk result
        (λ t. AreItsSteps uni.now piece parent.entry first (log_of first t)) }
    ensures few { IfOk result (λ t. length t.steps.items ≤ most_steps uni.now height) }
    // First come the steps that are given: at most one for each hypothesis and variable at the
    // root, and below it the piece's. Then come at most 8,192 in each round, each by an instance
    // of the universe, from steps of the parent's facts and own ones from before itself; they
    // have four premises each, and beyond that together twice what the instances have.
    ensures rounds { IfOk result (IsByRounds uni.now parent.entry height first) }
{
    let log = log_at(alloc, uni, piece, parent, height, first)?;
    Ok(Traced {
        steps: log.steps,
        known: log.known,
    })
}
