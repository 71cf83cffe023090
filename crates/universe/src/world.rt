//! The universe of a script.

ghost use Rattle.std.specs.Prelude.{◌≡◌, [], List, Err, IfOk, OnOk, OnErr};
ghost use Rattle.std.specs.List.{AllByRecursion};
ghost use Rattle.script_claims.specs.declared.claim.Claim.{Claim};
ghost use Rattle.script_claims.specs.Facts.{HasNormalBounds, facts_of};
ghost use Rattle.rule_universe.specs.Assumed.{assuming};
ghost use Rattle.universe.specs.Cases.{AreHypotheses};
ghost use Rattle.universe.specs.Universes.{IsUniverse, IsTooLarge};
ghost use Rattle.universe.specs.declared.world.UniverseFault.TheVariants as UniverseFault;

use crate::starts::starting_pairs;
use pair_closure::{Closure, ClosureFault, closure_of};
use rewrite_hints::rows_of;
use rule_instances::instances_of;
use rule_universe::Universe;
use script_claims::{Claim, facts_of, goals_of};
use script_grammar::Script;
use std::alloc::{AllocError, Global};

/// Why there is no universe.
#[derive(Clone, Copy, PartialEq, Eq, Debug)]
pub enum UniverseFault {
    /// There are more than 1,024 expressions.
    ExprLimit,
    /// There is no memory.
    OutOfMemory,
}

impl From<AllocError> for UniverseFault {
    ghost from_gives = { λ e f. f ≡ UniverseFault.OutOfMemory };

    fn from(_: AllocError) -> UniverseFault {
        UniverseFault::OutOfMemory
    }
}

impl From<ClosureFault> for UniverseFault {
    ghost use Rattle.universe.specs.Faults.{handed_on};

    ghost from_gives = { λ e f. f ≡ handed_on e };

    fn from(fault: ClosureFault) -> UniverseFault {
        match fault {
            ClosureFault::TooMany => UniverseFault::ExprLimit,
            ClosureFault::OutOfMemory => UniverseFault::OutOfMemory,
        }
    }
}

// The same universe. Its instances are in order where a hint splits a variable, as no box is below
// the root elsewhere.
fn in_order(alloc: Global, universe: Universe, script: &Script<'_>) -> Result<Universe, AllocError>
    ensures { IfOk result (λ u. u ≡ universe) }
{
    let mut universe = universe;
    if !script.hints().order.as_slice().is_empty() {
        universe.put_in_order(alloc)?;
    }
    Ok(universe)
}

/// The universe of a script, in which nothing is assumed yet. `ExprLimit` exactly where it has more
/// than 1,024 expressions.
pub fn build(alloc: Global, script: &Script<'_>) -> Result<Universe, UniverseFault>
    ensures universe { IfOk result (IsUniverse script.now []) }
    // There is none exactly where it is too large, lack of memory aside.
    ensures few { IfOk result (λ _. ¬ IsTooLarge script.now) }
    ensures many { result ≡ Err UniverseFault.ExprLimit → IsTooLarge script.now }
{
    script.laws();
    let starts = starting_pairs(alloc, script)?;
    let Closure { nodes, pairs } = closure_of(alloc, script.nodes(), starts.as_slice())?;
    let rows = rows_of(alloc, script.nodes(), script.hints().rewrites.as_slice())?;
    let instances = instances_of(alloc, &nodes, &pairs, rows.as_slice())?;
    let goals = goals_of(alloc, script.goals())?;
    nodes.laws();
    pairs.laws();
    let universe = Universe::new(alloc, nodes, pairs, goals, rows, instances)?;
    let ordered = in_order(alloc, universe, script)?;
    Ok(ordered)
}

/// Assumes these claims of the script in its universe, in place of what was assumed: those of a
/// case. Lack of memory is the only error, and leaves the universe as it was.
pub fn assume(
    alloc: Global,
    universe: &mut Universe,
    script: &Script<'_>,
    claims: &[Claim],
) -> Result<(), AllocError>
    requires universe { (before : List Claim) × IsUniverse script.now before universe.old }
    requires claims { AreHypotheses script.now claims.now }
    requires normal { AllByRecursion HasNormalBounds claims.now }
    ensures assumed { OnOk result (universe.new ≡ assuming universe.old (facts_of claims.now)) }
    ensures universe { OnOk result (IsUniverse script.now claims.now universe.new) }
    ensures kept { OnErr result (universe.new ≡ universe.old) }
{
    script.laws();
    let facts = facts_of(alloc, claims)?;
    universe.assume(facts);
    Ok(())
}
