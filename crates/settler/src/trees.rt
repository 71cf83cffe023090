//! The answer of the tree of a plan's boxes.
ghost use Rattle.std.specs.Prelude.{◌≡◌, IfOk};
ghost use Rattle.proof_options.specs.Ranges.{AreAllowed};
ghost use Rattle.box_tree.specs.Plans.{cut_at};
ghost use Rattle.bisect.specs.Trees.{tree_of};
ghost use Rattle.bisect.specs.Answers.{IsAnswer};
ghost use Rattle.settler.specs.Decided.{state_at};
ghost use Rattle.settler.specs.Frames.{Fits};

use crate::boxes::Boxes;
use crate::frame::Frame;
use bisect::{Outcome, run_alone};
use box_tree::Plan;
use box_workers::run;
use fx_edge::Gate;
use proof_options::Options;
use rule_universe::Universe;
use std::alloc::{AllocError, Global};
use std::marker::Brand;
use std::sync::Wait;
use std::thread::Threads;

// The answer of a frame's tree by workers.
fn answer_in<F: Frame + Send + Sync, G: Gate, R: Threads + Wait + Sync>(
    rt: &R,
    alloc: Global,
    universe: &Universe,
    plan: &Plan,
    options: Options,
    gate: &G,
) -> Result<Outcome, AllocError>
    requires universe { universe.now ≡ F.universe }
    requires plan { plan.now ≡ F.plan }
    requires rounds { options.rounds ≡ F.rounds }
    requires fits { Fits F.universe F.plan }
    requires allowed { AreAllowed options }
    ensures { IfOk result (IsAnswer
        (tree_of (cut_at F.plan) (state_at F.universe F.plan F.rounds)) options.boxes) }
{
    let settler: Boxes<'_, F> = Boxes::new(universe, plan, options.rounds);
    run(rt, alloc, &settler, gate, plan, options)
}

// The answer of a frame's tree by this thread alone.
fn answer_in_alone<F: Frame + Send + Sync>(
    alloc: Global,
    universe: &Universe,
    plan: &Plan,
    options: Options,
) -> Result<Outcome, AllocError>
    requires universe { universe.now ≡ F.universe }
    requires plan { plan.now ≡ F.plan }
    requires rounds { options.rounds ≡ F.rounds }
    requires fits { Fits F.universe F.plan }
    ensures { IfOk result (IsAnswer
        (tree_of (cut_at F.plan) (state_at F.universe F.plan F.rounds)) options.boxes) }
{
    let settler: Boxes<'_, F> = Boxes::new(universe, plan, options.rounds);
    run_alone(alloc, &settler, plan, options.boxes)
}

// What the tree of the plan's boxes comes to under the options, by workers, each box settled over
// the universe.
pub(crate) fn answer_tree<G: Gate, R: Threads + Wait + Sync>(
    rt: &R,
    alloc: Global,
    universe: &Universe,
    plan: &Plan,
    options: Options,
    gate: &G,
) -> Result<Outcome, AllocError>
    requires fits { Fits universe.now plan.now }
    requires allowed { AreAllowed options }
    ensures { IfOk result (IsAnswer
        (tree_of (cut_at plan.now) (state_at universe.now plan.now options.rounds))
        options.boxes) }
{
    answer_in::<Brand, G, R>(rt, alloc, universe, plan, options, gate)
}

// The same by this thread alone.
pub(crate) fn answer_tree_alone(
    alloc: Global,
    universe: &Universe,
    plan: &Plan,
    options: Options,
) -> Result<Outcome, AllocError>
    requires { Fits universe.now plan.now }
    ensures { IfOk result (IsAnswer
        (tree_of (cut_at plan.now) (state_at universe.now plan.now options.rounds))
        options.boxes) }
{
    answer_in_alone::<Brand>(alloc, universe, plan, options)
}
