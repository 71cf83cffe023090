//! The cases of a script, answered one after the other.
ghost use Rattle.std.specs.Prelude.{◌≤◌, ℕ, List, IfOk, length};
ghost use Rattle.script_claims.specs.declared.claim.Claim.{Claim};
ghost use Rattle.proof_options.specs.Ranges.{AreAllowed};
ghost use Rattle.universe.specs.Universes.{IsUniverse};
ghost use Rattle.box_tree.specs.Plans.{cut_at};
ghost use Rattle.bisect.specs.Trees.{tree_of};
ghost use Rattle.bisect.specs.Answers.{IsAnswer};
ghost use Rattle.case_trees.specs.Answers.{IsAnswerOfAll};
ghost use Rattle.settler.specs.Calls.{IsAnswerer};
ghost use Rattle.settler.specs.Cases.{AreCases, trees_in};
ghost use Rattle.settler.specs.Decided.{state_at};
ghost use Rattle.settler.specs.Frames.{Fits};

use crate::cases::Case;
use crate::laws::plans_fit;
use bisect::Outcome;
use box_tree::Plan;
use case_trees::{Gathered, trees_are_gathered};
use proof_options::Options;
use rule_universe::Universe;
use script_grammar::Script;
use std::alloc::{AllocError, Global};
use universe::assume;

// What the tree of the plan's boxes comes to under the options, answered by the call.
fn answered<A: Fn(&Universe, &Plan, Options) -> Result<Outcome, AllocError>>(
    answer_tree: &A,
    universe: &Universe,
    plan: &Plan,
    options: Options,
) -> Result<Outcome, AllocError>
    requires answers { IsAnswerer (A.pre answer_tree.now) (A.post answer_tree.now) }
    requires fits { Fits universe.now plan.now }
    requires allowed { AreAllowed options }
    ensures { IfOk result (IsAnswer
        (tree_of (cut_at plan.now) (state_at universe.now plan.now options.rounds))
        options.boxes) }
{
    answer_tree(universe, plan, options)
}

// What the trees of the cases come to together, one after the other, each with the boxes that are
// left. An open case doesn't end it: the boxes of later ones count, too. Each tree is answered by
// the call.
pub(crate) fn answer_cases<A: Fn(&Universe, &Plan, Options) -> Result<Outcome, AllocError>>(
    alloc: Global,
    answer_tree: &A,
    script: &Script<'_>,
    universe: &mut Universe,
    cases: &[Case],
    options: Options,
) -> Result<Outcome, AllocError>
    requires answers { IsAnswerer (A.pre answer_tree.now) (A.post answer_tree.now) }
    requires universe { (before : List Claim) × IsUniverse script.now before universe.old }
    requires cases { (depth : ℕ)
        × ((claims : List (List Claim)) × AreCases script.now depth claims cases.now) }
    requires few { length cases.now ≤ 64 }
    requires allowed { AreAllowed options }
    ensures comes { IfOk result (IsAnswerOfAll
        (trees_in universe.old options.rounds cases.now) options.boxes) }
    ensures universe { (after : List Claim) × IsUniverse script.now after universe.new }
{
    trees_are_gathered();
    let mut gathered = Gathered::new(alloc, options.boxes);
    for case in cases {
        let left = gathered.left();
        if left == 0 {
            return Ok(Outcome::BoxLimit);
        }
        assume(alloc, universe, script, case.claims.as_slice())?;
        plans_fit(universe);
        let share = Options {
            boxes: left,
            ..options
        };
        let outcome = answered(answer_tree, universe, &case.plan, share)?;
        if !gathered.add(outcome)? {
            return Ok(Outcome::BoxLimit);
        }
    }
    Ok(gathered.finish())
}
