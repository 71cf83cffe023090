//! Answers of trees whose boxes are open on two ways down, by one thread.
ghost use Rattle.std.specs.Prelude.{◌≡◌, ◌≤◌, ℕ, List, length, IfOk};
ghost use Rattle.script_hints.specs.Few.{HaveFewPieces};
ghost use Rattle.box_tree.specs.Plans.{cut_at};
ghost use Rattle.bisect.specs.Answers.{IsAnswer};
ghost use Rattle.bisect.specs.Examples.{two_ways_open};
ghost use Rattle.bisect.specs.Trees.{tree_of};

use crate::answers::{Told, told};
use crate::equals::equal;
use crate::tree::{NONE, World, X, no_cuts, one_cut, two_ways, unit_plan};
use bisect::{Outcome, run_alone};
use box_tree::Plan;
use fx_edge::{Items, Path};
use script_hints::hint::Split;
use std::alloc::{AllocError, Global};
use std::marker::Brand;
use std::process::Abort;
use std::test::Fail;

fn answer_in<W: World>(alloc: Global, plan: &Plan, boxes: u32) -> Result<Outcome, AllocError>
    requires { (p : List ℕ) → cut_at plan.now p ≡ W.cut_at p }
    ensures { IfOk result (IsAnswer (tree_of W.cut_at two_ways_open) boxes) }
{
    let settler = two_ways::<W>(plan, NONE);
    run_alone(alloc, &settler, plan, boxes)
}

// A cut into so many pieces, if into any.
fn cuts(alloc: Global, pieces: u8) -> Result<Items<Split>, AllocError>
    requires { pieces ≤ 64 }
    ensures few { IfOk result (λ c. length c ≤ 4) }
    ensures pieces { IfOk result HaveFewPieces }
{
    if pieces == 0 {
        return Ok(no_cuts(alloc));
    }
    one_cut(alloc, X, pieces)
}

// The answer where x in [0,1] is cut into so many pieces, if into any, and then halved so often at
// most.
fn answer(
    rt: &impl Abort,
    alloc: Global,
    pieces: u8,
    depth: u8,
    boxes: u32,
) -> Result<Told, AllocError>
    requires pieces { pieces ≤ 64 }
    requires depth { depth ≤ 32 }
{
    let plan = unit_plan(rt, alloc, cuts(alloc, pieces)?, depth)?;
    let found = answer_in::<Brand>(alloc, &plan, boxes)?;
    Ok(told(&found))
}

// Of each row, so many pieces, so many halvings and boxes at most, this is told.
fn answers_are(rt: &impl Abort, alloc: Global, rows: &[(u8, u8, u32, Told)]) -> Result<(), Fail> {
    for (pieces, depth, boxes, wanted) in rows {
        let found = answer(rt, alloc, (*pieces).min(64), (*depth).min(32), *boxes)?;
        equal(rt, u64::from(*boxes), found, *wanted);
    }
    Ok(())
}

#[test]
fn each_limit_of_boxes_has_its_answer(rt: HostRuntime) -> Result<(), Fail> {
    let root = Path::root();
    let rows: [(u8, u8, u32, Told); 8] = [
        (0, 16, 15, (15, 8, None)),
        (0, 3, 4096, (11, 0, Some(root.child(0).child(1).child(1)))),
        (0, 0, 1, (1, 0, Some(root))),
        (4, 0, 5, (5, 0, Some(root.child(0)))),
        (4, 16, 17, (17, 10, None)),
        // More boxes than are allowed, though a leaf is open.
        (0, 16, 14, (0, 0, None)),
        (0, 3, 3, (0, 0, None)),
        (0, 16, 0, (0, 0, None)),
    ];
    answers_are(&rt, rt.alloc(), &rows)
}
