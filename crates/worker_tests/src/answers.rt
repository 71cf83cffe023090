//! The tree by several workers: what its answer tells. Where a call of the settler is refused.
ghost use Rattle.std.specs.Prelude.{◌≡◌, ◌≤◌, ℕ, List};
ghost use Rattle.box_tree.specs.Plans.{cut_at};

use crate::boxes::{LEAVES, number_of};
use crate::equals::{equal, holds};
use crate::tree::{World, halves, two_ways};
use bisect::{Leaf, Outcome};
use box_tree::Plan;
use box_workers::run;
use fx_edge::{Gate, OpenGate, Path};
use proof_options::Options;
use std::alloc::{AllocError, Global};
use std::marker::Brand;
use std::process::Abort;
use std::sync::Wait;
use std::sync::atomic::Ordering;
use std::test::Fail;
use std::thread::Threads;

/// The number of boxes, that of leaves, and the first open leaf; no box at the limit.
pub type Told = (u32, usize, Option<Path>);

/// What the answer tells.
pub fn told(found: &Outcome) -> Told {
    match found {
        Outcome::Leaves { boxes, leaves } => (*boxes, leaves.as_slice().len(), None),
        Outcome::Unproved { boxes, leaf } => (*boxes, 0, Some(leaf.path)),
        Outcome::BoxLimit => (0, 0, None),
    }
}

// They are those of the tree, in the order of their paths.
fn are_leaves(leaves: &[Leaf]) -> bool {
    if leaves.len() != 8 {
        return false;
    }
    for k in 0..8usize {
        if number_of(&leaves[k].path) != u64::from(LEAVES[k]) {
            return false;
        }
    }
    true
}

// The answer has 15 boxes, and the leaves of the tree.
fn is_whole(found: &Outcome) -> bool {
    match found {
        Outcome::Leaves { boxes, leaves } => *boxes == 15 && are_leaves(leaves.as_slice()),
        _ => false,
    }
}

/// What the answer tells, whether it is the whole tree, and how often a box was settled.
pub type Found = (Told, bool, u64);

fn answer_in<W: World, G: Gate, R: Threads + Wait + Sync>(
    rt: &R,
    alloc: Global,
    gate: &G,
    plan: &Plan,
    refused: u64,
    workers: u8,
    boxes: u32,
) -> Result<Found, AllocError>
    requires plan { (p : List ℕ) → cut_at plan.now p ≡ W.cut_at p }
    requires workers { (1 ≤ workers) × (workers ≤ 16) }
    requires boxes { (1 ≤ boxes) × (boxes ≤ 8192) }
{
    let settler = two_ways::<W>(plan, refused);
    let options = Options {
        rounds: 8,
        depth: 16,
        boxes,
        workers,
    };
    let found = run(rt, alloc, &settler, gate, plan, options)?;
    let calls = settler.calls.load(Ordering::SeqCst);
    Ok((told(&found), is_whole(&found), calls))
}

/// The answer under the plan that halves so often at most.
pub fn answer<G: Gate, R: Threads + Wait + Sync + Abort>(
    rt: &R,
    alloc: Global,
    gate: &G,
    depth: u8,
    refused: u64,
    workers: u8,
    boxes: u32,
) -> Result<Found, AllocError>
    requires depth { depth ≤ 32 }
    requires workers { (1 ≤ workers) × (workers ≤ 16) }
    requires boxes { (1 ≤ boxes) × (boxes ≤ 8192) }
{
    let plan = halves(rt, alloc, depth)?;
    answer_in::<Brand, G, R>(rt, alloc, gate, &plan, refused, workers, boxes)
}

// Where this call of the settler is refused, the answer is the whole tree.
fn tree_is_whole<R: Threads + Wait + Sync + Abort>(
    rt: &R,
    alloc: Global,
    refused: u64,
) -> Result<(), Fail> {
    let (_, whole, calls) = answer(rt, alloc, &OpenGate, 16, refused, 4, 4096)?;
    holds(rt, refused, whole);
    equal(rt, refused, calls, 16);
    Ok(())
}

#[test]
fn a_refused_call_changes_no_leaf(rt: HostRuntime) -> Result<(), Fail> {
    for refused in 0..15u64 {
        tree_is_whole(&rt, rt.alloc(), refused)?;
    }
    Ok(())
}
