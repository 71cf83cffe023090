//! The tree by one call of `work`.
ghost use Rattle.std.specs.Prelude.{◌≡◌, ◌≤◌, ℕ, List, Some};
ghost use Rattle.box_tree.specs.Plans.{cut_at};

use crate::boxes::number_of;
use crate::equals::equal;
use crate::tree::{NONE, Spot, World, halves, two_ways};
use bisect::Posted;
use box_deques::{Naming, Task, hands, pool};
use box_tree::Plan;
use box_workers::{BoxTask, Counts, Held, HeldWhy, Record, Site, work};
use fact_board::Board;
use fx_edge::OpenGate;
use std::alloc::{AllocError, Global};
use std::marker::Brand;
use std::process::Abort;
use std::sync::Wait;
use std::test::Fail;

// A held box: its number, why it is held, whether it was published, and how many of its halves
// were pushed.
type HeldBox = (u64, HeldWhy, bool, u8);

fn held_box<E: Posted>(held: &Held<E>) -> HeldBox {
    (
        number_of(&held.task.path()),
        held.why,
        held.own.is_some(),
        held.pushed,
    )
}

// What one call of `work` did: how many boxes it settled and split, and which one it holds.
type Did = (usize, usize, Option<HeldBox>);

fn did<E: Posted>(done: &Record<E>) -> Did {
    let held = match &done.held {
        Some(held) => Some(held_box(held)),
        None => None,
    };
    (done.settled.len(), done.split.len(), held)
}

// One call of `work`, with a lane of so many places that has the root, and no other lane.
fn work_with<W: World, Q: Naming<Board<Spot<W>>>, R: Wait>(
    rt: &R,
    alloc: Global,
    plan: &Plan,
    board: &Board<Spot<W>>,
    capacity: u32,
) -> Result<Did, AllocError>
    requires plan { (p : List ℕ) → cut_at plan.now p ≡ W.cut_at p }
    requires capacity { (1 ≤ capacity) × (capacity ≤ 8192) }
    requires named { (capacity ≡ Q.capacity) × (Q.world ≡ Some board.now) }
{
    let mut lanes = pool::<BoxTask<Spot<W>>, Q>(alloc, 1, capacity)?;
    let mut hands = hands(alloc, lanes.as_mut_slice())?;
    let lane = &mut lanes[0];
    let Ok(()) = lane.push(BoxTask::root()) else {
        return Err(AllocError);
    };
    let settler = two_ways::<W>(plan, NONE);
    let counts = Counts::new();
    let gate = OpenGate;
    let site = Site::new(alloc, &settler, &gate, plan, board, &counts);
    let none = Vec::new(alloc);
    let hand = &mut hands[0];
    let done = work(rt, &site, lane, none.as_slice(), hand);
    Ok(did(&done))
}

fn work_in<W: World, R: Wait>(
    rt: &R,
    alloc: Global,
    plan: &Plan,
    capacity: u32,
) -> Result<Did, AllocError>
    requires plan { (p : List ℕ) → cut_at plan.now p ≡ W.cut_at p }
    requires capacity { (1 ≤ capacity) × (capacity ≤ 8192) }
{
    let board = Board::new(alloc)?;
    work_with::<W, Brand, R>(rt, alloc, plan, &board, capacity)
}

fn work_once<R: Wait + Abort>(rt: &R, alloc: Global, capacity: u32) -> Result<Did, AllocError>
    requires { (1 ≤ capacity) × (capacity ≤ 8192) }
{
    let plan = halves(rt, alloc, 16)?;
    work_in::<Brand, R>(rt, alloc, &plan, capacity)
}

fn work_is<R: Wait + Abort>(rt: &R, alloc: Global, capacity: u32, wanted: Did) -> Result<(), Fail>
    requires { (1 ≤ capacity) × (capacity ≤ 8192) }
{
    let done = work_once(rt, alloc, capacity)?;
    equal(rt, u64::from(capacity), done, wanted);
    Ok(())
}

#[test]
fn one_worker_has_all_boxes_in_its_record(rt: HostRuntime) -> Result<(), Fail> {
    work_is(&rt, rt.alloc(), 4096, (8, 7, None))?;
    // The root and 14 more are all that the lane is pushed.
    work_is(&rt, rt.alloc(), 15, (8, 7, None))
}

#[test]
fn a_full_lane_holds_the_box(rt: HostRuntime) -> Result<(), Fail> {
    // The lane is pushed the root, its two halves, and the first half of the next box.
    let held = (0b10, HeldWhy::LaneFull, true, 1);
    work_is(&rt, rt.alloc(), 4, (0, 1, Some(held)))
}
