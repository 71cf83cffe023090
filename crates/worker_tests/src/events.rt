//! The tree as events that two workers make on a plan.
use crate::boxes::{LEAVES, number_of, path_of};
use crate::equals::holds;
use crate::tree::halves;
use accounts::{Core, Cuts, Event};
use fx_edge::Path;
use std::test::Fail;

// The boxes in the order in which two workers take them, who take turns.
const BOXES: [u8; 15] = [
    0b1, 0b10, 0b11, 0b100, 0b110, 0b101, 0b111, 0b1010, 0b1100, 0b1011, 0b1101, 0b10110, 0b11000,
    0b10111, 0b11001,
];

// The leaves among them.
const SETTLED: [u64; 8] = [
    0b100, 0b111, 0b1010, 0b1101, 0b10110, 0b11000, 0b10111, 0b11001,
];

// The worker publishes the box in its hand, and pushes its halves.
fn split<C: Cuts>(core: &mut Core<'_, C>, worker: u8, number: u8) -> Result<(), Fail> {
    let path = path_of(number);
    core.step(Event::Publish { worker, path })?;
    for half in 0..2u8 {
        let path = path_of(number.wrapping_mul(2).wrapping_add(half));
        core.step(Event::Push { worker, path })?;
    }
    Ok(())
}

// The worker takes the box from its lane, and settles or splits it. The second worker begins with
// a box of the first one's lane.
fn turn<C: Cuts>(core: &mut Core<'_, C>, k: u8, number: u8) -> Result<(), Fail> {
    let worker = k % 2;
    let taken = if k == 1 {
        Event::Steal { worker, lane: 0 }
    } else {
        Event::Pop { worker }
    };
    core.step(taken)?;
    if LEAVES.contains(&number) {
        core.step(Event::Settle { worker })?;
        return Ok(());
    }
    split(core, worker, number)
}

/// Two workers settle or split all boxes.
pub fn turns<C: Cuts>(core: &mut Core<'_, C>) -> Result<(), Fail> {
    for k in 0..15u8 {
        turn(core, k, BOXES[usize::from(k)])?;
    }
    Ok(())
}

// The paths are those of the leaves.
fn are_settled(paths: &[Path]) -> bool {
    if paths.len() != 8 {
        return false;
    }
    for k in 0..8usize {
        if number_of(&paths[k]) != SETTLED[k] {
            return false;
        }
    }
    true
}

#[test]
fn two_workers_settle_the_leaves_of_a_plan(rt: HostRuntime) -> Result<(), Fail> {
    let plan = halves(&rt, rt.alloc(), 16)?;
    let mut core = Core::start(rt.alloc(), &plan, 2)?;
    turns(&mut core)?;
    holds(&rt, 2, are_settled(core.settled()));
    Ok(())
}
