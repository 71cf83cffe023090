//! A lane that its owner and one other hand work on, at once or in turn.
ghost use Rattle.std.specs.Prelude.{◌≡◌, ◌≢◌, ◌<◌, ◌≤◌, ℕ, length, vec_len, IfOk, OnOk};
ghost use Rattle.box_deques.specs.Seen as seen;
ghost use Rattle.box_deques.specs.Seen.{AllPasses, Each, HasPass, IsReady, IsSeated, Lent};
ghost use Rattle.box_deques.specs.Seen.{OwnIsEmpty};
ghost use Rattle.box_deques.specs.Moments.{SamePasses};

use crate::equals::{all_equal, equal, holds};
use crate::of_box_deques::{Job, numbered};
use box_deques::{Hand, Lane, LaneEnd, Naming, Thief, hands, pool};
use fx_edge::Path;
use std::alloc::{AllocError, Global};
use std::marker::Brand;
use std::sync::Wait;
use std::test::Fail;
use std::thread::{Threads, join_mut};

// Pushes the jobs 0 to 99, and says how many the lane took.
fn push_all<Q: Naming<u8>>(lane: &mut Lane<Job, Q>) -> u8
    ensures { (lane.new.number ≡ lane.old.number) × (lane.new.hands ≡ lane.old.hands)
        × (lane.new.name ≡ lane.old.name) }
{
    let mut pushed = 0u8;
    for i in 0..100u8 {
        if lane.push(numbered(i)).is_ok() {
            pushed = pushed.saturating_add(1);
        }
    }
    pushed
}

// Tries 1,000 times, and says how often a task came.
fn steal_often<Q: Naming<u8>, R: Wait>(rt: &R, thief: &Thief<Job, Q>, hand: &mut Hand<Job>) -> u16
    requires pass { HasPass hand.old.seats thief.now.number thief.now.name Q.capacity }
    requires other { hand.old.number ≢ thief.now.number }
    ensures { SamePasses hand.old hand.new }
{
    let mut stolen = 0u16;
    for _ in 0..1000u16 {
        if thief.steal(rt, hand).is_some() {
            stolen = stolen.saturating_add(1);
        }
    }
    stolen
}

// One after the other: five pushes, two steals, a pop, and once more a push.
fn in_turn<Q: Naming<u8>, R: Wait>(
    rt: &R,
    lane: &mut Lane<Job, Q>,
    thief: &Thief<Job, Q>,
    hand: &mut Hand<Job>,
) -> (u8, u16)
    requires pass { HasPass hand.old.seats thief.now.number thief.now.name Q.capacity }
    requires other { hand.old.number ≢ thief.now.number }
    ensures lane { (lane.new.number ≡ lane.old.number) × (lane.new.hands ≡ lane.old.hands)
        × (lane.new.name ≡ lane.old.name) }
    ensures hand { SamePasses hand.old hand.new }
{
    let _ = lane.push(numbered(1));
    let _ = lane.push(numbered(2));
    let _ = lane.push(numbered(3));
    let first = thief.steal(rt, hand).is_some();
    let popped = lane.pop().is_some();
    let _ = lane.push(numbered(4));
    (u8::from(popped), u16::from(first))
}

// Both at once, in two threads where these can be made.
fn at_once<Q: Naming<u8> + Send + Sync, R: Threads + Wait + Sync>(
    rt: &R,
    lane: &mut Lane<Job, Q>,
    thief: &Thief<Job, Q>,
    hand: &mut Hand<Job>,
) -> (u8, u16)
    requires pass { HasPass hand.old.seats thief.now.number thief.now.name Q.capacity }
    requires other { hand.old.number ≢ thief.now.number }
    ensures lane { (lane.new.number ≡ lane.old.number) × (lane.new.hands ≡ lane.old.hands)
        × (lane.new.name ≡ lane.old.name) }
    ensures hand { SamePasses hand.old hand.new }
{
    join_mut(
        rt,
        &mut || push_all(lane),
        &mut || steal_often(rt, thief, hand),
    )
}

fn worked<Q: Naming<u8> + Send + Sync, R: Threads + Wait + Sync>(
    rt: &R,
    lane: &mut Lane<Job, Q>,
    thief: &Thief<Job, Q>,
    hand: &mut Hand<Job>,
    together: bool,
) -> (u8, u16)
    requires pass { HasPass hand.old.seats thief.now.number thief.now.name Q.capacity }
    requires other { hand.old.number ≢ thief.now.number }
    ensures lane { (lane.new.number ≡ lane.old.number) × (lane.new.hands ≡ lane.old.hands)
        × (lane.new.name ≡ lane.old.name) }
    ensures hand { SamePasses hand.old hand.new }
{
    if together {
        at_once(rt, lane, thief, hand)
    } else {
        in_turn(rt, lane, thief, hand)
    }
}

// Closes the lane. Where memory was refused, all is as it was, and it is closed then.
fn closed<Q: Naming<u8>>(
    alloc: Global,
    lane: Lane<Job, Q>,
    hands: &mut [Hand<Job>],
) -> Result<LaneEnd<Job>, AllocError>
    requires all { (length hands.old ≡ lane.hands) × (length hands.old ≤ 16) }
    requires passes { AllPasses lane.number lane.name hands.old }
    requires own { OwnIsEmpty lane.number hands.old }
{
    let lane = match lane.close(alloc, hands) {
        Ok(end) => return Ok(end),
        Err((lane, _)) => lane,
    };
    match lane.close(alloc, hands) {
        Ok(end) => Ok(end),
        Err((_, error)) => Err(error),
    }
}

// The hands of the lanes. Where memory was refused, the lanes are as they were, and they get their
// hands then.
fn handed<Q: Naming<u8>>(
    alloc: Global,
    lanes: &mut [Lane<Job, Q>],
) -> Result<Vec<Hand<Job>>, AllocError>
    requires some { (0 < length lanes.old) × (length lanes.old ≤ 16) }
    requires new { Each (λ (k : ℕ) (lane : seen.Lane). lane.hands ≡ 0)
        (length lanes.old) lanes.old }
    ensures lanes { OnOk result (Lent (length lanes.old) lanes.old lanes.new) }
    ensures many { IfOk result (λ hands. vec_len hands ≡ length lanes.old) }
    ensures hands { IfOk result (λ hands.
        Each (λ (k : ℕ) (hand : seen.Hand). IsSeated k Q.capacity lanes.old hand)
        (length lanes.old) hands.items) }
{
    match hands(alloc, lanes) {
        Ok(all) => Ok(all),
        Err(_) => hands(alloc, lanes),
    }
}

// The lane 0 of two is worked on by its owner and by the hand 1, and then closed.
fn work_and_close<Q: Naming<u8> + Send + Sync, R: Threads + Wait + Sync>(
    rt: &R,
    alloc: Global,
    mut lane: Lane<Job, Q>,
    hands: &mut [Hand<Job>],
    together: bool,
) -> Result<(LaneEnd<Job>, u8, u16), AllocError>
    requires two { (length hands.old ≡ 2) × (lane.hands ≡ 2) × (lane.number ≡ 0) }
    requires ready { Each (IsReady Q.capacity lane.name) 2 hands.old }
{
    let thief = lane.thief()?;
    let (pushed, stolen) = worked(rt, &mut lane, &thief, &mut hands[1], together);
    let end = closed(alloc, lane, hands)?;
    Ok((end, pushed, stolen))
}

fn shared<Q: Naming<u8> + Send + Sync, R: Threads + Wait + Sync>(
    rt: &R,
    alloc: Global,
    together: bool,
) -> Result<(LaneEnd<Job>, u8, u16), AllocError>
    requires { Q.capacity ≡ 100 }
{
    let mut lanes = pool::<Job, Q>(alloc, 2, 100)?;
    let mut all = handed(alloc, lanes.as_mut_slice())?;
    let lane = lanes.remove(0);
    work_and_close(rt, alloc, lane, all.as_mut_slice(), together)
}

// The ledger's takes, then what is left, are the pushes.
fn is_whole(end: &LaneEnd<Job>) -> bool {
    let pushes = end.ledger.pushes.as_slice();
    let takes = end.ledger.takes.as_slice();
    let left = end.ledger.left.as_slice();
    if takes.len().saturating_add(left.len()) != pushes.len() {
        return false;
    }
    for i in 0..pushes.len() {
        let path = if i < takes.len() {
            takes[i].1
        } else {
            left[i - takes.len()]
        };
        if path != pushes[i] {
            return false;
        }
    }
    true
}

// The path of the job of this number.
fn path(number: u8) -> Path {
    Path::root().child(number % 64)
}

#[test]
fn a_shared_lane_loses_nothing(rt: HostRuntime) -> Result<(), Fail> {
    let (end, pushed, stolen) = shared::<Brand, _>(&rt, rt.alloc(), true)?;
    equal(
        &rt,
        "pushed",
        (pushed, end.ledger.pushes.as_slice().len()),
        (100, 100),
    );
    holds(&rt, "the ledger", is_whole(&end));
    equal(
        &rt,
        "takes",
        end.ledger.takes.as_slice().len(),
        stolen as usize,
    );
    equal(
        &rt,
        "left",
        end.left.as_slice().len(),
        end.ledger.left.as_slice().len(),
    );
    for (worker, _) in end.ledger.takes.as_slice() {
        equal(&rt, "the worker", *worker, 1);
    }
    Ok(())
}

#[test]
fn each_take_has_its_worker_and_its_place(rt: HostRuntime) -> Result<(), Fail> {
    let (end, popped, stolen) = shared::<Brand, _>(&rt, rt.alloc(), false)?;
    equal(&rt, "popped", (popped, stolen), (1, 1));
    let takes = [(1, path(1)), (0, path(2))];
    let left = [path(3), path(4)];
    all_equal(&rt, "takes", end.ledger.takes.as_slice(), takes.as_slice());
    all_equal(&rt, "left", end.ledger.left.as_slice(), left.as_slice());
    holds(&rt, "the ledger", is_whole(&end));
    Ok(())
}
