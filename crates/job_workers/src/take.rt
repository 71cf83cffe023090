//! Where a worker's next job comes from.
ghost use Rattle.box_deques.specs.Stealing.{CanSteal};

use crate::task::JobTask;
use box_deques::{Hand, Lane, Naming, Thief};
use std::sync::Wait;

// A job of another lane; none where each was empty in turn.
fn steal_any<Q: Naming<u8>, R: Wait>(
    rt: &R,
    thieves: &[Thief<JobTask, Q>],
    hand: &mut Hand<JobTask>,
) -> Option<JobTask>
    requires passes { CanSteal Q.capacity hand.old thieves.now }
    ensures passes { CanSteal Q.capacity hand.new thieves.now }
{
    for thief in thieves {
        if let Some(task) = thief.steal(rt, hand) {
            return Some(task);
        }
    }
    None
}

// The next job: the lane's first, or else one of another lane.
pub(crate) fn next_job<Q: Naming<u8>, R: Wait>(
    rt: &R,
    lane: &mut Lane<JobTask, Q>,
    thieves: &[Thief<JobTask, Q>],
    hand: &mut Hand<JobTask>,
) -> Option<JobTask>
    requires passes { CanSteal Q.capacity hand.old thieves.now }
    ensures passes { CanSteal Q.capacity hand.new thieves.now }
{
    if let Some(task) = lane.pop() {
        return Some(task);
    }
    steal_any(rt, thieves, hand)
}
