//! Takes tasks of one lane, from any thread.
ghost use Rattle.std.specs.Prelude.{◌≡◌, ◌≢◌, ◌<◌, true, [], ◌∷◌, Some, None, IfSome, IfNone};
ghost use Rattle.crossbeam_deque.specs.Handles.{view, IsPassOf, SamePass, stealer_deque};
ghost use Rattle.crossbeam_deque.specs.Handles.{stealer_flavor};
ghost use Rattle.box_deques.specs.Rule.{Belongs, WasEmpty, Takes1};
ghost use Rattle.box_deques.specs.Moments.{Takes, Steals, SameSeat, SamePasses};
ghost use Rattle.box_deques.specs.Seen.{with_empty, hand_with, HasPass};

use crate::hand::{Hand, Seat};
use crate::rule::{LaneRule, PlacedTask, Taken, View};
use crate::task::{Naming, Task};
use crossbeam_deque::{Pass, Steal, Stealer};
use std::alloc::Global;
use std::hint::spin_loop;
use std::marker::Model;
use std::sync::Wait;

/// Takes tasks of one lane, from any thread.
#[derive(Drop)]
pub struct Thief<T: Task, Q: Naming<T::World>> {
    pub(crate) stealer: Stealer<PlacedTask<T>, Global, View, LaneRule<T, Q>>,
    pub(crate) number: u8,
}

impl<T: Task, Q: Naming<T::World>> Model for Thief<T, Q> {
    ghost use Rattle.std.specs.Prelude.{◌≡◌};
    ghost use Rattle.crossbeam_deque.specs.Handles.{stealer_deque, stealer_flavor};
    ghost use Rattle.box_deques.specs.Seen as seen;

    ghost Value = { seen.Thief };

    ghost view = { λ t. record { number = t.number; name = (stealer_deque t.stealer).0 } };

    ghost invariant = { λ t. stealer_flavor t.stealer ≡ 0 };
}

// Takes the first task, once no other thread is in the way.
fn take_first<T: Task, Q: Naming<T::World>, R: Wait>(
    rt: &R,
    stealer: &Stealer<PlacedTask<T>, Global, View, LaneRule<T, Q>>,
    pass: &mut Pass<PlacedTask<T>, View>,
) -> Option<PlacedTask<T>>
    requires table { IsPassOf (stealer_deque stealer.now) pass.old }
    requires fifo { stealer_flavor stealer.now ≡ 0 }
    requires live { (view pass.old).live ≡ true }
    ensures same { SamePass pass.old pass.new }
    ensures none { IfNone result ((view pass.new ≡ view pass.old) × WasEmpty (view pass.old)) }
    ensures some { IfSome result (λ placed. Takes1 (λ t. t.place) (λ t. T.path_of t.task)
        (λ t. Belongs (T.world t.task) Q.world) Q.capacity
        (view pass.old) (placed ∷ []) (view pass.new)) }
{
    for _ in rt.forever() {
        match stealer.steal_as::<Taken<T, Q>>(pass) {
            Steal::Success(placed) => return Some(placed),
            Steal::Empty => return None,
            Steal::Retry => spin_loop(),
        }
    }
    unreachable!()
}

impl<T: Task, Q: Naming<T::World>> Thief<T, Q> {
    // Takes the first task for the hand of this seat.
    pub(crate) fn steal_at<R: Wait>(&self, rt: &R, seat: &mut Seat<T>) -> Option<T>
        requires pass { seat.old.lane ≡ Some self.now.name }
        requires room { seat.old.room ≡ Q.capacity }
        ensures world { IfSome result (λ t. Belongs (T.world t) Q.world) }
        ensures first { IfSome result (λ t. Takes Q.capacity seat.old seat.new (T.path_of t)) }
        ensures none { IfNone result (seat.new ≡ with_empty seat.old) }
        ensures pass { SameSeat seat.old seat.new }
    {
        let Some(pass) = &mut seat.pass else {
            unreachable!()
        };
        match take_first(rt, &self.stealer, pass) {
            Some(placed) => {
                let PlacedTask { place, task } = placed;
                seat.takes.push_reserved((place, task.path()));
                Some(task)
            }
            None => {
                seat.empty = seat.empty.saturating_add(1);
                None
            }
        }
    }

    /// The first task, which the hand counts with its place. `None` only where the lane was empty
    /// at this call's step; then the hand's empty steals of this lane rise, unless they stand at
    /// 2^64 - 1. That the task was the first, and that the lane was empty, is the step's own
    /// promise; the clauses say what the hand can know of it: the place is above those of all that
    /// it took here. It may wait for another thread's step, and takes no memory.
    pub fn steal<R: Wait>(&self, rt: &R, by: &mut Hand<T>) -> Option<T>
        requires pass { HasPass by.old.seats self.now.number self.now.name Q.capacity }
        requires other { by.old.number ≢ self.now.number }
        ensures world { IfSome result (λ t. Belongs (T.world t) Q.world) }
        ensures first { IfSome result
            (λ t. Steals Q.capacity self.now.number by.old by.new (T.path_of t)) }
        ensures none { IfNone result (by.new ≡ hand_with by.old self.now.number with_empty) }
        ensures passes { SamePasses by.old by.new }
    {
        let seat = &mut by.seats[self.number as usize];
        self.steal_at(rt, seat)
    }
}
