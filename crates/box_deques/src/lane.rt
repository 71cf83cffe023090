//! A lane, its thieves and the hands that take from it.
ghost use Rattle.std.specs.Prelude.{◌≡◌, ◌<◌, ◌≤◌, true, false, [], length, vec_len, vec_capacity};
ghost use Rattle.std.specs.Prelude.{Some, None, IfOk, IfSome, IfNone, MatchResult};
ghost use Rattle.crossbeam_deque.specs.Handles.{view, worker_deque, worker_flavor, worker_view};
ghost use Rattle.crossbeam_deque.specs.Handles.{worker_index, worker_capacity};
ghost use Rattle.box_deques.specs.Moments.{MayBeEmpty, Pops};
ghost use Rattle.box_deques.specs.Rule.{Belongs};
ghost use Rattle.box_deques.specs.Seen.{with_push, with_none, with_hand, Each, IsNew};
ghost use Rattle.box_deques.specs.Views.{guest};

use crate::rule::{LaneRule, NewHand, PlacedTask, Pushed, Taken, View};
use crate::task::{Naming, Task};
use crate::thief::Thief;
use crossbeam_deque::{Pass, Worker};
use fx_edge::Path;
use std::alloc::{AllocError, Global};
use std::marker::Model;

/// The boxes that wait in one worker's lane. Contracts see what it was pushed and what its owner
/// took. It has 64 unused bytes on each side, so that no two lanes are on one line of the
/// processor's cache.
#[derive(Drop)]
#[repr(C)]
pub struct Lane<T: Task, Q: Naming<T::World>> {
    pub(crate) before: [u64; 8],
    pub(crate) deque: Worker<PlacedTask<T>, Global, View, LaneRule<T, Q>>,
    pub(crate) number: u8,
    pub(crate) capacity: u32,
    pub(crate) pushed: Vec<Path>,
    pub(crate) takes: Vec<(u64, Path)>,
    pub(crate) dry: bool,
    pub(crate) after: [u64; 8],
}

impl<T: Task, Q: Naming<T::World>> Model for Lane<T, Q> {
    ghost use Rattle.std.specs.Prelude.{◌≡◌, ◌≤◌, true, [], vec_len, vec_capacity, length};
    ghost use Rattle.crossbeam_deque.specs.Handles.{worker_deque, worker_flavor, worker_view};
    ghost use Rattle.crossbeam_deque.specs.Handles.{worker_index, worker_capacity};
    ghost use Rattle.box_deques.specs.Seen as seen;

    ghost Value = { seen.Lane };

    ghost view = { λ l. record {
      number = l.number;
      pushed = l.pushed.items;
      takes = l.takes.items;
      dry = l.dry;
      hands = (worker_view l.deque).made;
      name = (worker_deque l.deque).0;
    } };

    ghost invariant = { λ l.
        (worker_flavor l.deque ≡ 0)
        × ((worker_view l.deque).live ≡ true)
        × ((worker_view l.deque).party ≡ 0)
        × ((worker_view l.deque).back ≡ [])
        × ((worker_view l.deque).pushed ≡ l.pushed.items)
        × ((worker_view l.deque).takes ≡ l.takes.items)
        × (l.capacity ≡ Q.capacity)
        × (l.capacity ≤ worker_capacity l.deque)
        × (worker_index l.deque ≤ vec_len l.pushed)
        × (vec_len l.pushed ≤ l.capacity)
        × (l.capacity ≤ vec_capacity l.pushed)
        × (l.capacity ≤ vec_capacity l.takes) };
}

impl<T: Task, Q: Naming<T::World>> Lane<T, Q> {
    /// The task goes last. It comes back exactly where the lane was already pushed as many tasks as
    /// its capacity. The caller sees to it that the task belongs to the lane's world. It takes no
    /// memory.
    pub fn push(&mut self, task: T) -> Result<(), T>
        requires { Belongs (T.world task) Q.world }
        ensures { MatchResult result
            (λ _. (length self.old.pushed < Q.capacity)
            × (self.new ≡ with_push self.old (T.path_of task)))
            (λ back. (length self.old.pushed ≡ Q.capacity)
            × (back ≡ task) × (self.new ≡ self.old)) }
    {
        if self.pushed.len() >= self.capacity as usize {
            return Err(task);
        }
        let path = task.path();
        let place = self.pushed.len() as u64;
        let placed = PlacedTask { place, task };
        match self.deque.push_as::<Pushed<T, Q>>(placed) {
            Ok(()) => {
                self.pushed.push_reserved(path);
                self.dry = false;
                Ok(())
            }
            Err(_) => unreachable!(),
        }
    }

    /// The first task, which the lane counts with its place. `None` only where the lane was empty
    /// at this call's step, and then the lane is dry. While hands are out, the clauses say so of a
    /// state that the owner can't tell from the real one. It takes no memory.
    pub fn pop(&mut self) -> Option<T>
        ensures world { IfSome result (λ t. Belongs (T.world t) Q.world) }
        ensures first { IfSome result (λ t. Pops Q.capacity self.old self.new (T.path_of t)) }
        ensures none { IfNone result (MayBeEmpty self.old × (self.new ≡ with_none self.old)) }
    {
        match self.deque.pop_as::<Taken<T, Q>>() {
            Some(placed) => {
                let PlacedTask { place, task } = placed;
                self.takes.push_reserved((place, task.path()));
                self.dry = false;
                Some(task)
            }
            None => {
                self.dry = true;
                None
            }
        }
    }

    /// A thief of this lane. Lack of memory is the only error.
    pub fn thief(&self) -> Result<Thief<T, Q>, AllocError>
        ensures { IfOk result (λ thief. (thief.number ≡ self.now.number)
            × (thief.name ≡ self.now.name)) }
    {
        Ok(Thief {
            stealer: self.deque.stealer()?,
            number: self.number,
        })
    }

    // How many tasks it can be pushed in all.
    pub(crate) fn capacity(&self) -> u32
        ensures { result ≡ Q.capacity }
    {
        self.capacity
    }

    // A pass for the next hand.
    pub(crate) fn lend(&mut self) -> Pass<PlacedTask<T>, View>
        ensures lane { self.new ≡ with_hand self.old }
        ensures name { result.rows ≡ self.old.name }
        ensures idle { (result.me.hand ≡ None) × (result.me.spare ≡ None) }
        ensures knows { view result ≡ guest self.old.hands }
    {
        self.deque.another::<NewHand>()
    }

    #[tactic(auto, using(crate::proofs::Steps::begins))]
    fn new(alloc: Global, number: u8, capacity: u32) -> Result<Lane<T, Q>, AllocError>
        requires { capacity ≡ Q.capacity }
        ensures { IfOk result (λ l. IsNew number l) }
    {
        let deque = Worker::fifo_as(alloc, capacity as usize)?;
        let pushed = Vec::with_capacity(alloc, capacity as usize)?;
        let takes = Vec::with_capacity(alloc, capacity as usize)?;
        Ok(Lane {
            before: [0; 8],
            deque,
            number,
            capacity,
            pushed,
            takes,
            dry: false,
            after: [0; 8],
        })
    }
}

/// As many lanes as there are workers (1 to 16), each for at most `capacity` pushes (1 to 8,192).
/// It takes all memory that their pushes and pops need. Lack of memory is the only error.
pub fn pool<T: Task, Q: Naming<T::World>>(
    alloc: Global,
    lanes: u8,
    capacity: u32,
) -> Result<Vec<Lane<T, Q>>, AllocError>
    requires lanes { (1 ≤ lanes) × (lanes ≤ 16) }
    requires capacity { (1 ≤ capacity) × (capacity ≤ 8192) }
    requires named { capacity ≡ Q.capacity }
    ensures many { IfOk result (λ pool. vec_len pool ≡ lanes) }
    ensures new { IfOk result (λ pool. Each IsNew lanes pool.items) }
{
    let mut pool = Vec::with_capacity(alloc, lanes as usize)?;
    for number in 0..lanes {
        pool.push_reserved(Lane::new(alloc, number, capacity)?);
    }
    Ok(pool)
}
