//! What became of the tasks of a lane.
ghost use Rattle.std.specs.Prelude.{◌≡◌, ℕ, List, ◌+◌, ◌<◌, ◌≤◌, true, [], length, map, drop, All};
ghost use Rattle.std.specs.Prelude.{vec_capacity, IfOk, IfErr, OnOk, sum_by};
ghost use Rattle.crossbeam_deque.specs.Handles.{worker_deque, worker_flavor, worker_view};
ghost use Rattle.crossbeam_deque.specs.Handles.{SameWorker};
ghost use Rattle.box_deques.specs.Close.{writes, writes_all, AllBelow, IsLedgerOf};
ghost use Rattle.box_deques.specs.Views.{with_back};
ghost use Rattle.box_deques.specs.Rule.{Belongs};
ghost use Rattle.box_deques.specs.Seen as seen;
ghost use Rattle.box_deques.specs.Seen.{AllPasses, Each, GaveBack, OwnIsEmpty, takes_on};

use crate::hand::Hand;
use crate::lane::Lane;
use crate::rule::{Closed, HandBack, LaneRule, PlacedTask, Taken, View};
use crate::task::{Naming, Task};
use crossbeam_deque::Worker;
use fx_edge::{Items, Ledger, Path};
use std::alloc::{AllocError, Global};

// Writes the takes of a worker into the list, each at its place.
fn write_takes(into: &mut [(u8, Path)], takes: &[(u64, Path)], who: u8)
    requires { Each (λ (k : ℕ) (take : ℕ × List ℕ). take.0 < length into.old)
        (length takes.now) takes.now }
    ensures { into.new ≡ writes who takes.now into.old }
{
    for i in 0..takes.len() {
        let (place, path) = takes[i];
        into[place as usize] = (who, path);
    }
}

// Pops the n tasks that are left, once all passes are back.
fn drain<T: Task, Q: Naming<T::World>>(
    deque: &mut Worker<PlacedTask<T>, Global, View, LaneRule<T, Q>>,
    n: usize,
    left: &mut Vec<T>,
    paths: &mut Vec<Path>,
)
    requires fifo { worker_flavor deque.old ≡ 0 }
    requires owner { ((worker_view deque.old).live ≡ true)
        × ((worker_view deque.old).party ≡ 0)
        × ((worker_view deque.old).made ≡ length (worker_view deque.old).back) }
    requires count { length (worker_view deque.old).pushed
        ≡ (length (worker_view deque.old).takes
        + sum_by length (worker_view deque.old).back) + n }
    requires empty { (left.old.items ≡ []) × (paths.old.items ≡ [])
        × (n ≤ vec_capacity left.old) × (n ≤ vec_capacity paths.old) }
    ensures tasks { map T.path_of left.new.items ≡ paths.new.items }
    ensures world { All (λ t. Belongs (T.world t) Q.world) left.new.items }
    ensures paths { paths.new.items
        ≡ drop (length (worker_view deque.old).takes
        + sum_by length (worker_view deque.old).back) (worker_view deque.old).pushed }
{
    for i in 0..n {
        let Some(placed) = deque.pop_as::<Taken<T, Q>>() else {
            unreachable!()
        };
        let PlacedTask { place: _, task } = placed;
        paths.push_reserved(task.path());
        left.push_reserved(task);
    }
}

// Takes back the pass of each hand, in their order.
fn collect<T: Task, Q: Naming<T::World>>(
    deque: &mut Worker<PlacedTask<T>, Global, View, LaneRule<T, Q>>,
    hands: &mut [Hand<T>],
    lane: usize,
)
    requires owner { ((worker_view deque.old).live ≡ true)
        × ((worker_view deque.old).party ≡ 0)
        × ((worker_view deque.old).back ≡ []) }
    requires passes { AllPasses lane (worker_deque deque.old).0 hands.old }
    ensures same { SameWorker deque.old deque.new }
    ensures view { worker_view deque.new
        ≡ with_back (worker_view deque.old) (takes_on lane hands.old) }
    ensures hands { GaveBack lane hands.old hands.new }
{
    for k in 0..hands.len() {
        let hand = &mut hands[k];
        let pass = hand.surrender(lane);
        deque.absorb::<HandBack>(pass);
    }
}

// Writes what each hand took of the lane.
fn write_hands<T: Task>(into: &mut [(u8, Path)], hands: &[Hand<T>], lane: usize)
    requires few { length hands.now ≤ 16 }
    requires seats { Each (λ (k : ℕ) (hand : seen.Hand). lane < length hand.seats)
        (length hands.now) hands.now }
    requires places { AllBelow (length into.old) (takes_on lane hands.now) }
    ensures { into.new ≡ writes_all 0 (takes_on lane hands.now) into.old }
{
    for k in 0..hands.len() {
        let hand = &hands[k];
        write_takes(into, hand.takes(lane), k as u8);
    }
}

// Writes what the owner took, and then the hands.
fn write_all<T: Task>(into: &mut [(u8, Path)], own: &[(u64, Path)], number: u8, hands: &[Hand<T>])
    requires few { length hands.now ≤ 16 }
    requires seats { Each (λ (k : ℕ) (hand : seen.Hand). number < length hand.seats)
        (length hands.now) hands.now }
    requires own { Each (λ (k : ℕ) (take : ℕ × List ℕ). take.0 < length into.old)
        (length own.now) own.now }
    requires places { AllBelow (length into.old) (takes_on number hands.now) }
    ensures { into.new ≡ writes_all 0 (takes_on number hands.now) (writes number own.now into.old) }
{
    write_takes(into, own, number);
    write_hands(into, hands, number as usize);
}

/// What became of a lane's tasks.
#[derive(Drop)]
pub struct LaneEnd<T: Drop> {
    /// The paths that were pushed, who took what, and the paths that stayed.
    pub ledger: Ledger,
    /// The tasks that stayed, in order.
    pub left: Items<T>,
}

impl<T: Drop> LaneEnd<T> {
    fn of(pushed: Vec<Path>, takes: Vec<(u8, Path)>, paths: Vec<Path>, left: Vec<T>) -> LaneEnd<T>
        // The ledger.
        ensures pushes { result.ledger.pushes ≡ pushed.items }
        ensures takes { result.ledger.takes ≡ takes.items }
        ensures paths { result.ledger.left ≡ paths.items }
        ensures left { result.left ≡ left.items }
    {
        let ledger = Ledger {
            pushes: Items::from_vec(pushed),
            takes: Items::from_vec(takes),
            left: Items::from_vec(paths),
        };
        LaneEnd {
            ledger,
            left: Items::from_vec(left),
        }
    }
}

impl<T: Task, Q: Naming<T::World>> Lane<T, Q> {
    /// Takes the lane apart, and takes out of each hand its pass on this lane. The hands are all
    /// that `hands` made for the pool, in their order. On lack of memory the lane comes back, and
    /// lane and hands are as they were.
    pub fn close(
        self,
        alloc: Global,
        hands: &mut [Hand<T>],
    ) -> Result<LaneEnd<T>, (Lane<T, Q>, AllocError)>
        requires all { (length hands.old ≡ self.hands) × (length hands.old ≤ 16) }
        requires passes { AllPasses self.number self.name hands.old }
        // The hand of this worker, if there is one, stole nothing from its own lane.
        requires own { OwnIsEmpty self.number hands.old }
        // After lack of memory.
        ensures back { IfErr result (λ e. (e.0 ≡ self) × (hands.new ≡ hands.old)) }
        ensures hands { OnOk result (GaveBack self.number hands.old hands.new) }
        // The ledger.
        ensures ledger { IfOk result (λ e. IsLedgerOf self hands.old e.ledger) }
        ensures left { IfOk result (λ e. map T.path_of e.left ≡ e.ledger.left) }
        ensures world { IfOk result (λ e. All (λ t. Belongs (T.world t) Q.world) e.left) }
    {
        let room = self.pushed.len();
        let Ok(mut takes) = Vec::with_capacity(alloc, room) else {
            return Err((self, AllocError));
        };
        let Ok(mut left) = Vec::with_capacity(alloc, room) else {
            return Err((self, AllocError));
        };
        let Ok(mut paths) = Vec::with_capacity(alloc, room) else {
            return Err((self, AllocError));
        };
        let Lane {
            before: _,
            mut deque,
            number,
            capacity: _,
            pushed,
            takes: own,
            dry: _,
            after: _,
        } = self;
        collect(&mut deque, hands, number as usize);
        let n = deque.len_as::<Closed<T, Q>>();
        fill(&mut takes, pushed.len() - n);
        write_all(takes.as_mut_slice(), own.as_slice(), number, hands);
        drain(&mut deque, n, &mut left, &mut paths);
        Ok(LaneEnd::of(pushed, takes, paths, left))
    }
}

// A list of n takes, to be written over.
fn fill(takes: &mut Vec<(u8, Path)>, n: usize)
    requires { (takes.old.items ≡ []) × (n ≤ vec_capacity takes.old) }
    ensures { length takes.new.items ≡ n }
{
    for _ in 0..n {
        takes.push_reserved((0, Path::root()));
    }
}
