//! The machine over events.
ghost use Rattle.std.specs.Prelude.{◌≡◌, ◌≤◌, ◌↔◌, IfOk, IfErr, OnOk, OnErr, Some, None, slice_get};
ghost use Rattle.std.specs.Prelude.{◌&&◌, not, nat_lt};
ghost use Rattle.std.specs.Str.{bytes_eq};
ghost use Rattle.accounts.specs.Events.{after, take_by, publish_by, settle_by, hold_by, push_by};
ghost use Rattle.accounts.specs.Paths.{child};
ghost use Rattle.accounts.specs.declared.event.EventRefused.TheVariants.{NotEnabled};
ghost use Rattle.accounts.specs.declared.event.Event.TheVariants.{Steal};
ghost use Rattle.accounts.specs.Account.{at_start};
ghost use Rattle.accounts.specs.Balance.{IsBalanced};

use crate::book::{LaneBook, OpenBox};
use crate::cuts::Cuts;
use crate::event::{Event, EventRefused};
use crate::start::{hands_for, lanes_for};
use fx_edge::Path;
use std::alloc::{AllocError, Global};
use std::marker::Model;

/// The account of all boxes, changed by events alone. It is balanced at every moment.
#[derive(Drop)]
pub struct Core<'p, C: Cuts> {
    plan: &'p C,
    lanes: Vec<LaneBook>,
    hands: Vec<Option<OpenBox>>,
    held: Vec<OpenBox>,
    split: Vec<OpenBox>,
    settled: Vec<Path>,
    published: Vec<Path>,
}

impl<'p, C: Cuts> Model for Core<'p, C> {
    ghost use Rattle.accounts.specs.Account.{account_of};
    ghost use Rattle.accounts.specs.Planned.{Planned, planned_coded};
    ghost use Rattle.accounts.specs.Balance.{IsBalanced};

    ghost Value = { Planned C };

    ghost coded = { planned_coded C.code };

    ghost view = { λ k. record {
      plan = k.plan.now;
      account = account_of k.lanes.items k.hands.items k.held.items k.split.items
          k.settled.items k.published.items;
    } };

    ghost invariant = { λ k. IsBalanced (C.pieces_of k.plan.now)
        (account_of k.lanes.items k.hands.items k.held.items k.split.items
        k.settled.items k.published.items) };
}

// What is in the hand of a worker; none where there is no such worker.
pub(crate) fn hand_of(hands: &[Option<OpenBox>], worker: u8) -> Option<Option<OpenBox>>
    ensures { result ≡ slice_get hands.now worker }
{
    hands.get(worker as usize).copied()
}

// The path is that of the open box, which is not published, and its cut has pieces.
fn is_publishable(found: &OpenBox, path: &Path, pieces: u8) -> bool
    ensures { result
        ≡ (bytes_eq path.now found.now.path && not found.now.shown && nat_lt 0 pieces) }
{
    *path == found.path && !found.shown && 0 < pieces
}

// The path is that of this child.
fn is_child(path: &Path, parent: &Path, piece: u8) -> bool
    ensures { result ≡ bytes_eq path.now (child parent.now piece) }
{
    match path.parent() {
        Some(front) => front == *parent && path.number(front.len()) == piece,
        None => false,
    }
}

// The open box is published, and the path is that of its next child.
fn is_next(found: &OpenBox, path: &Path) -> bool
    ensures { result
        ≡ (found.now.shown && bytes_eq path.now (child found.now.path found.now.pushed)) }
{
    found.shown && is_child(path, &found.path, found.pushed)
}

impl<'p, C: Cuts> Core<'p, C> {
    /// The account of so many workers (1 to 16), where the root lies in lane 0 and all else is
    /// empty. Lack of memory is the only error.
    pub fn start(alloc: Global, plan: &'p C, workers: u8) -> Result<Core<'p, C>, AllocError>
        requires { (1 ≤ workers) × (workers ≤ 16) }
        ensures { IfOk result (λ k. (k.plan ≡ plan.now) × (k.account ≡ at_start workers)) }
    {
        let lanes = lanes_for(alloc, workers)?;
        let hands = hands_for(alloc, workers)?;
        Ok(Core {
            plan,
            lanes,
            hands,
            held: Vec::new(alloc),
            split: Vec::new(alloc),
            settled: Vec::new(alloc),
            published: Vec::new(alloc),
        })
    }

    /// Makes the event's step. `NotEnabled` comes exactly where the account doesn't enable it.
    /// After each refusal the account is as it was.
    pub fn step(&mut self, event: Event) -> Result<(), EventRefused>
        ensures ok { OnOk result ((after (C.pieces_of self.old.plan) event self.old.account
            ≡ Some self.new.account) × (self.new.plan ≡ self.old.plan)) }
        ensures err { OnErr result (self.new ≡ self.old) }
        ensures refused { IfErr result (λ e. e ≡ NotEnabled
            ↔ after (C.pieces_of self.old.plan) event self.old.account ≡ None) }
    {
        match event {
            Event::Pop { worker } => self.take(worker, worker),
            Event::Steal { worker, lane } => self.steal(worker, lane),
            Event::Publish { worker, path } => self.publish(worker, path),
            Event::Push { worker, path } => self.push(worker, path),
            Event::Settle { worker } => self.settle(worker),
            Event::Hold { worker } => self.hold(worker),
        }
    }

    // The first box of another worker's lane comes into the hand.
    fn steal(&mut self, worker: u8, lane: u8) -> Result<(), EventRefused>
        ensures ok { OnOk result ((after (C.pieces_of self.old.plan) (Steal worker lane)
            self.old.account ≡ Some self.new.account) × (self.new.plan ≡ self.old.plan)) }
        ensures err { OnErr result (self.new ≡ self.old) }
        ensures refused { IfErr result (λ e. e ≡ NotEnabled
            ↔ after (C.pieces_of self.old.plan) (Steal worker lane) self.old.account ≡ None) }
    {
        if worker == lane {
            return Err(EventRefused::NotEnabled);
        }
        self.take(worker, lane)
    }

    // The first box of a lane comes into the hand of the worker.
    fn take(&mut self, worker: u8, lane: u8) -> Result<(), EventRefused>
        ensures ok { OnOk result ((take_by self.old.account worker lane
            (slice_get self.old.account.hands worker) (slice_get self.old.account.lanes lane)
            ≡ Some self.new.account) × (self.new.plan ≡ self.old.plan)) }
        ensures err { OnErr result (self.new ≡ self.old) }
        ensures refused { IfErr result (λ e. e ≡ NotEnabled
            ↔ take_by self.old.account worker lane (slice_get self.old.account.hands worker)
            (slice_get self.old.account.lanes lane) ≡ None) }
    {
        let Some(None) = hand_of(self.hands.as_slice(), worker) else {
            return Err(EventRefused::NotEnabled);
        };
        if lane as usize >= self.lanes.len() {
            return Err(EventRefused::NotEnabled);
        }
        let book = &mut self.lanes[lane as usize];
        let Some(path) = book.first() else {
            return Err(EventRefused::NotEnabled);
        };
        let Ok(()) = book.take(worker, path) else {
            return Err(EventRefused::OutOfMemory);
        };
        self.hands[worker as usize] = Some(OpenBox {
            path,
            pushed: 0,
            shown: false,
        });
        Ok(())
    }

    // The entry of the box in the hand is published.
    fn publish(&mut self, worker: u8, path: Path) -> Result<(), EventRefused>
        ensures ok { OnOk result ((publish_by (C.pieces_of self.old.plan) self.old.account
            worker path (slice_get self.old.account.hands worker) ≡ Some self.new.account)
            × (self.new.plan ≡ self.old.plan)) }
        ensures err { OnErr result (self.new ≡ self.old) }
        ensures refused { IfErr result (λ e. e ≡ NotEnabled ↔ publish_by (C.pieces_of self.old.plan)
            self.old.account worker path (slice_get self.old.account.hands worker) ≡ None) }
    {
        let Some(Some(found)) = hand_of(self.hands.as_slice(), worker) else {
            return Err(EventRefused::NotEnabled);
        };
        if !is_publishable(&found, &path, self.plan.pieces(&found.path)) {
            return Err(EventRefused::NotEnabled);
        }
        let Ok(()) = self.published.push(found.path) else {
            return Err(EventRefused::OutOfMemory);
        };
        self.hands[worker as usize] = Some(OpenBox {
            path: found.path,
            pushed: found.pushed,
            shown: true,
        });
        Ok(())
    }

    // The next child goes into the worker's lane.
    fn push(&mut self, worker: u8, path: Path) -> Result<(), EventRefused>
        ensures ok { OnOk result ((push_by (C.pieces_of self.old.plan) self.old.account worker path
            (slice_get self.old.account.hands worker) (slice_get self.old.account.lanes worker)
            ≡ Some self.new.account) × (self.new.plan ≡ self.old.plan)) }
        ensures err { OnErr result (self.new ≡ self.old) }
        ensures refused { IfErr result (λ e. e ≡ NotEnabled
            ↔ push_by (C.pieces_of self.old.plan) self.old.account worker path (slice_get
            self.old.account.hands worker) (slice_get self.old.account.lanes worker) ≡ None) }
    {
        let Some(Some(found)) = hand_of(self.hands.as_slice(), worker) else {
            return Err(EventRefused::NotEnabled);
        };
        if worker as usize >= self.lanes.len() || !is_next(&found, &path) {
            return Err(EventRefused::NotEnabled);
        }
        let pieces = self.plan.pieces(&found.path);
        let next = OpenBox {
            path: found.path,
            pushed: found.pushed + 1,
            shown: found.shown,
        };
        let Ok(()) = self.split.reserve(1) else {
            return Err(EventRefused::OutOfMemory);
        };
        let book = &mut self.lanes[worker as usize];
        let Ok(()) = book.push(path) else {
            return Err(EventRefused::OutOfMemory);
        };
        if next.pushed == pieces {
            self.split.push_reserved(next);
            self.hands[worker as usize] = None;
            return Ok(());
        }
        self.hands[worker as usize] = Some(next);
        Ok(())
    }

    // The box in the hand is settled.
    fn settle(&mut self, worker: u8) -> Result<(), EventRefused>
        ensures ok { OnOk result
            ((settle_by self.old.account worker (slice_get self.old.account.hands worker)
            ≡ Some self.new.account) × (self.new.plan ≡ self.old.plan)) }
        ensures err { OnErr result (self.new ≡ self.old) }
        ensures refused { IfErr result (λ e. e ≡ NotEnabled
            ↔ settle_by self.old.account worker (slice_get self.old.account.hands worker) ≡ None) }
    {
        let Some(Some(found)) = hand_of(self.hands.as_slice(), worker) else {
            return Err(EventRefused::NotEnabled);
        };
        if found.shown {
            return Err(EventRefused::NotEnabled);
        }
        let Ok(()) = self.settled.push(found.path) else {
            return Err(EventRefused::OutOfMemory);
        };
        self.hands[worker as usize] = None;
        Ok(())
    }

    // The box in the hand is held.
    fn hold(&mut self, worker: u8) -> Result<(), EventRefused>
        ensures ok { OnOk result
            ((hold_by self.old.account worker (slice_get self.old.account.hands worker)
            ≡ Some self.new.account) × (self.new.plan ≡ self.old.plan)) }
        ensures err { OnErr result (self.new ≡ self.old) }
        ensures refused { IfErr result (λ e. e ≡ NotEnabled
            ↔ hold_by self.old.account worker (slice_get self.old.account.hands worker) ≡ None) }
    {
        let Some(Some(found)) = hand_of(self.hands.as_slice(), worker) else {
            return Err(EventRefused::NotEnabled);
        };
        let Ok(()) = self.held.push(found) else {
            return Err(EventRefused::OutOfMemory);
        };
        self.hands[worker as usize] = None;
        Ok(())
    }

    // The account is balanced.
    pub(crate) fn keeps(&self)
        ensures { IsBalanced (C.pieces_of self.now.plan) self.now.account }
    {
        let _ = &self.settled;
    }

    /// The settled paths, in the order in which they were settled.
    pub fn settled(&self) -> &[Path]
        ensures { result.now ≡ self.now.account.settled }
    {
        self.settled.as_slice()
    }
}
