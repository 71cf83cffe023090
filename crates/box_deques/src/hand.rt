//! The passes and counts of one worker.
ghost use Rattle.std.specs.Prelude.{◌≡◌, ◌+◌, ◌<◌, ◌≤◌, true, [], None, Some, IsSome, length};
ghost use Rattle.crossbeam_deque.specs.Handles.{view};
ghost use Rattle.box_deques.specs.Seen.{without_pass, with_pass, seat_at, hand_with};
ghost use Rattle.box_deques.specs.Views.{guest};

use crate::rule::{PlacedTask, View};
use crossbeam_deque::Pass;
use fx_edge::Path;
use std::marker::Model;

/// What a hand has of one lane: its pass, its takes and its empty steals.
#[derive(Drop)]
pub struct Seat<T: Drop> {
    pub(crate) pass: Option<Pass<PlacedTask<T>, View>>,
    pub(crate) hand: u8,
    pub(crate) room: u32,
    pub(crate) takes: Vec<(u64, Path)>,
    pub(crate) empty: u64,
}

impl<T: Drop> Model for Seat<T> {
    ghost use Rattle.std.specs.Prelude.{◌≡◌, ◌≤◌, ◌+◌, true, None, vec_capacity, MatchOption};
    ghost use Rattle.crossbeam_deque.specs.Handles.{view as pass_view};
    ghost use Rattle.box_deques.specs.Seen as seen;

    ghost Value = { seen.Seat };

    ghost view = { λ s. record {
      hand = s.hand;
      room = s.room;
      lane = seen.lane_of s.pass;
      takes = s.takes.items;
      empty = s.empty;
    } };

    ghost invariant = { λ s.
        (MatchOption s.pass (Unit {0}) (λ p.
        ((pass_view p).live ≡ true)
        × ((pass_view p).party ≡ s.hand + 1)
        × ((pass_view p).takes ≡ s.takes.items)
        × (p.me.hand ≡ None)
        × (p.me.spare ≡ None)))
        × (s.room ≤ vec_capacity s.takes) };
}

impl<T: Drop> Seat<T> {
    // Gives up its pass.
    pub(crate) fn surrender(&mut self) -> Pass<PlacedTask<T>, View>
        requires { IsSome self.old.lane }
        ensures seat { self.new ≡ without_pass self.old }
        ensures pass { (self.old.lane ≡ Some result.rows)
            × (result.me.hand ≡ None) × (result.me.spare ≡ None) }
        ensures knows { ((view result).live ≡ true)
            × ((view result).party ≡ self.old.hand + 1)
            × ((view result).takes ≡ self.old.takes) }
    {
        match self.pass.take() {
            Some(pass) => pass,
            None => unreachable!(),
        }
    }
}

/// A worker's hand. It has a seat for each lane. Contracts see its number and its seats.
#[derive(Drop)]
pub struct Hand<T: Drop> {
    pub(crate) number: u8,
    pub(crate) seats: Vec<Seat<T>>,
}

impl<T: Drop> Model for Hand<T> {
    ghost use Rattle.box_deques.specs.Seen as seen;

    ghost Value = { seen.Hand };

    ghost view = { λ h. record { number = h.number; seats = h.seats.items } };
}

impl<T: Drop> Hand<T> {
    // Gives up its pass on a lane.
    pub(crate) fn surrender(&mut self, lane: usize) -> Pass<PlacedTask<T>, View>
        requires room { lane < length self.old.seats }
        requires pass { IsSome (seat_at self.old.seats lane).lane }
        ensures hand { self.new ≡ hand_with self.old lane without_pass }
        ensures pass { ((seat_at self.old.seats lane).lane ≡ Some result.rows)
            × (result.me.hand ≡ None) × (result.me.spare ≡ None) }
        ensures knows { ((view result).live ≡ true)
            × ((view result).party ≡ (seat_at self.old.seats lane).hand + 1)
            × ((view result).takes ≡ (seat_at self.old.seats lane).takes) }
    {
        let seat = &mut self.seats[lane];
        seat.surrender()
    }
}

impl<T: Drop> Seat<T> {
    // What the hand took there.
    pub(crate) fn takes(&self) -> &[(u64, Path)]
        ensures { result.now ≡ self.now.takes }
    {
        self.takes.as_slice()
    }
}

impl<T: Drop> Hand<T> {
    // What it took of a lane.
    pub(crate) fn takes(&self, lane: usize) -> &[(u64, Path)]
        requires { lane < length self.now.seats }
        ensures { result.now ≡ (seat_at self.now.seats lane).takes }
    {
        let seat = &self.seats[lane];
        seat.takes()
    }
}

impl<T: Drop> Seat<T> {
    // Takes a new pass.
    pub(crate) fn take_pass(&mut self, pass: Pass<PlacedTask<T>, View>)
        requires fresh { self.old.takes ≡ [] }
        requires pass { (pass.me.hand ≡ None) × (pass.me.spare ≡ None)
            × (view pass ≡ guest self.old.hand) }
        ensures { self.new ≡ with_pass self.old pass.rows }
    {
        self.pass = Some(pass);
    }
}

impl<T: Drop> Hand<T> {
    // Takes a new pass on a lane.
    pub(crate) fn take_pass(&mut self, lane: usize, pass: Pass<PlacedTask<T>, View>)
        requires room { lane < length self.old.seats }
        requires fresh { (seat_at self.old.seats lane).takes ≡ [] }
        requires pass { (pass.me.hand ≡ None) × (pass.me.spare ≡ None)
            × (view pass ≡ guest (seat_at self.old.seats lane).hand) }
        ensures { self.new ≡ hand_with self.old lane (λ s. with_pass s pass.rows) }
    {
        let seat = &mut self.seats[lane];
        seat.take_pass(pass);
    }
}
