//! What is known at a box: for each slot at most one fact, with the number of its step.
ghost use Rattle.std.specs.Prelude.{◌≡◌, ◌<◌, ◌↔◌, false, Some, IsTrue, IfOk, OnOk, length};
ghost use Rattle.std.specs.Prelude.{slice_set};
ghost use Rattle.facts.specs.declared.fact.Fact.TheVariants as fact;
ghost use Rattle.facts.specs.declared.fact.Slot.TheVariants as slot;
ghost use Rattle.derivation.specs.Rounds.{IsBlank};
ghost use Rattle.rule_universe.specs.Worlds.{HasSlot};
ghost use Rattle.rule_universe.specs.Places.{place_count};
ghost use Rattle.rule_universe.specs.Placed.{IsPlaced};
ghost use Rattle.box_trace.specs.Tables.{row_in, flat, fact_of, number_of, number_or, known_at};
ghost use Rattle.box_trace.specs.Tables.{step_at, place_in, HasRows};

use facts::{Fact, Slot};
use rule_universe::{Placed, Universe};
use std::alloc::{AllocError, Global};

/// A fact with the number of its step.
#[derive(Clone, Copy, Debug)]
pub(crate) struct Cited {
    pub(crate) fact: Fact,
    pub(crate) number: u64,
}

/// At most one fact for each slot of a universe, each with the number of its step.
#[derive(Drop)]
pub struct Known {
    // By the places of slots.
    pub(crate) rows: Vec<Option<Cited>>,
    // Where it's true, no instance concludes more than is known.
    pub(crate) closed: bool,
}

fn flat(row: Option<Option<Cited>>) -> Option<Cited>
    ensures { result ≡ flat row }
{
    match row {
        Some(found) => found,
        None => None,
    }
}

fn fact_of(row: Option<Cited>) -> Option<Fact>
    ensures { result ≡ fact_of row }
{
    match row {
        Some(found) => Some(found.fact),
        None => None,
    }
}

fn number_of(row: Option<Cited>) -> Option<u64>
    ensures { result ≡ number_of row }
{
    match row {
        Some(found) => Some(found.number),
        None => None,
    }
}

fn number_or(row: Option<Cited>) -> u64
    ensures { result ≡ number_or row }
{
    match row {
        Some(found) => found.number,
        None => 0,
    }
}

impl Known {
    // Nothing is known.
    pub(crate) fn blank(alloc: Global, uni: &Universe) -> Result<Known, AllocError>
        ensures blank { IfOk result (λ k. IsBlank (known_at uni.now k)) }
        ensures rows { IfOk result
            (λ k. length k.rows.items ≡ place_count (length uni.now.nodes) uni.now.pairs) }
        ensures unsaid { IfOk result (λ k. k.closed ≡ false) }
    {
        let count = uni.place(Slot::Void) as usize + 1;
        Ok(Known {
            rows: vec![in alloc; None; count]?,
            closed: false,
        })
    }

    // No rows, in no memory.
    pub(crate) fn bare(alloc: Global) -> Known {
        Known {
            rows: Vec::new(alloc),
            closed: false,
        }
    }

    // The same in memory of its own, of which nobody says that it's closed.
    pub(crate) fn copy(&self, alloc: Global) -> Result<Known, AllocError>
        ensures rows { IfOk result (λ k. k.rows.items ≡ self.now.rows.items) }
        ensures unsaid { IfOk result (λ k. k.closed ≡ false) }
    {
        Ok(Known {
            rows: Vec::from_slice(alloc, &self.rows)?,
            closed: false,
        })
    }

    // Makes it the same as another.
    pub(crate) fn copy_from(&mut self, other: &Known) -> Result<(), AllocError>
        ensures { OnOk result (self.new.rows.items ≡ other.now.rows.items) }
    {
        self.rows.clear();
        self.rows.extend_from_slice(&other.rows)?;
        Ok(())
    }

    // The row with this place.
    pub(crate) fn at(&self, place: u16) -> Option<Cited>
        ensures { result ≡ row_in self.now.rows.items (Some place) }
    {
        flat(self.rows.get(place as usize).copied())
    }

    // Puts a fact with its number into the row with this place.
    pub(crate) fn put(&mut self, place: u16, row: Cited)
        requires { place < length self.old.rows.items }
        ensures rows { self.new.rows.items ≡ slice_set self.old.rows.items place (Some row) }
        ensures unsaid { self.new.closed ≡ false }
    {
        self.rows[place as usize] = Some(row);
        self.closed = false;
    }

    // The fact on a slot whose place is known.
    pub(crate) fn fact_at(&self, uni: &Universe, placed: Placed) -> Option<Fact>
        requires { IsPlaced (length uni.now.nodes) uni.now.pairs placed }
        ensures { result ≡ known_at uni.now self.now placed.slot }
    {
        uni.laws();
        fact_of(self.at(placed.place))
    }

    // The number of its step, or 0 where none is known.
    pub(crate) fn number_at(&self, uni: &Universe, placed: Placed) -> u64
        requires { IsPlaced (length uni.now.nodes) uni.now.pairs placed }
        ensures { result ≡ place_in uni.now self.now placed.slot }
    {
        uni.laws();
        number_or(self.at(placed.place))
    }

    /// The fact on this slot of the universe; `None` exactly where none is known.
    pub fn strongest(&self, uni: &Universe, s: Slot) -> Option<Fact>
        requires { HasSlot uni.now s }
        ensures { result ≡ known_at uni.now self.now s }
    {
        uni.laws();
        fact_of(self.at(uni.place(s)))
    }

    /// The number of the step with the fact on this slot of the universe; `None` exactly where none
    /// is known.
    pub fn step(&self, uni: &Universe, s: Slot) -> Option<u64>
        requires { HasSlot uni.now s }
        ensures { result ≡ step_at uni.now self.now s }
    {
        uni.laws();
        number_of(self.at(uni.place(s)))
    }

    /// Whether VOID is known.
    pub fn is_void(&self, uni: &Universe) -> bool
        requires { HasRows uni.now self.now }
        ensures { IsTrue result ↔ (known_at uni.now self.now slot.Void ≡ Some fact.Void) }
    {
        uni.laws();
        match self.at(uni.place(Slot::Void)) {
            Some(_) => true,
            None => false,
        }
    }
}
