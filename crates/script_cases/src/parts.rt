// Conjunctions and parts over one list of items.
ghost use Rattle.std.specs.Prelude.{◌≡◌, ◌⊎◌, ◌<◌, ◌≤◌, ◌++◌, [], Some, length, slice_get};
ghost use Rattle.std.specs.Prelude.{get_or, IfOk, OnOk, OnErr};
ghost use Rattle.std.specs.List.{AllByRecursion, flat_map};
ghost use Rattle.script_cases.specs.Cases.{cases, case_count};
ghost use Rattle.script_cases.specs.Gaps.{gaps, AreRising};
ghost use Rattle.script_cases.specs.Marks.{pieces, start_at};
ghost use Rattle.script_cases.specs.Parts as spec;

use crate::conjunctions::{Conjunctions, conjunction};
use std::alloc::{AllocError, Global};
use std::marker::Model;

/// Items in the order of reading, with the ends of their conjunctions and of their parts.
#[derive(Drop)]
pub struct Parts<T: Copy> {
    items: Vec<T>,
    // How many items stand before the end of each conjunction that has ended.
    ends: Vec<usize>,
    // How many conjunctions stand before the end of each part that has ended.
    parts: Vec<usize>,
}

impl<T: Copy> Model for Parts<T> {
    ghost use Rattle.script_cases.specs.Parts.{Parts as View};
    ghost use Rattle.script_cases.specs.Marks.{parts_by, AreMarks};

    ghost Value = { View T };

    ghost view = { λ p. parts_by p.items.items p.ends.items p.parts.items };

    ghost invariant = { λ p. AreMarks p.items.items p.ends.items p.parts.items };
}

// The product of the lengths between these places, of which there are few.
fn product(places: &[usize]) -> usize
    requires rising { AreRising 0 places.now }
    requires few { gaps 0 places.now ≤ 64 }
    ensures { result ≡ gaps 0 places.now }
{
    let mut places = places;
    let mut from = 0;
    let mut product = 1;
    while let [end, later @ ..] = places {
        product *= *end - from;
        from = *end;
        places = later;
    }
    product
}

// The place at which the piece with this number begins: the one before it, or 0.
pub(crate) fn start_at(places: &[usize], number: usize) -> usize
    requires { number ≤ length places.now }
    ensures { result ≡ start_at 0 places.now number }
{
    if number > 0 { places[number - 1] } else { 0 }
}

// Adds the items of the conjunction with this number.
fn add_conjunction<T: Copy>(
    case: &mut Vec<T>,
    items: &[T],
    ends: &[usize],
    number: usize,
) -> Result<(), AllocError>
    requires number { number < length ends.now }
    requires within { AllByRecursion (λ e. e ≤ length items.now) ends.now }
    ensures { OnOk result (case.new.items
        ≡ case.old.items ++ get_or (pieces 0 items.now ends.now) number []) }
{
    case.extend_from_slice(conjunction(items, ends, number))?;
    Ok(())
}

impl<T: Copy> Parts<T> {
    /// No items. It takes no memory.
    pub fn new(alloc: Global) -> Parts<T>
        ensures { result ≡ spec.nothing }
    {
        Parts {
            items: Vec::new(alloc),
            ends: Vec::new(alloc),
            parts: Vec::new(alloc),
        }
    }

    /// One more item of the conjunction in hand.
    pub fn add(&mut self, item: T) -> Result<(), AllocError>
        ensures added { OnOk result (self.new ≡ spec.with_item self.old item) }
        ensures refused { OnErr result (self.new ≡ self.old) }
    {
        self.items.push(item)?;
        Ok(())
    }

    /// Ends the conjunction in hand: a `\/` stands behind it.
    pub fn end_conjunction(&mut self) -> Result<(), AllocError>
        ensures ended { OnOk result (self.new ≡ spec.behind_or self.old) }
        ensures refused { OnErr result (self.new ≡ self.old) }
    {
        self.ends.push(self.items.len())?;
        Ok(())
    }

    /// Ends the part in hand: a `->` stands behind it. After an `Err` it is not to be used on.
    pub fn end_part(&mut self) -> Result<(), AllocError>
        ensures ended { OnOk result (self.new ≡ spec.behind_arrow self.old) }
        ensures kept { self.new.items ≡ self.old.items }
        ensures refused { OnErr result
            ((self.new ≡ self.old) ⊎ (self.new ≡ spec.behind_or self.old)) }
    {
        self.end_conjunction()?;
        self.parts.push(self.ends.len())?;
        Ok(())
    }

    /// All items.
    pub fn items(&self) -> &[T]
        ensures { result.now ≡ self.now.items }
    {
        self.items.as_slice()
    }

    /// How many cases there are of the parts that have ended, where they are few.
    pub fn case_count(&self) -> usize
        requires { case_count self.now.before ≤ 64 }
        ensures count { result ≡ case_count self.now.before }
        ensures some { 0 < result }
    {
        product(self.parts.as_slice())
    }

    /// The conjunctions that the case with this number takes, of the parts that have ended.
    pub fn conjunctions(&self, number: usize) -> Conjunctions<'_, T>
        requires few { case_count self.now.before ≤ 64 }
        requires number { number < case_count self.now.before }
        ensures { slice_get (cases self.now.before) number ≡ Some (flat_map (λ c. c) result) }
    {
        let parts = self.parts.as_slice();
        Conjunctions::new(
            self.items.as_slice(),
            self.ends.as_slice(),
            parts,
            product(parts),
            number,
        )
    }

    /// The items of the case with this number, of those of the parts that have ended.
    pub fn case(&self, alloc: Global, number: usize) -> Result<Vec<T>, AllocError>
        requires few { case_count self.now.before ≤ 64 }
        requires number { number < case_count self.now.before }
        ensures { IfOk result (λ case. slice_get (cases self.now.before) number ≡ Some case.items) }
    {
        take_case(
            alloc,
            self.items.as_slice(),
            self.ends.as_slice(),
            self.parts.as_slice(),
            number,
        )
    }
}

// The items of the case with this number.
fn take_case<T: Copy>(
    alloc: Global,
    items: &[T],
    ends: &[usize],
    parts: &[usize],
    number: usize,
) -> Result<Vec<T>, AllocError>
    requires ends_within { AllByRecursion (λ e. e ≤ length items.now) ends.now }
    requires parts_within { AllByRecursion (λ e. e ≤ length ends.now) parts.now }
    requires rising { AreRising 0 parts.now }
    requires few { gaps 0 parts.now ≤ 64 }
    requires number { number < gaps 0 parts.now }
    ensures { IfOk result (λ case.
        slice_get (cases (pieces 0 (pieces 0 items.now ends.now) parts.now)) number
        ≡ Some case.items) }
{
    let mut case = Vec::new(alloc);
    let mut left = product(parts);
    let mut number = number;
    let mut from = 0;
    let mut parts = parts;
    while let [end, later @ ..] = parts {
        left /= *end - from;
        add_conjunction(&mut case, items, ends, from + number / left)?;
        number %= left;
        from = *end;
        parts = later;
    }
    Ok(case)
}
