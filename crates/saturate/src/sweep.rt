//! A sweep: instances in one fixed order, whose conclusions come at once. So what changed goes
//! through a chain of instances at once, where a round takes it one further.
ghost use Rattle.std.specs.Prelude.{◌≡◌, ◌⊎◌, ◌<◌, ◌≤◌, ◌+◌, ℕ, suc, Some, None, IsTrue, IfOk};
ghost use Rattle.std.specs.Prelude.{IfSome, OnOk, length, slice_get, Contains, replicate, false};
ghost use Rattle.facts.specs.declared.fact.Fact.{Fact as Conclusion};
ghost use Rattle.facts.specs.declared.fact.Slot.TheVariants as slot;
ghost use Rattle.facts.specs.Order.{slot_of, IsStronger};
ghost use Rattle.derivation.specs.Derivations.{At, Derives};
ghost use Rattle.derivation.specs.Rounds.{InTable, all_at, IsBestFrom};
ghost use Rattle.derivation.specs.Changes.{IsQuiet};
ghost use Rattle.rule_universe.specs.declared.placed.Placed.{Placed as Placement};
ghost use Rattle.rule_universe.specs.Placed.{slots_of, IsPlaced};
ghost use Rattle.rule_universe.specs.Places.{IsPlace, place_count};
ghost use Rattle.saturate.specs.Universes.{setting_by};
ghost use Rattle.saturate.specs.Closed.{IsClosedUnder, IsQuietBut};
ghost use Rattle.saturate.specs.Keeping.{IsConcludedBy};
ghost use Rattle.saturate.specs.Sweeping.{IsSwept, IsSweeping, IsQuietApart, IsRead, AreAtMost};
ghost use Rattle.saturate.specs.Sweeping.{NoneDue, IsCourse, IsEnded};

use crate::change::Change;
use crate::conclusions::Concludes;
use crate::instances::{instance_at, target_place};
use crate::marks::{mark_from, mark_users};
use crate::sweeps::Sweeps;
use crate::table::refill;
use crate::taken::{Course, Taken};
use facts::{Fact, Slot, slot, stronger};
use rule_universe::{Placed, Universe};
use std::alloc::{AllocError, Global};

// How often all instances are gone through at most.
const PASSES: u8 = 255;

/// Memory for sweeps. What it holds doesn't matter to any call.
#[derive(Drop)]
pub struct SweepWork {
    // Which instances may conclude more than is known.
    due: Vec<bool>,
    // By place of a slot, a height within which its fact is derived.
    heights: Vec<u8>,
    // The premises of one instance.
    premises: Vec<Fact>,
    // How many steps the sweep may take yet.
    left: usize,
}

impl SweepWork {
    /// Asks for no memory yet.
    pub fn new(alloc: Global) -> SweepWork {
        SweepWork {
            due: Vec::new(alloc),
            heights: Vec::new(alloc),
            premises: Vec::new(alloc),
            left: 0,
        }
    }

    // Nothing is derived by any instance so far.
    fn flatten(&mut self, uni: &Universe) -> Result<(), AllocError>
        ensures heights { OnOk result (self.new.heights.items
            ≡ replicate (place_count (length uni.now.nodes) uni.now.pairs) 0) }
        ensures due { self.new.due ≡ self.old.due }
    {
        uni.laws();
        self.heights.clear();
        self.heights.resize(uni.place(Slot::Void) as usize + 1, 0)?;
        Ok(())
    }

    // Makes it ready for a sweep that begins with these instances.
    pub(crate) fn begin_with(&mut self, uni: &Universe, due: &[bool]) -> Result<(), AllocError>
        ensures due { OnOk result (self.new.due.items ≡ due.now) }
        ensures heights { OnOk result (self.new.heights.items
            ≡ replicate (place_count (length uni.now.nodes) uni.now.pairs) 0) }
    {
        refill(&mut self.due, due)?;
        self.flatten(uni)
    }

    // Makes it ready for a sweep that begins with no instance.
    fn begin(&mut self, uni: &Universe) -> Result<(), AllocError>
        ensures due { OnOk result (self.new.due.items
            ≡ replicate (length uni.now.instances) false) }
        ensures heights { OnOk result (self.new.heights.items
            ≡ replicate (place_count (length uni.now.nodes) uni.now.pairs) 0) }
    {
        self.due.clear();
        self.due.resize(uni.instances().len(), false)?;
        self.flatten(uni)
    }
}

// The greater one.
#[inline(always)]
fn greater(a: u8, b: u8) -> u8
    ensures first { a ≤ result }
    ensures second { b ≤ result }
{
    if a < b { b } else { a }
}

// Whether no instance is due.
fn none_due(due: &[bool]) -> bool
    ensures { IsTrue result → NoneDue due.now }
{
    for is_due in due {
        if *is_due {
            return false;
        }
    }
    true
}

// Reads the facts of premises, and gives the greatest of their heights; nothing where one of them
// is missing.
#[inline(always)]
fn read<C: Concludes, K: Sweeps<C>>(
    uni: &Universe,
    placed: &[Placed],
    kept: &K,
    heights: &[u8],
    premises: &mut Vec<Fact>,
) -> Result<Option<u8>, AllocError>
    requires fits { K.fits uni.now kept.now }
    requires within { (p : Placement) → Contains placed.now p → p.place < length heights.now }
    requires placed { (p : Placement) → Contains placed.now p
        → IsPlaced (length uni.now.nodes) uni.now.pairs p }
    ensures read { IfOk result (λ top. IsRead top
        (all_at (K.facts uni.now kept.now) (slots_of placed.now)) premises.new.items) }
    ensures heights { IfOk result (λ top. AreAtMost top heights.now placed.now) }
{
    premises.clear();
    let mut top = 0u8;
    for p in placed {
        match kept.fact_on(uni, *p) {
            Some(f) => premises.push(f)?,
            None => return Ok(None),
        }
        top = greater(top, heights[p.place as usize]);
    }
    Ok(Some(top))
}

// A height within which what stands on the slot of c now is derived, where c is within so much and
// what stood there before within `old`. Where c alone stands there, `old` doesn't matter.
#[inline(always)]
fn height_now<C: Concludes, K: Sweeps<C>>(
    uni: &Universe,
    kept: &K,
    c: &Fact,
    place: u16,
    above: u8,
    old: u8,
) -> u8
    requires fits { K.fits uni.now kept.now }
    requires placed { IsPlace (length uni.now.nodes) uni.now.pairs (slot_of c.now) place }
    ensures above { above ≤ result }
    ensures old { (f : Conclusion) → K.facts uni.now kept.now (slot_of c.now) ≡ Some f
        → IsStronger c.now f ⊎ (old ≤ result) }
{
    let placed = Placed {
        slot: slot(c),
        place,
    };
    match kept.fact_on(uni, placed) {
        Some(f) => {
            if stronger(c, &f) {
                above
            } else {
                greater(above, old)
            }
        }
        None => greater(above, old),
    }
}

// What an instance concluded.
#[derive(Clone, Copy)]
struct Found {
    // The number of the instance, from 0.
    instance: usize,
    // The place of its target among all slots of the universe.
    place: u16,
    // The conclusion: a fact on the target, or VOID.
    fact: Fact,
}

// Takes what an instance concluded from premises of the height `top`. It stands one higher; if it
// says more than is known, and that is above `height`, the sweep is lost.
#[inline(always)]
fn take<C: Concludes, K: Sweeps<C>>(
    uni: &Universe,
    found: Found,
    top: u8,
    height: u8,
    kept: &mut K,
    work: &mut SweepWork,
) -> Result<Course, AllocError>
    requires fits { K.fits uni.now kept.old }
    requires swept { (first : At) × IsSwept (setting_by C.rules uni.now) uni.now first height
        (K.facts uni.now kept.old) work.old.heights.items }
    requires long { length work.old.due.items ≡ length uni.now.instances }
    requires concluded { IsConcludedBy C.rules uni.now (K.facts uni.now kept.old)
        found.instance found.place found.fact }
    ensures taken { IfOk result (λ course. (first : At)
        → IsSwept (setting_by C.rules uni.now) uni.now first height (K.facts uni.now kept.old)
        work.old.heights.items
        → Derives (setting_by C.rules uni.now) (InTable first) (suc top) found.fact
        → IsQuietApart (setting_by C.rules uni.now) found.instance work.old.due.items
        (K.facts uni.now kept.old)
        → IsCourse course (IsSweeping (setting_by C.rules uni.now) uni.now first height
        (K.facts uni.now kept.new) work.new.heights.items work.new.due.items)
        (IsEnded (setting_by C.rules uni.now) first height (K.facts uni.now kept.new))) }
    ensures fits { IfOk result (λ _. K.fits uni.now kept.new) }
    ensures came { IfOk result (λ _. (first : K)
        → K.came uni.now first kept.old → K.came uni.now first kept.new) }
    ensures left { work.new.left ≡ work.old.left }
{
    uni.laws();
    C::rules_are_lawful();
    K::sweeps_are_whole();
    let Found {
        instance: k,
        place,
        fact: c,
    } = found;
    let taken = kept.take(uni, k, place, c)?;
    match taken {
        Taken::Same => Ok(Course::On),
        Taken::More => {
            if top >= height {
                return Ok(Course::Lost);
            }
            let old = work.heights[place as usize];
            work.heights[place as usize] = height_now::<C, K>(uni, kept, &c, place, top + 1, old);
            mark_users(&mut work.due, uni.users_at(place));
            Ok(Course::On)
        }
        Taken::Void => {
            if top < height {
                Ok(Course::Best)
            } else {
                Ok(Course::Lost)
            }
        }
        Taken::Full => Ok(Course::Lost),
    }
}

// Applies the instance with this number to what is known, and it is due no more then. The sweep
// ends where no steps are left, VOID is found or a height is passed.
#[inline(always)]
fn visit<C: Concludes, K: Sweeps<C>>(
    uni: &Universe,
    k: usize,
    height: u8,
    kept: &mut K,
    work: &mut SweepWork,
    steps: &mut C,
) -> Result<Course, AllocError>
    requires within { k < length uni.now.instances }
    requires fits { K.fits uni.now kept.old }
    requires sweeping { (first : At) × IsSweeping (setting_by C.rules uni.now) uni.now first height
        (K.facts uni.now kept.old) work.old.heights.items work.old.due.items }
    ensures visited { IfOk result (λ course. (first : At)
        → IsSweeping (setting_by C.rules uni.now) uni.now first height (K.facts uni.now kept.old)
        work.old.heights.items work.old.due.items
        → IsCourse course (IsSweeping (setting_by C.rules uni.now) uni.now first height
        (K.facts uni.now kept.new) work.new.heights.items work.new.due.items)
        (IsEnded (setting_by C.rules uni.now) first height (K.facts uni.now kept.new))) }
    ensures fits { IfOk result (λ _. K.fits uni.now kept.new) }
    ensures came { IfOk result (λ _. (first : K)
        → K.came uni.now first kept.old → K.came uni.now first kept.new) }
    ensures cost { C.asked steps.new + work.new.left ≤ C.asked steps.old + work.old.left }
{
    uni.laws();
    C::rules_are_lawful();
    K::sweeps_are_whole();
    work.due[k] = false;
    let instance = instance_at(uni, k);
    let placed = uni.premises(k);
    let read = read::<C, K>(uni, placed, kept, &work.heights, &mut work.premises)?;
    let Some(top) = read else {
        return Ok(Course::On);
    };
    if work.left == 0 {
        return Ok(Course::Lost);
    }
    work.left -= 1;
    let place = target_place(uni, k);
    match steps.conclude(uni.dag(), uni.hints(), instance, &work.premises) {
        Some(c) => {
            let found = Found {
                instance: k,
                place,
                fact: c,
            };
            take::<C, K>(uni, found, top, height, kept, work)
        }
        None => Ok(Course::On),
    }
}

// Goes once through the instances and applies those that are due, up to one that ends the sweep.
fn pass<C: Concludes, K: Sweeps<C>>(
    uni: &Universe,
    height: u8,
    kept: &mut K,
    work: &mut SweepWork,
    steps: &mut C,
) -> Result<Course, AllocError>
    requires fits { K.fits uni.now kept.old }
    requires sweeping { (first : At) × IsSweeping (setting_by C.rules uni.now) uni.now first height
        (K.facts uni.now kept.old) work.old.heights.items work.old.due.items }
    ensures passed { IfOk result (λ course. (first : At)
        → IsSweeping (setting_by C.rules uni.now) uni.now first height (K.facts uni.now kept.old)
        work.old.heights.items work.old.due.items
        → IsCourse course (IsSweeping (setting_by C.rules uni.now) uni.now first height
        (K.facts uni.now kept.new) work.new.heights.items work.new.due.items)
        (IsEnded (setting_by C.rules uni.now) first height (K.facts uni.now kept.new))) }
    ensures fits { IfOk result (λ _. K.fits uni.now kept.new) }
    ensures came { IfOk result (λ _. (first : K)
        → K.came uni.now first kept.old → K.came uni.now first kept.new) }
    ensures cost { C.asked steps.new + work.new.left ≤ C.asked steps.old + work.old.left }
{
    for k in uni.order() {
        if work.due[*k as usize] {
            let course = visit::<C, K>(uni, *k as usize, height, kept, work, steps)?;
            match course {
                Course::On => {}
                ended => return Ok(ended),
            }
        }
    }
    Ok(Course::On)
}

// Sweeps where instances that aren't due have nothing to add. It is true where what is known is the
// best of at most this height then, and no instance concludes more, unless VOID is known. No more
// steps are taken than `budget`.
pub(crate) fn sweep<C: Concludes, K: Sweeps<C>>(
    uni: &Universe,
    height: u8,
    budget: usize,
    kept: &mut K,
    work: &mut SweepWork,
    steps: &mut C,
) -> Result<bool, AllocError>
    requires fits { K.fits uni.now kept.old }
    requires no_void { K.facts uni.now kept.old slot.Void ≡ None }
    requires due { length work.old.due.items ≡ length uni.now.instances }
    requires heights { length work.old.heights.items
        ≡ place_count (length uni.now.nodes) uni.now.pairs }
    requires quiet { IsQuiet (setting_by C.rules uni.now) work.old.due.items
        (K.facts uni.now kept.old) }
    ensures best { IfOk result (λ best. IsTrue best → IsBestFrom (setting_by C.rules uni.now)
        (K.facts uni.now kept.old) height (K.facts uni.now kept.new)) }
    ensures closed { IfOk result (λ best. IsTrue best → K.facts uni.now kept.new slot.Void ≡ None
        → IsClosedUnder (setting_by C.rules uni.now) (K.facts uni.now kept.new)) }
    ensures fits { IfOk result (λ _. K.fits uni.now kept.new) }
    ensures came { IfOk result (λ _. K.came uni.now kept.old kept.new) }
    ensures cost { C.asked steps.new ≤ C.asked steps.old + budget }
{
    uni.laws();
    C::rules_are_lawful();
    K::sweeps_are_whole();
    work.left = budget;
    for _ in 0..PASSES {
        let course = pass::<C, K>(uni, height, kept, work, steps)?;
        match course {
            Course::On => {}
            Course::Best => return Ok(true),
            Course::Lost => return Ok(false),
        }
        if none_due(&work.due) {
            return Ok(true);
        }
    }
    Ok(false)
}

/// Lets come the best facts of at most the change's height over those that are kept, by a sweep,
/// where only instances that take the changed slot, if there is one, may have something to add. It
/// is true where it came to that. No more conclusions are asked for than `budget`.
pub fn sweep_below<C: Concludes, K: Sweeps<C>>(
    uni: &Universe,
    kept: &mut K,
    change: Change,
    budget: usize,
    work: &mut SweepWork,
    steps: &mut C,
) -> Result<bool, AllocError>
    requires fits { K.fits uni.now kept.old }
    requires no_void { K.facts uni.now kept.old slot.Void ≡ None }
    requires placed { IfSome change.slot (λ s.
        IsPlace (length uni.now.nodes) uni.now.pairs s change.place) }
    requires quiet { IsQuietBut (setting_by C.rules uni.now) change.slot
        (K.facts uni.now kept.old) }
    // Where it's true, the facts are the best that derivations of this height conclude from those
    // before.
    ensures best { IfOk result (λ best. IsTrue best → IsBestFrom (setting_by C.rules uni.now)
        (K.facts uni.now kept.old) change.height (K.facts uni.now kept.new)) }
    // Then no instance concludes more, unless VOID is known.
    ensures closed { IfOk result (λ best. IsTrue best → K.facts uni.now kept.new slot.Void ≡ None
        → IsClosedUnder (setting_by C.rules uni.now) (K.facts uni.now kept.new)) }
    ensures fits { IfOk result (λ _. K.fits uni.now kept.new) }
    // They came by conclusions that came one after another.
    ensures came { IfOk result (λ _. K.came uni.now kept.old kept.new) }
    ensures cost { C.asked steps.new ≤ C.asked steps.old + budget }
{
    K::sweeps_are_whole();
    if uni.order().is_empty() {
        return Ok(false);
    }
    work.begin(uni)?;
    mark_from(uni, change, &mut work.due);
    sweep(uni, change.height, budget, kept, work, steps)
}
