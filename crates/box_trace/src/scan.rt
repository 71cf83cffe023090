//! Which conclusions of a round give the ends of a slot's fact, and what their premises are.
ghost use Rattle.std.specs.Prelude.{◌≡◌, ◌<◌, Some, None, IfOk, OnOk, length, slice_get, map};
ghost use Rattle.std.specs.Prelude.{replicate, Contains};
ghost use Rattle.facts.specs.declared.instance.Instance.{Instance as Applied};
ghost use Rattle.theorem_list.specs.Concludes.{concludes};
ghost use Rattle.rule_universe.specs.declared.placed.Placed.{Placed as Placement};
ghost use Rattle.rule_universe.specs.Places.{place_count};
ghost use Rattle.rule_universe.specs.Placed.{IsPlaced, slots_of};
ghost use Rattle.saturate.specs.Keeping.{IsConcludedBy};
ghost use Rattle.box_trace.specs.Tables.{row_in, known_at, place_in};
ghost use Rattle.box_trace.specs.Scans.{IsBeaten, IsWith, IsNoted, IsVisited};

use crate::ends::{Ends, Found};
use crate::known::Known;
use facts::{Fact, stronger};
use rule_universe::{Placed, Universe};
use saturate::{instance_at, rules_are_lawful};
use std::alloc::{AllocError, Global};

// The steps of these premises.
fn numbers_of(
    alloc: Global,
    uni: &Universe,
    now: &Known,
    placed: &[Placed],
) -> Result<Vec<u64>, AllocError>
    requires { (p : Placement) → Contains placed.now p
        → IsPlaced (length uni.now.nodes) uni.now.pairs p }
    ensures { IfOk result (λ ns. ns.items ≡ map (place_in uni.now now.now) (slots_of placed.now)) }
{
    let mut numbers = Vec::new(alloc);
    for p in placed {
        let number = now.number_at(uni, *p);
        numbers.push(number)?;
    }
    Ok(numbers)
}

// The steps of the instance's premises.
pub(crate) fn cite(
    alloc: Global,
    uni: &Universe,
    now: &Known,
    k: usize,
) -> Result<Vec<u64>, AllocError>
    requires { k < length uni.now.instances }
    ensures { IfOk result (λ ns. (i : Applied) → slice_get uni.now.instances k ≡ Some i
        → ns.items ≡ map (place_in uni.now now.now) i.premises) }
{
    let instance = instance_at(uni, k);
    let placed = uni.premises(k);
    numbers_of(alloc, uni, now, placed)
}

// Whether what stands in the row with this place is as strong as the fact.
pub(crate) fn has_as_strong(now: &Known, place: u16, c: &Fact) -> bool
    ensures { IsBeaten (row_in now.now.rows.items (Some place)) c.now result }
{
    match now.at(place) {
        Some(row) => stronger(&row.fact, c),
        None => false,
    }
}

// Nothing stands here then. What is empty isn't written.
#[inline(always)]
fn empty(here: &mut Option<Ends>)
    ensures { here.new ≡ None }
{
    if here.is_some() {
        *here = None;
    }
}

// Nothing stands at any place then.
fn empty_all(ends: &mut [Option<Ends>])
    ensures { ends.new ≡ replicate (length ends.old) None }
{
    for k in 0..ends.len() {
        empty(&mut ends[k]);
    }
}

// Nothing stands at any of so many places.
pub(crate) fn clear(ends: &mut Vec<Option<Ends>>, count: usize) -> Result<(), AllocError>
    ensures { OnOk result (ends.new.items ≡ replicate count None) }
{
    if ends.len() == count {
        empty_all(ends);
        return Ok(());
    }
    ends.clear();
    ends.resize(count, None)?;
    Ok(())
}

// The ends with one conclusion more.
fn more(before: Option<Ends>, found: Found) -> Ends
    ensures { IsWith before found result }
{
    match before {
        Some(ends) => ends.with(found),
        None => Ends::of(found),
    }
}

// One conclusion more for the slot with this place.
fn note(ends: &mut Vec<Option<Ends>>, place: u16, found: Found)
    requires { place < length ends.old.items }
    ensures { IsNoted ends.old.items place found ends.new.items }
{
    let here = place as usize;
    let with = more(ends[here], found);
    ends[here] = Some(with);
}

// What the instance with this number concluded is gathered, where it says more than is known; VOID
// is handed back.
pub(crate) fn take(
    ends: &mut Vec<Option<Ends>>,
    uni: &Universe,
    now: &Known,
    k: usize,
    place: u16,
    c: Fact,
) -> Option<Found>
    requires concluded { IsConcludedBy concludes uni.now (known_at uni.now now.now) k place c }
    requires count { length ends.old.items ≡ place_count (length uni.now.nodes) uni.now.pairs }
    ensures visited { IsVisited uni.now
        (known_at uni.now now.now) ends.old.items ends.new.items k result }
    ensures count { length ends.new.items ≡ length ends.old.items }
{
    uni.laws();
    rules_are_lawful();
    let found = Found {
        instance: k,
        fact: c,
    };
    match c {
        Fact::Void => Some(found),
        _ => {
            if has_as_strong(now, place, &c) {
                return None;
            }
            note(ends, place, found);
            None
        }
    }
}
