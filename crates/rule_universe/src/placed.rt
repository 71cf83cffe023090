//! Slots of instances with their places.
ghost use Rattle.std.specs.Prelude.{◌≡◌, ◌≤◌, ℕ, Some, length, slice_get, Contains, IfOk, OnOk};
ghost use Rattle.facts.specs.declared.fact.Slot.{Slot};
ghost use Rattle.facts.specs.declared.instance.Instance.{Instance};
ghost use Rattle.rule_universe.specs.Worlds.{IsSlot};
ghost use Rattle.rule_universe.specs.Places.{IsPlace};
ghost use Rattle.rule_universe.specs.Placed.{AddsPlaced, ArePremises, AreTargets};

use crate::flat_rows::{FlatRows, end_row};
use crate::places::place_of;
use expr_dag::Dag;
use facts::{Instance, Slot};
use pair_closure::PairIndex;
use std::alloc::{AllocError, Global};

/// A slot with its place among all slots of a universe.
#[derive(Clone, Copy, PartialEq, Eq, Debug)]
pub struct Placed {
    /// The slot.
    pub slot: Slot,
    /// Its place, from 0.
    pub place: u16,
}

/// The place of a slot that is known to be one of these nodes and pairs.
pub fn known_place(nodes: &Dag, pairs: &PairIndex, s: Slot) -> u16
    requires few { length pairs.now ≤ 1024 }
    requires slot { IsSlot (length nodes.now) pairs.now s }
    ensures { IsPlace (length nodes.now) pairs.now s result }
{
    nodes.laws();
    match place_of(nodes, pairs, s) {
        Some(p) => p as u16,
        None => unreachable!(),
    }
}

// Puts slots with their places behind a list.
fn add_placed(
    items: &mut Vec<Placed>,
    nodes: &Dag,
    pairs: &PairIndex,
    slots: &[Slot],
) -> Result<(), AllocError>
    requires few { length pairs.now ≤ 1024 }
    requires slots { (s : Slot) → Contains slots.now s → IsSlot (length nodes.now) pairs.now s }
    ensures { OnOk result
        (AddsPlaced (length nodes.now) pairs.now slots.now items.old.items items.new.items) }
{
    for s in slots {
        let place = known_place(nodes, pairs, *s);
        items.push(Placed { slot: *s, place })?;
    }
    Ok(())
}

/// By instance, its premises with their places.
pub fn placed_premises(
    alloc: Global,
    nodes: &Dag,
    pairs: &PairIndex,
    instances: &[Instance],
) -> Result<FlatRows<Placed>, AllocError>
    requires few { length pairs.now ≤ 1024 }
    requires slots { (k : ℕ) (i : Instance) → slice_get instances.now k ≡ Some i → (s : Slot)
        → Contains i.premises s → IsSlot (length nodes.now) pairs.now s }
    ensures { IfOk result (ArePremises (length nodes.now) pairs.now instances.now) }
{
    let mut starts = Vec::new(alloc);
    let mut items = Vec::new(alloc);
    starts.push(0)?;
    for k in 0..instances.len() {
        add_placed(&mut items, nodes, pairs, instances[k].premises.as_slice())?;
        end_row(&mut starts, items.len())?;
    }
    Ok(FlatRows::from_parts(starts, items))
}

/// By instance, the place of its target.
pub fn target_places(
    alloc: Global,
    nodes: &Dag,
    pairs: &PairIndex,
    instances: &[Instance],
) -> Result<Vec<u16>, AllocError>
    requires few { length pairs.now ≤ 1024 }
    requires slots { (k : ℕ) (i : Instance) → slice_get instances.now k ≡ Some i
        → IsSlot (length nodes.now) pairs.now i.target }
    ensures { IfOk result (λ places.
        AreTargets (length nodes.now) pairs.now instances.now places.items) }
{
    let mut places = Vec::new(alloc);
    for k in 0..instances.len() {
        places.push(known_place(nodes, pairs, instances[k].target))?;
    }
    Ok(places)
}
