//! One round: each instance that is due is applied once to the facts from before it.
ghost use Rattle.std.specs.Prelude.{◌≡◌, ◌<◌, ◌≤◌, ◌+◌, ℕ, suc, None, IfOk, length, Contains};
ghost use Rattle.std.specs.Prelude.{count_by};
ghost use Rattle.facts.specs.declared.fact.Slot.TheVariants as slot;
ghost use Rattle.derivation.specs.Rounds.{conclusion};
ghost use Rattle.derivation.specs.Changes.{IsQuiet};
ghost use Rattle.rule_universe.specs.declared.placed.Placed.{Placed as Placement};
ghost use Rattle.rule_universe.specs.Placed.{slots_of, IsPlaced};
ghost use Rattle.saturate.specs.Universes.{setting_by};
ghost use Rattle.saturate.specs.Keeping.{IsSaid, InTurn};

use crate::conclusions::Concludes;
use crate::instances::{instance_at, target_place};
use crate::keeps::Keeps;
use facts::{Fact, Instance};
use rule_universe::{Placed, Universe};
use std::alloc::AllocError;

// What the instance concludes from the facts. Its premises are given with their places; the list of
// facts is scratch.
#[inline(always)]
fn apply<C: Concludes, K: Keeps<C>>(
    uni: &Universe,
    instance: &Instance,
    placed: &[Placed],
    kept: &K,
    premises: &mut Vec<Fact>,
    steps: &mut C,
) -> Result<Option<Fact>, AllocError>
    requires slots { slots_of placed.now ≡ instance.now.premises }
    requires placed { (p : Placement) → Contains placed.now p
        → IsPlaced (length uni.now.nodes) uni.now.pairs p }
    requires places { K.places uni.now kept.now }
    ensures is { IfOk result (λ r. r ≡ conclusion (C.rules uni.now.nodes uni.now.hints)
        (K.facts uni.now kept.now) instance.now) }
    ensures cost { C.asked steps.new ≤ C.asked steps.old + 1 }
{
    premises.clear();
    for p in placed {
        match kept.fact_on(uni, *p) {
            Some(f) => premises.push(f)?,
            None => return Ok(None),
        }
    }
    Ok(steps.conclude(uni.dag(), uni.hints(), instance, premises))
}

// Applies the instance with this number to the facts from before the round, and lets be kept what
// it concludes. It is true where VOID is found.
#[inline(always)]
fn visit<C: Concludes, K: Keeps<C>>(
    uni: &Universe,
    k: usize,
    kept: &mut K,
    changed: &mut Vec<Placed>,
    premises: &mut Vec<Fact>,
    steps: &mut C,
) -> Result<bool, AllocError>
    requires within { k < length uni.now.instances }
    requires going { (first : K) × K.going uni.now first kept.old changed.old.items k }
    ensures visited { IfOk result (λ void. (first : K)
        → K.going uni.now first kept.old changed.old.items k
        → InTurn void (K.gathered uni.now first kept.new changed.new.items)
        (K.going uni.now first kept.new changed.new.items (k + 1))) }
    ensures cost { C.asked steps.new ≤ C.asked steps.old + 1 }
{
    K::rounds_are_whole();
    let instance = instance_at(uni, k);
    let placed = uni.premises(k);
    let place = target_place(uni, k);
    match apply(uni, instance, placed, kept, premises, steps)? {
        Some(c) => kept.take(uni, k, place, c, changed),
        None => Ok(false),
    }
}

// Applies each instance that is due, up to the first with which VOID is found.
#[inline(always)]
fn gather<C: Concludes, K: Keeps<C>>(
    uni: &Universe,
    kept: &mut K,
    due: &[bool],
    changed: &mut Vec<Placed>,
    premises: &mut Vec<Fact>,
    steps: &mut C,
) -> Result<(), AllocError>
    requires fits { (n : ℕ) × K.fits uni.now n kept.old }
    requires no_void { K.facts uni.now kept.old slot.Void ≡ None }
    requires due { length due.now ≡ length uni.now.instances }
    requires quiet { IsQuiet (setting_by C.rules uni.now) due.now (K.facts uni.now kept.old) }
    ensures gathered { IfOk result
        (λ _. K.gathered uni.now kept.old kept.new changed.new.items) }
    ensures cost { C.asked steps.new ≤ C.asked steps.old + count_by (λ b. b) due.now }
{
    K::rounds_are_whole();
    changed.clear();
    kept.begin(uni)?;
    for k in 0..uni.instances().len() {
        if due[k] {
            let void = visit(uni, k, kept, changed, premises, steps)?;
            if void {
                return Ok(());
            }
        }
    }
    Ok(())
}

// Applies each instance that is due to the facts from before the round, lets be kept what comes of
// it, and lists the slots that changed. It is true where VOID is known then.
#[inline(always)]
pub(crate) fn round<C: Concludes, K: Keeps<C>>(
    uni: &Universe,
    kept: &mut K,
    due: &[bool],
    changed: &mut Vec<Placed>,
    premises: &mut Vec<Fact>,
    steps: &mut C,
) -> Result<bool, AllocError>
    requires fits { (n : ℕ) × K.fits uni.now (suc n) kept.old }
    requires no_void { K.facts uni.now kept.old slot.Void ≡ None }
    requires due { length due.now ≡ length uni.now.instances }
    requires quiet { IsQuiet (setting_by C.rules uni.now) due.now (K.facts uni.now kept.old) }
    ensures said { IfOk result (λ void. IsSaid void (K.facts uni.now kept.new slot.Void)) }
    ensures came { IfOk result (λ _. K.came uni.now kept.old kept.new changed.new.items) }
    ensures cost { C.asked steps.new ≤ C.asked steps.old + count_by (λ b. b) due.now }
{
    gather(uni, kept, due, changed, premises, steps)?;
    kept.finish(uni, changed)
}
