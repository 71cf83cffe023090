//! The steps of a round: at most two for each slot of an interval, and one for another.
ghost use Rattle.std.specs.Prelude.{◌≡◌, ◌<◌, ◌+◌, ◌*◌, ◌^◌, ◌↔◌, Some, IsTrue, IfOk, OnOk, length};
ghost use Rattle.std.specs.Prelude.{slice_get};
ghost use Rattle.facts.specs.declared.instance.Instance.{Instance as Applied};
ghost use Rattle.facts.specs.declared.fact.Fact.TheVariants as fact;
ghost use Rattle.facts.specs.Order.{slot_of};
ghost use Rattle.derivation.specs.Rounds.{IsSame};
ghost use Rattle.rule_universe.specs.Places.{IsPlace, place_count};
ghost use Rattle.box_trace.specs.Tables.{known_at, HasRows};
ghost use Rattle.box_trace.specs.Logs.{IsSource, IsComeBy, IsSlotWritten, IsRound};
ghost use Rattle.box_trace.specs.Scans.{IsConclusion, AreEndsOf, IsScanned, IsWide, IsGathered};

use crate::ends::{Ends, Found};
use crate::known::Known;
use crate::log::{Log, Source};
use crate::scan::cite;
use facts::{Slot, slot};
use fx_edge::Items;
use rule_universe::{Placed, Universe};
use saturate::{instance_at, rules_are_lawful};
use std::alloc::{AllocError, Global};

// By what the conclusion of the instance with this number from what is known now comes.
fn source_of(alloc: Global, uni: &Universe, now: &Known, k: usize) -> Result<Source, AllocError>
    requires { k < length uni.now.instances }
    ensures { IfOk result (λ source. (i : Applied) → slice_get uni.now.instances k ≡ Some i
        → IsSource uni.now now.now i source) }
{
    let premises = cite(alloc, uni, now, k)?;
    let instance = instance_at(uni, k);
    Ok(Source {
        rule: instance.rule,
        arg: instance.arg,
        premises: Items::from_vec(premises),
    })
}

// Lets what an instance concluded come to what is known.
fn come_by(
    alloc: Global,
    uni: &Universe,
    now: &Known,
    place: u16,
    found: Found,
    log: &mut Log,
) -> Result<(), AllocError>
    requires conclusion { IsConclusion uni.now (known_at uni.now now.now) found }
    requires place { IsPlace (length uni.now.nodes) uni.now.pairs (slot_of found.fact) place }
    requires rows { HasRows uni.now log.old.known }
    requires room { log.old.first + length log.old.steps.items < 2 ^ 64 }
    ensures { OnOk result (IsComeBy uni.now now.now found log.old log.new) }
{
    uni.laws();
    rules_are_lawful();
    let source = source_of(alloc, uni, now, found.instance)?;
    log.come(uni, found.fact, place, source)
}

// The same, where an instance concluded it from what the log comes to.
pub(crate) fn come_now(
    alloc: Global,
    uni: &Universe,
    place: u16,
    found: Found,
    log: &mut Log,
) -> Result<(), AllocError>
    requires conclusion { IsConclusion uni.now (known_at uni.now log.old.known) found }
    requires place { IsPlace (length uni.now.nodes) uni.now.pairs (slot_of found.fact) place }
    requires rows { HasRows uni.now log.old.known }
    requires room { log.old.first + length log.old.steps.items < 2 ^ 64 }
    ensures { OnOk result (IsComeBy uni.now log.old.known found log.old log.new) }
{
    uni.laws();
    rules_are_lawful();
    let source = source_of(alloc, uni, &log.known, found.instance)?;
    log.come(uni, found.fact, place, source)
}

// Whether the place is one of a slot of an interval.
fn is_wide(uni: &Universe, place: usize) -> bool
    ensures { IsTrue result ↔ IsWide (length uni.now.nodes) place }
{
    uni.laws();
    let n = uni.dag().len() as usize;
    place < 2 * n || 4 * n <= place
}

// Lets what gives the upper end come, where there is one.
fn come_high(
    alloc: Global,
    uni: &Universe,
    now: &Known,
    place: u16,
    found: Found,
    log: &mut Log,
) -> Result<(), AllocError>
    requires conclusion { IsConclusion uni.now (known_at uni.now now.now) found }
    requires place { IsPlace (length uni.now.nodes) uni.now.pairs (slot_of found.fact) place }
    requires rows { HasRows uni.now log.old.known }
    requires room { log.old.first + length log.old.steps.items < 2 ^ 64 }
    ensures wide { OnOk result (IsWide (length uni.now.nodes) place
        → IsComeBy uni.now now.now found log.old log.new) }
    ensures narrow { OnOk result ((¬ IsWide (length uni.now.nodes) place) → log.new ≡ log.old) }
{
    if is_wide(uni, place as usize) {
        come_by(alloc, uni, now, place, found, log)?;
    }
    Ok(())
}

// Lets the conclusions that give the ends of the slot with this place come.
fn write_slot(
    alloc: Global,
    uni: &Universe,
    now: &Known,
    place: u16,
    ends: Ends,
    log: &mut Log,
) -> Result<(), AllocError>
    requires ends { AreEndsOf uni.now (known_at uni.now now.now) place ends }
    requires rows { HasRows uni.now log.old.known }
    requires room { log.old.first + length log.old.steps.items + 1 < 2 ^ 64 }
    ensures { OnOk result (IsSlotWritten uni.now now.now place ends log.old log.new) }
{
    come_by(alloc, uni, now, place, ends.low, log)?;
    come_high(alloc, uni, now, place, ends.high, log)?;
    Ok(())
}

// Lets what was gathered come to what is known, slot by slot, and lists the slots.
fn write(
    alloc: Global,
    uni: &Universe,
    now: &Known,
    ends: &[Option<Ends>],
    changed: &mut Vec<Placed>,
    log: &mut Log,
) -> Result<(), AllocError>
    requires scanned { IsScanned uni.now (known_at uni.now now.now) ends.now
        (length uni.now.instances) }
    requires count { length ends.now ≡ place_count (length uni.now.nodes) uni.now.pairs }
    requires rows { HasRows uni.now log.old.known }
    requires same { IsSame (known_at uni.now now.now) (known_at uni.now log.old.known) }
    requires room { log.old.first + length log.old.steps.items + 8192 < 2 ^ 64 }
    ensures { OnOk result (IsRound uni.now now.now log.old log.new changed.new.items) }
{
    uni.laws();
    rules_are_lawful();
    changed.clear();
    for p in 0..uni.place(Slot::Void) {
        let here = ends[p as usize];
        if let Some(found) = here {
            write_slot(alloc, uni, now, p, found, log)?;
            if log.known.is_void(uni) {
                return Ok(());
            }
            changed.push(Placed {
                slot: slot(&found.low.fact),
                place: p,
            })?;
        }
    }
    Ok(())
}

// Lets a conclusion VOID come.
fn write_void(
    alloc: Global,
    uni: &Universe,
    now: &Known,
    found: Found,
    changed: &mut Vec<Placed>,
    log: &mut Log,
) -> Result<(), AllocError>
    requires conclusion { IsConclusion uni.now (known_at uni.now now.now) found }
    requires void { found.fact ≡ fact.Void }
    requires rows { HasRows uni.now log.old.known }
    requires same { IsSame (known_at uni.now now.now) (known_at uni.now log.old.known) }
    requires room { log.old.first + length log.old.steps.items + 8192 < 2 ^ 64 }
    ensures { OnOk result (IsRound uni.now now.now log.old log.new changed.new.items) }
{
    uni.laws();
    changed.clear();
    let place = uni.place(Slot::Void);
    come_by(alloc, uni, now, place, found, log)
}

/// What a round gathered.
#[derive(Clone, Copy)]
pub(crate) struct Gathered<'a> {
    // What was known before the round.
    pub(crate) before: &'a Known,
    // By the place of a slot, the conclusions that give the ends of its fact.
    pub(crate) ends: &'a [Option<Ends>],
    // The first conclusion VOID.
    pub(crate) void: Option<Found>,
}

// Lets what was gathered come to what is known, and lists the slots about which more is known then.
// A conclusion VOID comes alone.
pub(crate) fn write_gathered(
    alloc: Global,
    uni: &Universe,
    gathered: &Gathered<'_>,
    changed: &mut Vec<Placed>,
    log: &mut Log,
) -> Result<(), AllocError>
    requires gathered { IsGathered uni.now (known_at uni.now gathered.now.before.now)
        gathered.now.ends.now gathered.now.void }
    requires count { length gathered.now.ends.now
        ≡ place_count (length uni.now.nodes) uni.now.pairs }
    requires rows { HasRows uni.now log.old.known }
    requires same { IsSame (known_at uni.now gathered.now.before.now)
        (known_at uni.now log.old.known) }
    requires room { log.old.first + length log.old.steps.items + 8192 < 2 ^ 64 }
    ensures { OnOk result (IsRound uni.now gathered.now.before.now
        log.old log.new changed.new.items) }
{
    match gathered.void {
        Some(found) => write_void(alloc, uni, gathered.before, found, changed, log),
        None => write(alloc, uni, gathered.before, gathered.ends, changed, log),
    }
}
