//! A sweep with its steps: that of `saturate`, over a log.
ghost use Rattle.std.specs.Prelude.{◌≡◌, ◌<◌, ◌+◌, ◌*◌, ◌^◌, IfOk, IfSome, None, length};
ghost use Rattle.facts.specs.declared.fact.Slot.TheVariants as slot;
ghost use Rattle.derivation.specs.Rounds.{IsBestFrom};
ghost use Rattle.saturate.specs.Universes.{setting_of};
ghost use Rattle.box_trace.specs.Logs.{IsQuietApart, IsLonger};
ghost use Rattle.box_trace.specs.Tables.{known_at, HasRows};
ghost use Rattle.box_trace.specs.Rounds.{HasRounds};

use crate::log::Log;
use crate::sweeping::Sweeping;
use facts::Slot;
use fx_model::ExprId;
use rule_universe::Universe;
use saturate::{Change, Steps, SweepWork, sweep_below};
use std::alloc::{AllocError, Global};
use std::marker::Brand;
use std::sync::ledger::{Blank, Ledger};

// The sweep with a counter of conclusions that nobody reads.
fn swept_blank<L: Ledger>(
    alloc: Global,
    uni: &Universe,
    x: ExprId,
    height: u8,
    log: Log,
    blank: Blank,
) -> Result<Option<Log>, AllocError>
    requires blank { (blank.name ≡ L.name) × (blank.parts ≡ L.parts) × (0 < blank.parts) }
    requires rows { HasRows uni.now log.known }
    requires quiet { known_at uni.now log.known slot.Void ≡ None
        → IsQuietApart uni.now (known_at uni.now log.known) x }
    requires room { log.first + length log.steps.items + height * 8192 < 2 ^ 64 }
    ensures best { IfOk result (λ o. IfSome o (λ l. IsBestFrom (setting_of uni.now)
        (known_at uni.now log.known) height (known_at uni.now l.known))) }
    ensures longer { IfOk result (λ o. IfSome o (IsLonger uni.now (height * 8192) log)) }
    ensures rounds { IfOk result (λ o. IfSome o (HasRounds uni.now height log)) }
{
    uni.laws();
    let begun = log.known.is_void(uni);
    if begun {
        return Ok(None);
    }
    if height == 0 {
        return Ok(None);
    }
    let mut steps = Steps::<L>::new(blank);
    let mut work = SweepWork::new(alloc);
    let mut sweeping = Sweeping::over(alloc, log);
    let change = Change {
        slot: Some(Slot::Bnd(x)),
        place: x.0,
        height,
    };
    let best = sweep_below(
        uni,
        &mut sweeping,
        change,
        usize::MAX,
        &mut work,
        &mut steps,
    )?;
    if !best {
        return Ok(None);
    }
    let mut last = sweeping.log;
    last.known.closed = true;
    Ok(Some(last))
}

/// Lets come the best facts of at most this height over what is known by a sweep, where only
/// instances that take the interval of this expression may have something to add. It gives nothing
/// where the sweep doesn't end well.
pub(crate) fn swept(
    alloc: Global,
    uni: &Universe,
    x: ExprId,
    height: u8,
    log: Log,
) -> Result<Option<Log>, AllocError>
    requires rows { HasRows uni.now log.known }
    requires quiet { known_at uni.now log.known slot.Void ≡ None
        → IsQuietApart uni.now (known_at uni.now log.known) x }
    requires room { log.first + length log.steps.items + height * 8192 < 2 ^ 64 }
    ensures best { IfOk result (λ o. IfSome o (λ l. IsBestFrom (setting_of uni.now)
        (known_at uni.now log.known) height (known_at uni.now l.known))) }
    ensures longer { IfOk result (λ o. IfSome o (IsLonger uni.now (height * 8192) log)) }
    ensures rounds { IfOk result (λ o. IfSome o (HasRounds uni.now height log)) }
{
    swept_blank::<Brand>(alloc, uni, x, height, log, Blank::new(1))
}
