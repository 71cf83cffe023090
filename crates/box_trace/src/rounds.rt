//! Rounds after one another, with their steps: those of `saturate`, over a log.
ghost use Rattle.std.specs.Prelude.{◌≡◌, ◌<◌, ◌+◌, ◌*◌, ◌^◌, IfOk, IfSome, IsTrue, None, length};
ghost use Rattle.facts.specs.declared.fact.Slot.TheVariants as slot;
ghost use Rattle.derivation.specs.Rounds.{IsBestFrom};
ghost use Rattle.saturate.specs.Closed.{IsClosedUnder};
ghost use Rattle.saturate.specs.Keeping.{ComeWithin};
ghost use Rattle.saturate.specs.Universes.{setting_of};
ghost use Rattle.box_trace.specs.Gatherings.{HasRoom, HasCome};
ghost use Rattle.box_trace.specs.Logs.{IsQuietApart, IsQuietFrom, IsLonger};
ghost use Rattle.box_trace.specs.Tables.{known_at, HasRows};
ghost use Rattle.box_trace.specs.Rounds.{HasRounds};

use crate::gathering::Gathering;
use crate::log::Log;
use facts::Slot;
use fx_model::ExprId;
use rule_universe::Universe;
use saturate::{Change, Steps, Work, all_rounds, rounds_below};
use std::alloc::{AllocError, Global};
use std::marker::Brand;
use std::sync::ledger::{Blank, Ledger};

// The rounds. Where it's told that only instances that take the interval of an expression may have
// something to add, the first looks at these alone.
fn run<L: Ledger>(
    uni: &Universe,
    gathering: &mut Gathering,
    changed: Option<ExprId>,
    height: u8,
    work: &mut Work,
    steps: &mut Steps<L>,
) -> Result<bool, AllocError>
    requires fits { HasRoom uni.now height gathering.old }
    requires no_void { known_at uni.now gathering.old.log.known slot.Void ≡ None }
    requires quiet { IfSome changed
        (IsQuietApart uni.now (known_at uni.now gathering.old.log.known)) }
    ensures best { IfOk result (λ _. IsBestFrom (setting_of uni.now)
        (known_at uni.now gathering.old.log.known) height
        (known_at uni.now gathering.new.log.known)) }
    ensures come { IfOk result (λ _. ComeWithin (HasRoom uni.now) (HasCome uni.now) height
        gathering.old gathering.new) }
    ensures closed { IfOk result (λ closed. IsTrue closed
        → IsClosedUnder (setting_of uni.now) (known_at uni.now gathering.new.log.known)) }
{
    match changed {
        Some(x) => {
            let change = Change {
                slot: Some(Slot::Bnd(x)),
                place: x.0,
                height,
            };
            rounds_below(uni, gathering, change, work, steps)
        }
        None => all_rounds(uni, gathering, height, work, steps),
    }
}

// The rounds with a counter of conclusions that nobody reads.
fn rounds_blank<L: Ledger>(
    alloc: Global,
    uni: &Universe,
    height: u8,
    log: Log,
    changed: Option<ExprId>,
    blank: Blank,
) -> Result<Log, AllocError>
    requires blank { (blank.name ≡ L.name) × (blank.parts ≡ L.parts) × (0 < blank.parts) }
    requires rows { HasRows uni.now log.known }
    requires quiet { IsQuietFrom uni.now (known_at uni.now log.known) changed }
    requires room { log.first + length log.steps.items + height * 8192 < 2 ^ 64 }
    ensures best { IfOk result (λ l. IsBestFrom (setting_of uni.now)
        (known_at uni.now log.known) height (known_at uni.now l.known)) }
    ensures longer { IfOk result (IsLonger uni.now (height * 8192) log) }
    ensures rounds { IfOk result (HasRounds uni.now height log) }
{
    uni.laws();
    let begun = log.known.is_void(uni);
    if begun {
        return Ok(log);
    }
    let mut steps = Steps::<L>::new(blank);
    let mut work = Work::new(alloc);
    let mut gathering = Gathering::over(alloc, log);
    let closed = run(uni, &mut gathering, changed, height, &mut work, &mut steps)?;
    let mut last = gathering.log;
    last.known.closed = closed;
    Ok(last)
}

/// Lets come the best facts of at most this height over what is known. Where it's told, only
/// instances that take the interval of an expression may have something to add.
pub(crate) fn rounds(
    alloc: Global,
    uni: &Universe,
    height: u8,
    log: Log,
    changed: Option<ExprId>,
) -> Result<Log, AllocError>
    requires rows { HasRows uni.now log.known }
    requires quiet { IsQuietFrom uni.now (known_at uni.now log.known) changed }
    requires room { log.first + length log.steps.items + height * 8192 < 2 ^ 64 }
    ensures best { IfOk result (λ l. IsBestFrom (setting_of uni.now)
        (known_at uni.now log.known) height (known_at uni.now l.known)) }
    ensures longer { IfOk result (IsLonger uni.now (height * 8192) log) }
    ensures rounds { IfOk result (HasRounds uni.now height log) }
{
    rounds_blank::<Brand>(alloc, uni, height, log, changed, Blank::new(1))
}
