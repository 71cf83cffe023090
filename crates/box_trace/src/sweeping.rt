//! A log in a sweep: what instances conclude comes at once, each by a step.
ghost use Rattle.std.specs.Prelude.{◌≡◌, ◌≢◌, ◌+◌, ◌-◌, length};
ghost use Rattle.facts.specs.declared.fact.Fact.TheVariants as fact;
ghost use Rattle.facts.specs.Order.{slot_of};
ghost use Rattle.rule_universe.specs.Places.{IsPlace};

use crate::ends::Found;
use crate::log::Log;
use crate::scan::has_as_strong;
use crate::writing::come_now;
use facts::{Fact, Slot};
use rule_universe::{Placed, Universe};
use saturate::{Steps, Sweeps, Taken, rules_are_lawful};
use std::alloc::{AllocError, Global};
use std::sync::ledger::Ledger;

// How many premises the steps of a sweep have at most, where each step counts for four at least. So
// there are no more of either than in one round.
const ROOM: usize = 32768;

/// A log that a sweep changes.
#[derive(Drop)]
pub(crate) struct Sweeping {
    pub(crate) log: Log,
    // How many premises may come yet, where each step counts for four at least.
    pub(crate) room: usize,
    pub(crate) alloc: Global,
}

impl Sweeping {
    // Nothing has come to the log.
    pub(crate) fn over(alloc: Global, log: Log) -> Sweeping
        ensures log { result.log ≡ log }
        ensures room { result.room ≡ 32768 }
    {
        Sweeping {
            log,
            room: ROOM,
            alloc,
        }
    }
}

// How much room a step with so many premises takes.
fn room_of(premises: usize) -> usize
    ensures { result ≡ 4 + (premises - 4) }
{
    if premises > 4 { premises } else { 4 }
}

// The place of the fact's slot, where it is known unless the fact is VOID.
fn place_of(uni: &Universe, c: &Fact, place: u16) -> u16
    requires { c.now ≢ fact.Void
        → IsPlace (length uni.now.nodes) uni.now.pairs (slot_of c.now) place }
    ensures { IsPlace (length uni.now.nodes) uni.now.pairs (slot_of c.now) result }
{
    match *c {
        Fact::Void => uni.place(Slot::Void),
        _ => place,
    }
}

impl<L: Ledger> Sweeps<Steps<L>> for Sweeping {
    ghost use Rattle.box_trace.specs.Tables.{known_at};
    ghost use Rattle.box_trace.specs.Sweeps.{HasSpace, HasSwept};

    ghost facts = { λ u t. known_at u t.log.known };

    ghost fits = { HasSpace };

    ghost came = { HasSwept };

    #[inline(always)]
    fn fact_on(&self, uni: &Universe, placed: Placed) -> Option<Fact> {
        self.log.known.fact_at(uni, placed)
    }

    #[inline(always)]
    fn take(&mut self, uni: &Universe, k: usize, place: u16, c: Fact) -> Result<Taken, AllocError> {
        uni.laws();
        rules_are_lawful();
        let here = place_of(uni, &c, place);
        if has_as_strong(&self.log.known, here, &c) {
            return Ok(Taken::Same);
        }
        let room = room_of(uni.premises(k).len());
        if room > self.room {
            return Ok(Taken::Full);
        }
        self.room -= room;
        let found = Found {
            instance: k,
            fact: c,
        };
        come_now(self.alloc, uni, here, found, &mut self.log)?;
        if self.log.known.is_void(uni) {
            return Ok(Taken::Void);
        }
        Ok(Taken::More)
    }

    #[inline(always)]
    fn sweeps_are_whole() {}
}
