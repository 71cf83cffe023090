//! A log in a round: what instances conclude is gathered first, and written when the round ends.
ghost use Rattle.std.specs.Prelude.{◌≡◌};

use crate::ends::{Ends, Found};
use crate::known::Known;
use crate::log::Log;
use crate::scan::{clear, take};
use crate::writing::{Gathered, write_gathered};
use facts::{Fact, Slot};
use rule_universe::{Placed, Universe};
use saturate::{Keeps, Steps};
use std::alloc::{AllocError, Global};
use std::sync::ledger::Ledger;

/// A log, and what a round gathers for it.
#[derive(Drop)]
pub(crate) struct Gathering {
    pub(crate) log: Log,
    // What was known before the round.
    pub(crate) now: Known,
    // By the place of a slot, the conclusions that give the ends of its fact, where one says more
    // than is known.
    pub(crate) ends: Vec<Option<Ends>>,
    // The first conclusion VOID.
    pub(crate) void: Option<Found>,
    pub(crate) alloc: Global,
}

impl Gathering {
    // Nothing is gathered for the log.
    pub(crate) fn over(alloc: Global, log: Log) -> Gathering
        ensures { result.log ≡ log }
    {
        Gathering {
            log,
            now: Known::bare(alloc),
            ends: Vec::new(alloc),
            void: None,
            alloc,
        }
    }
}

impl<L: Ledger> Keeps<Steps<L>> for Gathering {
    ghost use Rattle.std.specs.Prelude.{⊤};
    ghost use Rattle.box_trace.specs.Tables.{known_at};
    ghost use Rattle.box_trace.specs.Gatherings.{HasRoom, IsGathering, HasGathered, HasCome};

    ghost facts = { λ u t. known_at u t.log.known };

    ghost fits = { HasRoom };

    ghost places = { λ u t. ⊤ };

    ghost going = { λ u first t changed k. IsGathering u first t k };

    ghost gathered = { λ u first t changed. HasGathered u first t };

    ghost came = { HasCome };

    #[inline(always)]
    fn fact_on(&self, uni: &Universe, placed: Placed) -> Option<Fact> {
        self.log.known.fact_at(uni, placed)
    }

    fn begin(&mut self, uni: &Universe) -> Result<(), AllocError> {
        uni.laws();
        self.now.copy_from(&self.log.known)?;
        let last = uni.place(Slot::Void);
        clear(&mut self.ends, last as usize + 1)?;
        self.void = None;
        Ok(())
    }

    #[inline(always)]
    fn take(
        &mut self,
        uni: &Universe,
        k: usize,
        place: u16,
        c: Fact,
        changed: &mut Vec<Placed>,
    ) -> Result<bool, AllocError> {
        match take(&mut self.ends, uni, &self.log.known, k, place, c) {
            Some(found) => {
                self.void = Some(found);
                Ok(true)
            }
            None => Ok(false),
        }
    }

    fn finish(&mut self, uni: &Universe, changed: &mut Vec<Placed>) -> Result<bool, AllocError> {
        let gathered = Gathered {
            before: &self.now,
            ends: &self.ends,
            void: self.void,
        };
        write_gathered(self.alloc, uni, &gathered, changed, &mut self.log)?;
        Ok(self.log.known.is_void(uni))
    }

    #[inline(always)]
    fn rounds_are_whole() {}
}
