//! The two tables of a round: what instances conclude from the one comes to the other.
ghost use Rattle.std.specs.Prelude.{◌≡◌, OnOk, Contains};
ghost use Rattle.derivation.specs.Rounds.{IsSame, Grows};
ghost use Rattle.derivation.specs.Changes.{IsListed};
ghost use Rattle.rule_universe.specs.declared.placed.Placed.{Placed as Placement};
ghost use Rattle.rule_universe.specs.Placed.{slots_of};
ghost use Rattle.saturate.specs.Tables.{fact_at, HasPlace, IsFoundAt, IsShaped, IsCopy};

use crate::conclusions::Concludes;
use crate::improve::improve;
use crate::keeps::Keeps;
use crate::kept::{Table, Tables};
use facts::Fact;
use rule_universe::{Placed, Universe};
use std::alloc::AllocError;
use std::mem::swap;

// Brings to the one table what the other has on the slots that changed.
fn catch_up(now: &mut Table, next: &Table, changed: &[Placed])
    requires listed { IsListed (slots_of changed.now) (fact_at now.old) (fact_at next.now) }
    requires grows { Grows (fact_at now.old) (fact_at next.now) }
    requires there { (p : Placement) → Contains changed.now p → HasPlace now.old p.slot }
    requires found { (p : Placement) → Contains changed.now p
        → IsFoundAt now.old p.slot p.place × IsFoundAt next.now p.slot p.place }
    ensures same { IsSame (fact_at now.new) (fact_at next.now) }
    ensures shape { IsShaped now.old now.new }
{
    for p in changed {
        if let Some(f) = next.strongest_at(*p) {
            now.put(f, p.place);
        }
    }
}

impl Tables {
    // Makes them ready for rounds over this table, and gives what stood in its place.
    pub(crate) fn start(&mut self, table: &mut Table) -> Result<(), AllocError>
        ensures { OnOk result ((self.new.now ≡ table.old) × IsCopy table.old self.new.next) }
    {
        table.copy_to(&mut self.next)?;
        swap(&mut self.now, table);
        Ok(())
    }
}

impl<C: Concludes> Keeps<C> for Tables {
    ghost use Rattle.saturate.specs.Tables.{fact_at};
    ghost use Rattle.saturate.specs.Universes.{setting_by, HasAllPlaces};
    ghost use Rattle.saturate.specs.Working.{AreReady, AreGoing, AreGathered, HasComeTo};

    ghost facts = { λ u t. fact_at t.now };

    ghost fits = { λ u n t. AreReady u t };

    ghost places = { λ u t. HasAllPlaces u t.now };

    ghost going = { λ u. AreGoing (setting_by C.rules u) u };

    ghost gathered = { λ u. AreGathered (setting_by C.rules u) u };

    ghost came = { λ u. HasComeTo (setting_by C.rules u) u };

    #[inline(always)]
    fn fact_on(&self, uni: &Universe, placed: Placed) -> Option<Fact> {
        uni.laws();
        self.now.strongest_at(placed)
    }

    #[inline(always)]
    fn begin(&mut self, uni: &Universe) -> Result<(), AllocError> {
        Ok(())
    }

    #[inline(always)]
    fn take(
        &mut self,
        uni: &Universe,
        k: usize,
        place: u16,
        c: Fact,
        changed: &mut Vec<Placed>,
    ) -> Result<bool, AllocError> {
        uni.laws();
        C::rules_are_lawful();
        if let Some(s) = improve(&mut self.next, c, place) {
            changed.push(Placed { slot: s, place })?;
        }
        Ok(self.next.void)
    }

    #[inline(always)]
    fn finish(&mut self, uni: &Universe, changed: &mut Vec<Placed>) -> Result<bool, AllocError> {
        uni.laws();
        if self.next.void {
            swap(&mut self.now, &mut self.next);
            return Ok(true);
        }
        catch_up(&mut self.now, &self.next, changed);
        Ok(false)
    }

    #[inline(always)]
    fn rounds_are_whole() {}
}
