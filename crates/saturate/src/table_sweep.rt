//! A table that a sweep changes.
ghost use Rattle.std.specs.Prelude.{◌≡◌, ◌≤◌, ◌+◌, None, IsTrue, IfOk, length};
ghost use Rattle.facts.specs.declared.fact.Slot.TheVariants as slot;
ghost use Rattle.derivation.specs.Rounds.{IsBestFrom};
ghost use Rattle.derivation.specs.Changes.{IsQuiet};
ghost use Rattle.saturate.specs.Tables.{fact_at};
ghost use Rattle.saturate.specs.Universes.{setting_by, HasAllPlaces};
ghost use Rattle.saturate.specs.Closed.{IsClosedUnder};

use crate::area::Area;
use crate::conclusions::Concludes;
use crate::improve::improve;
use crate::kept::Table;
use crate::sweep::sweep;
use crate::sweeps::Sweeps;
use crate::taken::Taken;
use facts::Fact;
use rule_universe::{Placed, Universe};
use std::alloc::AllocError;

impl<C: Concludes> Sweeps<C> for Table {
    ghost use Rattle.std.specs.Prelude.{⊤};
    ghost use Rattle.saturate.specs.Tables.{fact_at};
    ghost use Rattle.saturate.specs.Universes.{HasAllPlaces};

    ghost facts = { λ u t. fact_at t };

    ghost fits = { λ u t. HasAllPlaces u t };

    ghost came = { λ u first t. ⊤ };

    #[inline(always)]
    fn fact_on(&self, uni: &Universe, placed: Placed) -> Option<Fact> {
        uni.laws();
        self.strongest_at(placed)
    }

    #[inline(always)]
    fn take(&mut self, uni: &Universe, k: usize, place: u16, c: Fact) -> Result<Taken, AllocError> {
        uni.laws();
        C::rules_are_lawful();
        let Some(_) = improve(self, c, place) else {
            return Ok(Taken::Same);
        };
        if self.void {
            Ok(Taken::Void)
        } else {
            Ok(Taken::More)
        }
    }

    #[inline(always)]
    fn sweeps_are_whole() {}
}

// Sweeps from the table, in the area's second one, where instances that aren't due have nothing to
// add. It is true where the second has the best facts of at most this height then, and no instance
// concludes more, unless VOID is known. No more steps are taken than `budget`.
pub(crate) fn sweep_from<C: Concludes>(
    uni: &Universe,
    start: &Table,
    height: u8,
    budget: usize,
    area: &mut Area,
    steps: &mut C,
) -> Result<bool, AllocError>
    requires places { HasAllPlaces uni.now start.now }
    requires no_void { fact_at start.now slot.Void ≡ None }
    requires due { length area.old.work.due.items ≡ length uni.now.instances }
    requires quiet { IsQuiet (setting_by C.rules uni.now) area.old.work.due.items
        (fact_at start.now) }
    ensures best { IfOk result (λ best. IsTrue best → IsBestFrom (setting_by C.rules uni.now)
        (fact_at start.now) height (fact_at area.new.tables.next)) }
    ensures closed { IfOk result (λ best. IsTrue best
        → fact_at area.new.tables.next slot.Void ≡ None
        → IsClosedUnder (setting_by C.rules uni.now) (fact_at area.new.tables.next)) }
    ensures places { IfOk result
        (λ best. IsTrue best → HasAllPlaces uni.now area.new.tables.next) }
    ensures work { area.new.work ≡ area.old.work }
    ensures cost { C.asked steps.new ≤ C.asked steps.old + budget }
{
    if uni.order().is_empty() {
        return Ok(false);
    }
    start.copy_to(&mut area.tables.next)?;
    area.sweep.begin_with(uni, &area.work.due)?;
    sweep(
        uni,
        height,
        budget,
        &mut area.tables.next,
        &mut area.sweep,
        steps,
    )
}
