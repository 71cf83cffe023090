//! What becomes of what the instances of a round conclude.
ghost use Rattle.std.specs.Prelude.{◌≡◌, ◌+◌, ℕ, suc, List, [], None, IfOk, OnOk, length};
ghost use Rattle.facts.specs.declared.fact.Slot.TheVariants as slot;
ghost use Rattle.derivation.specs.Derivations.{At};
ghost use Rattle.derivation.specs.Rounds.{IsProper};
ghost use Rattle.rule_universe.specs.declared.placed.Placed.{Placed as Placement};
ghost use Rattle.rule_universe.specs.Placed.{IsPlaced};
ghost use Rattle.rule_universe.specs.Worlds.{World};
ghost use Rattle.saturate.specs.Universes.{setting_by};
ghost use Rattle.saturate.specs.Keeping.{IsConcludedBy, IsIdle, IsWhole, IsSaid, InTurn};

use crate::conclusions::Concludes;
use facts::Fact;
use rule_universe::{Placed, Universe};
use std::alloc::AllocError;

/// Keeps what the instances of a round conclude. The rounds themselves stand once, over any such
/// type: they say which instances are looked at, and in which order, and when all is done.
///
/// A round begins, takes conclusions, and ends. Meanwhile instances see the facts from before it.
pub trait Keeps<C: Concludes> {
    // The facts that instances see.
    ghost facts: { World → Self → At };

    // Between rounds: it is one for the universe, with room for so many rounds more.
    ghost fits: { World → ℕ → Self → Type 0 };

    // The fact on each slot of the universe can be read.
    ghost places: { World → Self → Type 0 };

    // In a round that began with the first: the instances before this one were seen, VOID wasn't
    // found, and these slots are listed.
    ghost going: { World → Self → Self → List Placement → ℕ → Type 0 };

    // In that round all instances were seen, or VOID was found.
    ghost gathered: { World → Self → Self → List Placement → Type 0 };

    // A whole round led from the first to the other, and these slots are listed.
    ghost came: { World → Self → Self → List Placement → Type 0 };

    /// The fact on a slot whose place is known.
    fn fact_on(&self, uni: &Universe, placed: Placed) -> Option<Fact>
        requires places { places uni.now self.now }
        requires placed { IsPlaced (length uni.now.nodes) uni.now.pairs placed }
        ensures { result ≡ facts uni.now self.now placed.slot };

    /// A round begins.
    fn begin(&mut self, uni: &Universe) -> Result<(), AllocError>
        requires fits { (n : ℕ) × fits uni.now n self.old }
        requires no_void { facts uni.now self.old slot.Void ≡ None }
        ensures { OnOk result (going uni.now self.old self.new [] 0) };

    /// Takes what the instance with this number concludes, whose target has this place, and lists a
    /// slot that changed. It is true where VOID is found, so that the round needs no more.
    fn take(
        &mut self,
        uni: &Universe,
        k: usize,
        place: u16,
        c: Fact,
        changed: &mut Vec<Placed>,
    ) -> Result<bool, AllocError>
        requires going { (first : Self) × going uni.now first self.old changed.old.items k }
        requires concluded { IsConcludedBy C.rules uni.now (facts uni.now self.old) k place c }
        ensures { IfOk result (λ void. (first : Self)
            → going uni.now first self.old changed.old.items k
            → InTurn void (gathered uni.now first self.new changed.new.items)
            (going uni.now first self.new changed.new.items (k + 1))) };

    /// The round ends: from here on instances see what it came to. It is true where VOID is known.
    fn finish(&mut self, uni: &Universe, changed: &mut Vec<Placed>) -> Result<bool, AllocError>
        requires { (first : Self) × (n : ℕ) × fits uni.now (suc n) first
            × gathered uni.now first self.old changed.old.items }
        ensures said { IfOk result (λ void. IsSaid void (facts uni.now self.new slot.Void)) }
        ensures came { IfOk result (λ _. (first : Self)
            → gathered uni.now first self.old changed.old.items
            → came uni.now first self.new changed.new.items) };

    /// Nothing is done. The clauses tell a caller what follows from the members.
    fn rounds_are_whole()
        ensures seen { (u : World) (first now : Self) (changed : List Placement) (k : ℕ)
            → going u first now changed k → places u now × (facts u now ≡ facts u first) }
        ensures idle { (u : World) (first now : Self) (changed : List Placement) (k : ℕ)
            → going u first now changed k → IsIdle C.rules u (facts u first) k
            → going u first now changed (k + 1) }
        ensures all { (u : World) (first now : Self) (changed : List Placement) (k : ℕ)
            → length u.instances ≡ k → going u first now changed k
            → gathered u first now changed }
        ensures proper { (u : World) (n : ℕ) (now : Self) → fits u n now → IsProper (facts u now) }
        ensures whole { (u : World) (first now : Self) (changed : List Placement)
            → came u first now changed
            → IsWhole (setting_by C.rules u) u (facts u first) (facts u now) changed }
        ensures fits { (u : World) (first now : Self) (changed : List Placement) (n : ℕ)
            → came u first now changed → fits u (suc n) first → fits u n now };
}
