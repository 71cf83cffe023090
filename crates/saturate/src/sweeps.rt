//! What becomes of what the instances of a sweep conclude.
ghost use Rattle.std.specs.Prelude.{◌≡◌, IfOk, length};
ghost use Rattle.derivation.specs.Derivations.{At};
ghost use Rattle.derivation.specs.Rounds.{IsProper};
ghost use Rattle.rule_universe.specs.Placed.{IsPlaced};
ghost use Rattle.rule_universe.specs.Worlds.{World};
ghost use Rattle.saturate.specs.Keeping.{IsConcludedBy, IsTaken};

use crate::conclusions::Concludes;
use crate::taken::Taken;
use facts::Fact;
use rule_universe::{Placed, Universe};
use std::alloc::AllocError;

/// Takes what the instances of a sweep conclude, each at once. The sweep itself stands once, over
/// any such type: it says which instances are applied, and in which order, and when all is done.
pub trait Sweeps<C: Concludes> {
    // The facts that instances see.
    ghost facts: { World → Self → At };

    // It is one for the universe: the fact on each slot can be read, and conclusions can come.
    ghost fits: { World → Self → Type 0 };

    // Conclusions that came led from the first to the other.
    ghost came: { World → Self → Self → Type 0 };

    /// The fact on a slot whose place is known.
    fn fact_on(&self, uni: &Universe, placed: Placed) -> Option<Fact>
        requires fits { fits uni.now self.now }
        requires placed { IsPlaced (length uni.now.nodes) uni.now.pairs placed }
        ensures { result ≡ facts uni.now self.now placed.slot };

    /// Takes what the instance with this number concludes, whose target has this place, and says
    /// what became of it.
    fn take(&mut self, uni: &Universe, k: usize, place: u16, c: Fact) -> Result<Taken, AllocError>
        requires fits { fits uni.now self.old }
        requires concluded { IsConcludedBy C.rules uni.now (facts uni.now self.old) k place c }
        ensures taken { IfOk result (λ taken.
            IsTaken taken (facts uni.now self.old) (facts uni.now self.new) c) }
        ensures fits { IfOk result (λ _. fits uni.now self.new) }
        ensures came { IfOk result (λ _. (first : Self)
            → came uni.now first self.old → came uni.now first self.new) };

    /// Nothing is done. The clauses tell a caller what follows from the members.
    fn sweeps_are_whole()
        ensures proper { (u : World) (now : Self) → fits u now → IsProper (facts u now) }
        ensures none { (u : World) (now : Self) → came u now now };
}
