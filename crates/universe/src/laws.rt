//! What holds of all universes, for callers to cite. Nothing here is done at run time.

ghost use Rattle.universe.specs.Universes.{HypothesesHaveSlots, UniversesAreOne};

use pair_closure::closures_are_one;

/// Nothing is done. The clause tells a caller that a script has one universe in which these claims
/// are assumed.
pub fn universes_are_one()
    ensures { UniversesAreOne }
{
    closures_are_one();
}

/// Nothing is done. The clause tells a caller that what hypotheses of a script give is about slots
/// of its universe, whatever is assumed in that.
pub fn hypotheses_have_slots()
    ensures { HypothesesHaveSlots }
{}
