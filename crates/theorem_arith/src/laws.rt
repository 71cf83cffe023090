// What the rules promise, for callers to cite. Nothing here is done at run time.
ghost use Rattle.facts.specs.Promises.{IsSound, IsIsotone, IsOnTarget};
ghost use Rattle.theorem_arith.specs.EachRule.{EachRule};

/// Nothing is done. The clause tells a caller that each rule is sound: for every assignment of
/// fractions, where the premises hold, the conclusion does.
pub fn rules_are_sound()
    ensures { EachRule IsSound }
{}

/// Nothing is done. The clause tells a caller that each rule is isotone: from premises that are as
/// strong or stronger, none of them VOID, it gives a conclusion that is as strong or stronger.
pub fn rules_are_isotone()
    ensures { EachRule IsIsotone }
{}

/// Nothing is done. The clause tells a caller that what a rule gives stands on its target, or is
/// VOID.
pub fn rules_stay_on_target()
    ensures { EachRule IsOnTarget }
{}
