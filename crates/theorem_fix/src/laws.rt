// What the rules promise, for callers to cite. Nothing here is done at run time.
ghost use Rattle.facts.specs.Promises.{IsSound, IsIsotone, IsOnTarget};
ghost use Rattle.theorem_fix.specs.EachRule.{EachRule, IsIsotoneOrVoid};
ghost use Rattle.theorem_fix.specs.Shrunk.{shrinking_rule, no_multiple_rule};

/// Nothing is done. The clauses tell a caller that each rule is sound: for every assignment of
/// fractions, where the premises hold, the conclusion does.
pub fn rules_are_sound()
    ensures each { EachRule IsSound }
    ensures shrinking { IsSound shrinking_rule }
{}

/// Nothing is done. The clauses tell a caller that each rule is isotone: from premises that are as
/// strong or stronger, none of them VOID, it gives a conclusion that is as strong or stronger; rule
/// 28 gives one, or rule 90 gives VOID.
pub fn rules_are_isotone()
    ensures each { EachRule IsIsotone }
    ensures shrinking { IsIsotoneOrVoid shrinking_rule no_multiple_rule }
{}

/// Nothing is done. The clauses tell a caller that what a rule gives stands on its target, or is
/// VOID.
pub fn rules_stay_on_target()
    ensures each { EachRule IsOnTarget }
    ensures shrinking { IsOnTarget shrinking_rule }
{}
