// What claims promise, for callers to cite. Nothing here is done at run time.
ghost use Rattle.std.specs.Prelude.{◌≡◌, List, Some};
ghost use Rattle.fx_model.specs.declared.Node.{Node};
ghost use Rattle.fx_model.specs.Expression.{Assignment};
ghost use Rattle.interval.specs.declared.interval.Interval.{Interval};
ghost use Rattle.facts.specs.declared.fact.Fact.{Fact};
ghost use Rattle.facts.specs.Holds.{Holds};
ghost use Rattle.goals.specs.declared.goal.Want.TheVariants.{Inside};
ghost use Rattle.goals.specs.Lies.{LiesAt, AreZeroAt};
ghost use Rattle.script_claims.specs.declared.claim.Claim.{Claim};
ghost use Rattle.script_claims.specs.Meets.{IsTrueAt};
ghost use Rattle.script_claims.specs.Facts.{hypothesis_fact, IsHypothesis, want_of, slot_of};
ghost use Rattle.script_claims.specs.Claims.{PartsHaveHypotheses};
ghost use Rattle.script_claims.specs.Reads.{ReadsFormulas, ClaimsGrow};

use script_bounds::{inward_is_greatest, outward_is_least};
use script_nodes::laws::{nodes_only_grow, reads_trees};

/// Nothing is done. The clauses tell a caller that a claim's fact holds wherever the claim is true,
/// and that a hypothesis has a fact there.
pub fn hypotheses_hold()
    ensures holds { (nodes : List Node) (a : Assignment) (c : Claim) (f : Fact)
        → hypothesis_fact c ≡ Some f → IsTrueAt nodes a c → Holds nodes a f }
    ensures kept { (nodes : List Node) (a : Assignment) (c : Claim) → IsHypothesis c
        → IsTrueAt nodes a c → (f : Fact) × (hypothesis_fact c ≡ Some f) }
{
    outward_is_least();
}

/// Nothing is done. The clauses tell a caller that a claim is true where what it is about lies in
/// the interval that it wants, and that a relative claim is true where both values are 0.
pub fn goals_are_enough()
    ensures inside { (nodes : List Node) (a : Assignment) (c : Claim) (i : Interval)
        → want_of c ≡ Inside (Some i) → LiesAt nodes a i (slot_of c) → IsTrueAt nodes a c }
    ensures zeros { (nodes : List Node) (a : Assignment) (c : Claim)
        → AreZeroAt nodes a (slot_of c) → IsTrueAt nodes a c }
{
    inward_is_greatest();
}

/// Nothing is done. The clause tells a caller that the words of a formula, read from the left, are
/// read as its claims.
pub fn formulas_are_read()
    ensures { ReadsFormulas }
{
    reads_trees();
}

/// Nothing is done. The clause tells a caller that nodes never go while the words of a formula are
/// read.
pub fn claims_only_grow()
    ensures { ClaimsGrow }
{
    nodes_only_grow();
}

/// Nothing is done. The clause tells a caller that the hypotheses of a formula are the claims of
/// its parts before the last arrow.
pub fn parts_have_hypotheses()
    ensures { PartsHaveHypotheses }
{}
