//! What the claims of a list give.
ghost use Rattle.std.specs.Prelude.{◌≡◌, map, IfOk};
ghost use Rattle.std.specs.List.{AllByRecursion};
ghost use Rattle.script_claims.specs.Facts as spec;
ghost use Rattle.script_claims.specs.Facts.{HasNormalBounds};

use crate::claim::Claim;
use facts::Fact;
use goals::Goal;
use std::alloc::{AllocError, Global};

/// One goal for each claim, in their order; an error only where memory runs out.
pub fn goals_of(alloc: Global, claims: &[Claim]) -> Result<Vec<Goal>, AllocError>
    requires { AllByRecursion HasNormalBounds claims.now }
    ensures { IfOk result (λ goals. goals.items ≡ map spec.goal_of claims.now) }
{
    let mut claims = claims;
    let mut goals = Vec::new(alloc);
    while let [claim, later @ ..] = claims {
        goals.push(Goal {
            of: claim.slot(),
            want: claim.want(),
        })?;
        claims = later;
    }
    Ok(goals)
}

/// The facts that hypotheses give, in their order; a claim that gives none is left out.
/// An error only where memory runs out.
pub fn facts_of(alloc: Global, claims: &[Claim]) -> Result<Vec<Fact>, AllocError>
    requires { AllByRecursion HasNormalBounds claims.now }
    ensures { IfOk result (λ facts. facts.items ≡ spec.facts_of claims.now) }
{
    let mut claims = claims;
    let mut facts = Vec::new(alloc);
    while let [claim, later @ ..] = claims {
        if let Some(fact) = claim.hypothesis() {
            facts.push(fact)?;
        }
        claims = later;
    }
    Ok(facts)
}
