//! The cases of a script, each with its plan.
ghost use Rattle.std.specs.Prelude.{◌≤◌, IfOk};
ghost use Rattle.script_grammar.specs.Cases.{cases_of};
ghost use Rattle.settler.specs.Cases.{AreCases, IsLawful};

use bisect::leaves_cover;
use box_tree::Plan;
use derivation::known_facts_hold;
use fx_edge::Items;
use saturate::rules_are_sound_for;
use script_claims::Claim;
use script_grammar::Script;
use std::alloc::{AllocError, Global};

/// A case of a script with its plan.
#[derive(Drop)]
pub struct Case {
    /// What is assumed in it.
    pub claims: Items<Claim>,
    /// How its boxes are cut.
    pub plan: Plan,
}

// What each plan keeps. Nothing is done.
pub(crate) fn plan_is_lawful(plan: &Plan)
    ensures { IsLawful plan.now }
{
    plan.laws();
    plan.covers();
    leaves_cover(plan);
    known_facts_hold();
    rules_are_sound_for();
}

// The cases of the script, in order, each with its plan, by which boxes are halved so often at
// most (0 to 32). Lack of memory is the only error.
pub(crate) fn planned_cases(
    alloc: Global,
    script: &Script<'_>,
    depth: u8,
) -> Result<Vec<Case>, AllocError>
    requires { depth ≤ 32 }
    ensures { IfOk result (λ cases. AreCases script.now depth (cases_of script.now) cases.items) }
{
    script.laws();
    let mut cases = Vec::new(alloc);
    for number in 0..script.case_count() {
        let claims = script.case(alloc, number)?;
        let plan = Plan::new(alloc, &claims, script.hints(), depth)?;
        plan_is_lawful(&plan);
        cases.push(Case {
            claims: Items::from_vec(claims),
            plan,
        })?;
    }
    Ok(cases)
}
