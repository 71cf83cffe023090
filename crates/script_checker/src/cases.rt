//! The cases of a script.
ghost use Rattle.std.specs.Prelude.{◌≡◌, ◌<◌, Some, length, map, slice_get, IfOk};
ghost use Rattle.script_claims.specs.Facts as spec;
ghost use Rattle.script_grammar.specs.Cases.{cases_of};

use facts::Fact;
use fx_edge::Items;
use script_claims::facts_of;
use script_grammar::Script;
use std::alloc::{AllocError, Global};

// What the hypotheses of the case with this number, from 0, say.
fn facts_of_case(
    alloc: Global,
    script: &Script<'_>,
    number: usize,
) -> Result<Items<Fact>, AllocError>
    requires { number < length (cases_of script.now) }
    ensures { IfOk result (λ facts.
        slice_get (map spec.facts_of (cases_of script.now)) number ≡ Some facts) }
{
    let claims = script.case(alloc, number)?;
    let facts = facts_of(alloc, claims.as_slice())?;
    Ok(Items::from_vec(facts))
}

/// What the hypotheses say, case by case.
pub fn facts_of_cases(alloc: Global, script: &Script<'_>) -> Result<Vec<Items<Fact>>, AllocError>
    ensures { IfOk result (λ cases. cases.items ≡ map spec.facts_of (cases_of script.now)) }
{
    let mut cases = Vec::new(alloc);
    for number in 0..script.case_count() {
        cases.push(facts_of_case(alloc, script, number)?)?;
    }
    Ok(cases)
}
