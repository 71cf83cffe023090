//! What the tests of an evaluation tell. Nothing here is done at run time.

ghost use Rattle.point_values.specs.Told.{ClaimsAreTold, HintsAreTold};

/// Nothing is done. The clauses tell a caller that the test of a claim tells whether it is true of
/// an assignment, and that of a
/// hint whether the assignment meets it.
#[tactic(auto, using(crate::proofs::Telling::claims_told, crate::proofs::Telling::hints_told))]
pub fn tests_are_told()
    ensures claims { ClaimsAreTold }
    ensures hints { HintsAreTold }
{}
