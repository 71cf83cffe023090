//! Which cases of the hypotheses hold.

ghost use Rattle.std.specs.Prelude.{◌≡◌, All, map};
ghost use Rattle.std.specs.List.{AllByRecursion, list_all, list_any};
ghost use Rattle.script_claims.specs.Facts.{HasNormalBounds};
ghost use Rattle.point_values.specs.Known.{values_of};
ghost use Rattle.point_values.specs.Among.{IsNarrowClaim};
ghost use Rattle.point_values.specs.Truth.{claim_holds};

use crate::claims::judge;
use exact_fractions::Exact;
use script_claims::Claim;

// Whether the claim holds, of which no number is too wide.
fn is_met(values: &[Option<Exact>], claim: Claim) -> bool
    requires normal { HasNormalBounds claim }
    requires narrow { IsNarrowClaim (values_of values.now) claim }
    ensures { result ≡ claim_holds (values_of values.now) claim }
{
    match judge(values, claim) {
        Some(judged) => judged.holds,
        None => false,
    }
}

// Whether all claims hold, of which no number is too wide.
fn are_met(values: &[Option<Exact>], claims: &[Claim]) -> bool
    requires normal { All HasNormalBounds claims.now }
    requires narrow { AllByRecursion (IsNarrowClaim (values_of values.now)) claims.now }
    ensures { result ≡ list_all (claim_holds (values_of values.now)) claims.now }
{
    let mut rest = claims;
    while let [claim, later @ ..] = rest {
        if !is_met(values, *claim) {
            return false;
        }
        rest = later;
    }
    true
}

/// Whether all claims of some case hold, of which no number is too wide.
pub fn some_case_is_met(values: &[Option<Exact>], cases: &[Vec<Claim>]) -> bool
    requires normal { AllByRecursion (All HasNormalBounds) (map (λ case. case.items) cases.now) }
    requires narrow { AllByRecursion (AllByRecursion (IsNarrowClaim (values_of values.now)))
        (map (λ case. case.items) cases.now) }
    ensures { result ≡ list_any (list_all (claim_holds (values_of values.now)))
        (map (λ case. case.items) cases.now) }
{
    let mut rest = cases;
    while let [case, later @ ..] = rest {
        if are_met(values, case.as_slice()) {
            return true;
        }
        rest = later;
    }
    false
}
