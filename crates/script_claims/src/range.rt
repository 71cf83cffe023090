//! The range that claims give a variable.
ghost use Rattle.std.specs.Prelude.{◌≡◌, IfSome};
ghost use Rattle.std.specs.List.{AllByRecursion};
ghost use Rattle.script_claims.specs.Facts.{HasNormalBounds};
ghost use Rattle.script_claims.specs.Ranges as spec;
ghost use Rattle.script_claims.specs.Ranges.{IsOrdered};

use crate::claim::Claim;
use dyadic::{Dyadic, End};
use facts::Fact;
use fx_model::ExprId;
use interval::Interval;

/// A variable with its range.
#[derive(Clone, Copy, Debug)]
pub struct SplitRange {
    pub var: ExprId,
    pub low: Dyadic,
    pub high: Dyadic,
}

impl SplitRange {
    /// Whether the number lies strictly inside.
    pub fn has_inside(self, p: Dyadic) -> bool
        ensures { result ≡ spec.is_inside self p }
    {
        is_less(self.low, p) && is_less(p, self.high)
    }
}

/// Whether the first number is below the second.
pub fn is_less(a: Dyadic, b: Dyadic) -> bool
    ensures { result ≡ spec.is_less a b }
{
    a.is_below(b)
}

/// The interval as a range, where its ends are finite.
fn finite_range(x: ExprId, i: Interval) -> Option<SplitRange>
    ensures is { result ≡ spec.finite_range x i.lo i.hi }
    ensures ordered { IfSome result IsOrdered }
{
    match (i.lo(), i.hi()) {
        (End::At(low), End::At(high)) => Some(SplitRange { var: x, low, high }),
        _ => None,
    }
}

/// The range that a hypothesis gives a variable.
fn range_by(x: ExprId, fact: Option<Fact>) -> Option<SplitRange>
    ensures is { result ≡ spec.range_by x fact }
    ensures ordered { IfSome result IsOrdered }
{
    match fact {
        Some(Fact::Bnd(y, i)) => if y == x { finite_range(x, i) } else { None },
        _ => None,
    }
}

/// The range that the first such hypothesis gives it.
pub fn split_range(claims: &[Claim], x: ExprId) -> Option<SplitRange>
    requires { AllByRecursion HasNormalBounds claims.now }
    ensures is { result ≡ spec.split_range claims.now x }
    ensures ordered { IfSome result IsOrdered }
{
    match claims {
        [] => None,
        [claim, later @ ..] => match range_by(x, claim.hypothesis()) {
            Some(range) => Some(range),
            None => split_range(later, x),
        },
    }
}
