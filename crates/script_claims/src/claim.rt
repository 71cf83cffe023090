ghost use Rattle.std.specs.Prelude.{◌≡◌};
ghost use Rattle.script_claims.specs.Claims.{denial};
ghost use Rattle.script_claims.specs.Facts.{HasNormalBounds, hypothesis_fact, want_of, slot_of};
ghost use Rattle.script_claims.specs.Facts.{relative_fact};

use facts::{Fact, FixPlace, RelativeError, Slot};
use fx_model::ExprId;
use goals::Want;
use interval::Interval;
use literal_order::Written;
use script_bounds::{inward, outward};

/// What a proposition says of the nodes of its expressions.
#[derive(Clone, Copy, PartialEq, Eq, Debug)]
pub enum Claim {
    /// `e in [a, b]`, `e >= a`, `e <= b`: the value lies between the bounds that are there.
    Bounded(ExprId, Option<Written>, Option<Written>),
    /// `e in ?`.
    Asked(ExprId),
    /// `x -/ y in [a, b]`: both values are 0, or the first over the second, less 1, lies between
    /// the bounds.
    Relative(ExprId, ExprId, Written, Written),
    /// `x -/ y in ?`.
    RelativeAsked(ExprId, ExprId),
    /// `not e <= n`: the value is above the bound.
    Above(ExprId, Written),
    /// `not e >= n`: the value is below the bound.
    Below(ExprId, Written),
    /// `@FIX(e, k)`: the value is a whole multiple of 2^k. Of k past 1025 and -1025 these stand for
    /// it.
    Multiple(ExprId, i16),
}

impl Claim {
    /// The fact that the claim gives as a hypothesis. None for a question, for bounds that are out
    /// of order, for relative bounds of which the lower isn't above -1, and for an exponent that
    /// isn't from -1024 to 512.
    pub fn hypothesis(self) -> Option<Fact>
        requires { HasNormalBounds self }
        ensures { result ≡ hypothesis_fact self }
    {
        match self {
            Claim::Bounded(x, lower, upper) => Fact::bnd(x, outward(lower, upper)),
            Claim::Relative(x, y, lower, upper) => {
                relative_fact(x, y, outward(Some(lower), Some(upper)))
            }
            Claim::Above(x, bound) => Fact::bnd(x, outward(Some(bound), None)),
            Claim::Below(x, bound) => Fact::bnd(x, outward(None, Some(bound))),
            Claim::Multiple(x, exponent) => Fact::fix(x, FixPlace::new(exponent)),
            Claim::Asked(_) => None,
            Claim::RelativeAsked(_, _) => None,
        }
    }

    /// What the claim wants as a goal. Nothing settles `@FIX` and what has a `not` before it, which
    /// are no goals.
    pub fn want(self) -> Want
        requires { HasNormalBounds self }
        ensures { result ≡ want_of self }
    {
        match self {
            Claim::Bounded(_, lower, upper) => Want::Inside(inward(lower, upper)),
            Claim::Relative(_, _, lower, upper) => Want::Inside(inward(Some(lower), Some(upper))),
            Claim::Above(_, _) => Want::Inside(None),
            Claim::Below(_, _) => Want::Inside(None),
            Claim::Multiple(_, _) => Want::Inside(None),
            Claim::Asked(_) => Want::Ask,
            Claim::RelativeAsked(_, _) => Want::Ask,
        }
    }

    /// The kind of fact that the claim is about, with its expressions.
    pub fn slot(self) -> Slot
        ensures { result ≡ slot_of self }
    {
        match self {
            Claim::Bounded(x, _, _) => Slot::Bnd(x),
            Claim::Asked(x) => Slot::Bnd(x),
            Claim::Relative(x, y, _, _) => Slot::Rel(x, y),
            Claim::RelativeAsked(x, y) => Slot::Rel(x, y),
            Claim::Above(x, _) => Slot::Bnd(x),
            Claim::Below(x, _) => Slot::Bnd(x),
            Claim::Multiple(x, _) => Slot::Fix(x),
        }
    }

    /// What it claims with a `not` before it. Only `e <= n` and `e >= n` have one in a script.
    pub fn denial(self) -> Claim
        ensures value { result ≡ denial self }
        ensures normal { HasNormalBounds self → HasNormalBounds result }
    {
        match self {
            Claim::Bounded(x, None, Some(bound)) => Claim::Above(x, bound),
            Claim::Bounded(x, Some(bound), None) => Claim::Below(x, bound),
            _ => self,
        }
    }
}

// A relative error, where there is an interval and it lies above -1.
fn relative_fact(x: ExprId, y: ExprId, interval: Option<Interval>) -> Option<Fact>
    ensures { result ≡ relative_fact x y interval }
{
    match RelativeError::new(interval?) {
        Some(error) => Some(Fact::Rel(x, y, Some(error))),
        None => None,
    }
}
