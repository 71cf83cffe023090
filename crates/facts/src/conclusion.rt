// Facts of parts that may be missing.
ghost use Rattle.std.specs.Prelude.{◌≡◌};
ghost use Rattle.facts.specs.Conclusions.{bnd_of, abs_of, fix_of};
ghost use Rattle.facts.specs.RelativeConclusions.{rel_of, void_only};

use crate::fact::Fact;
use crate::place::FixPlace;
use crate::relative::RelativeError;
use crate::size::Size;
use fx_model::ExprId;
use interval::Interval;

impl Fact {
    /// A bound of the expression, where there is an interval.
    #[inline(always)]
    pub fn bnd(x: ExprId, interval: Option<Interval>) -> Option<Fact>
        ensures { result ≡ bnd_of x interval }
    {
        match interval {
            Some(i) => Some(Fact::Bnd(x, i)),
            None => None,
        }
    }

    /// A bound of the expression's absolute value, where there is one.
    #[inline(always)]
    pub fn abs(x: ExprId, size: Option<Size>) -> Option<Fact>
        ensures { result ≡ abs_of x size }
    {
        match size {
            Some(s) => Some(Fact::Abs(x, s)),
            None => None,
        }
    }

    /// That the expression is a multiple, where there is an exponent.
    pub fn fix(x: ExprId, place: Option<FixPlace>) -> Option<Fact>
        ensures { result ≡ fix_of x place }
    {
        match place {
            Some(k) => Some(Fact::Fix(x, k)),
            None => None,
        }
    }

    /// A relative error of the first over the second, where there is one.
    #[inline(always)]
    pub fn rel(x: ExprId, y: ExprId, error: Option<RelativeError>) -> Option<Fact>
        ensures { result ≡ rel_of x y error }
    {
        match error {
            Some(e) => Some(Fact::Rel(x, y, Some(e))),
            None => None,
        }
    }

    /// VOID, where the conclusion is that.
    pub fn void_only(conclusion: Option<Fact>) -> Option<Fact>
        ensures { result ≡ void_only conclusion }
    {
        match conclusion {
            Some(Fact::Void) => Some(Fact::Void),
            _ => None,
        }
    }
}
