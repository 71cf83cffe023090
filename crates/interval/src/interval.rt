ghost use Rattle.std.specs.Prelude.{◌≡◌, ◌↔◌, IsTrue, IsNone, IfSome};
ghost use Rattle.interval.specs.Ends.{AreEnds, AreEnds-prop};

use crate::ends::{finite, high_square, high_sum, low_square, low_sum, opposite, zero};
use crate::order::{from_zero, in_order, up_to_zero};
use crate::products::{high_product, low_product};
use crate::quotients::{high_quotient, low_quotient, rising};
use crate::span::Span;
use dyadic::{Dyadic, End, greater, lesser};

/// An interval of fractions, whose ends are numbers of the grid or infinite.
#[derive(Clone, Copy, PartialEq, Eq, Debug)]
pub struct Interval {
    pub(crate) lo: End,
    pub(crate) hi: End,
    pub ghost ordered: { AreEnds lo hi } by { AreEnds-prop lo hi },
}

impl Interval {
    ghost use Rattle.fx_model.specs.Enclosure.{Negations, Sizes, IsNegation, IsSize};
    ghost use Rattle.fx_model.specs.Enclosure.{IsSquare, IsSum, IsDifference, IsProduct};
    ghost use Rattle.fx_model.specs.Enclosure.{Quotients, IsQuotient, IsEnclosure};
    ghost use Rattle.fx_model.specs.Enclosure.{Within, Lies};
    ghost use Rattle.interval.specs.Intervals.{range_of};
    ghost use Rattle.interval.specs.Spans.{IsSpan, span_of};
    ghost use Rattle.interval.specs.Exact.{IsExact};
    ghost use Rattle.interval.specs.Results.{negation_of, size_of, sum_of, difference_of};
    ghost use Rattle.interval.specs.Results.{product_of, quotient_of};
    ghost use Rattle.interval.specs.Meets.{interval_from, common_of, hull_of};
    ghost use Rattle.interval.specs.Pairs.{AreApart, IsCommon, IsHull};
    ghost use Rattle.fx_model.specs.Fraction.{zero_ℚ, ◌<ℚ◌};
    ghost use Rattle.dyadic.specs.Values.{value_of};

    /// The interval with these ends. None where the lower end is plus infinity, the upper is
    /// minus infinity, or they are out of order.
    #[inline(always)]
    pub fn new(lo: End, hi: End) -> Option<Interval>
        ensures refused { IsNone result ↔ (¬ AreEnds lo hi) }
        ensures ends { IfSome result (λ made. (made.lo ≡ lo) × (made.hi ≡ hi)) }
        ensures is { result ≡ interval_from lo hi }
    {
        if in_order(&lo, &hi) {
            Some(Interval { lo, hi })
        } else {
            None
        }
    }

    /// The lower end, a number or minus infinity.
    #[inline(always)]
    pub fn lo(self) -> End
        ensures { result ≡ self.lo }
    {
        self.lo
    }

    /// The upper end, a number or plus infinity.
    #[inline(always)]
    pub fn hi(self) -> End
        ensures { result ≡ self.hi }
    {
        self.hi
    }

    // The two ends, where they are finite.
    #[inline(always)]
    fn span(self) -> Option<Span>
        ensures { IsSpan self result }
    {
        let low = finite(self.lo)?;
        let high = finite(self.hi)?;
        Some(Span { low, high })
    }

    /// The negatives.
    #[inline(always)]
    pub fn neg(self) -> Interval
        ensures exact { IsExact (Negations (range_of self)) (range_of result) }
        ensures best { IsNegation (range_of self) (range_of result) }
        ensures is { result ≡ negation_of self }
    {
        Interval {
            lo: opposite(self.hi),
            hi: opposite(self.lo),
        }
    }

    /// The absolute values.
    #[inline(always)]
    pub fn abs(self) -> Interval
        ensures exact { IsExact (Sizes (range_of self)) (range_of result) }
        ensures best { IsSize (range_of self) (range_of result) }
        ensures is { result ≡ size_of self }
    {
        self.sizes()
    }

    #[inline(always)]
    fn sizes(self) -> Interval
        ensures exact { IsExact (Sizes (range_of self)) (range_of result) }
        ensures best { IsSize (range_of self) (range_of result) }
    {
        if from_zero(&self.lo) {
            return self;
        }
        if up_to_zero(&self.hi) {
            return self.neg();
        }
        Interval {
            lo: zero(),
            hi: greater(opposite(self.lo), self.hi),
        }
    }

    /// The least interval that holds the square of each number.
    #[inline(always)]
    pub fn square(self) -> Interval
        ensures { IsSquare (range_of self) (range_of result) }
    {
        let size = self.abs();
        Interval {
            lo: low_square(size.lo),
            hi: high_square(size.hi),
        }
    }

    /// The least interval that holds every sum.
    #[inline(always)]
    pub fn add(self, other: Interval) -> Interval
        ensures best { IsSum (range_of self) (range_of other) (range_of result) }
        ensures is { result ≡ sum_of self other }
    {
        Interval {
            lo: low_sum(self.lo, other.lo),
            hi: high_sum(self.hi, other.hi),
        }
    }

    /// The least interval that holds every difference.
    #[inline(always)]
    pub fn sub(self, other: Interval) -> Interval
        ensures best { IsDifference (range_of self) (range_of other) (range_of result) }
        ensures is { result ≡ difference_of self other }
    {
        Interval {
            lo: low_sum(self.lo, opposite(other.hi)),
            hi: high_sum(self.hi, opposite(other.lo)),
        }
    }

    /// The least interval that holds every product, or the whole line where an end is infinite.
    #[inline(always)]
    pub fn mul(self, other: Interval) -> Interval
        ensures best { IsProduct (range_of self) (range_of other) (range_of result) }
        ensures is { result ≡ product_of self other }
    {
        self.product(other)
    }

    #[inline(always)]
    fn product(self, other: Interval) -> Interval
        ensures { IsProduct (range_of self) (range_of other) (range_of result) }
    {
        let Some(x) = self.span() else {
            return Interval::whole();
        };
        let Some(y) = other.span() else {
            return Interval::whole();
        };
        Interval {
            lo: low_product(&x, &y),
            hi: high_product(&x, &y),
        }
    }

    /// Whether each number of this interval lies in the other.
    #[inline(always)]
    pub fn inside(self, other: Interval) -> bool
        ensures { IsTrue result ↔ Within (range_of self) (range_of other) }
    {
        other.lo.is_at_most(self.lo) && self.hi.is_at_most(other.hi)
    }

    /// Whether the number lies in the interval.
    #[inline(always)]
    pub fn has(self, x: Dyadic) -> bool
        ensures { IsTrue result ↔ Lies (range_of self) (value_of x) }
    {
        self.lo.is_at_most(End::At(x)) && End::At(x).is_at_most(self.hi)
    }

    /// What lies in both. None where nothing does.
    #[inline(always)]
    pub fn meet(self, other: Interval) -> Option<Interval>
        ensures apart { IsNone result ↔ AreApart (range_of self) (range_of other) }
        ensures common { IfSome result
            (λ both. IsCommon (range_of self) (range_of other) (range_of both)) }
        ensures is { result ≡ common_of self other }
    {
        Interval::new(greater(self.lo, other.lo), lesser(self.hi, other.hi))
    }

    /// The least interval that holds both.
    #[inline(always)]
    pub fn hull(self, other: Interval) -> Interval
        ensures best { IsHull (range_of self) (range_of other) (range_of result) }
        ensures is { result ≡ hull_of self other }
    {
        Interval {
            lo: lesser(self.lo, other.lo),
            hi: greater(self.hi, other.hi),
        }
    }

    /// The least interval that holds every quotient, or the whole line where an end is infinite.
    /// None where 0 lies in the divisor.
    #[inline(always)]
    pub fn div(self, other: Interval) -> Option<Interval>
        ensures zero { IsNone result ↔ Lies (range_of other) zero_ℚ }
        ensures quotient { IfSome result
            (λ made. IsQuotient (range_of self) (range_of other) (range_of made)) }
        ensures is { result ≡ quotient_of self other }
    {
        if other.has_zero() {
            return None;
        }
        Some(self.quotient_by(other))
    }

    // The quotient by an interval in which 0 doesn't lie.
    #[inline(always)]
    fn quotient_by(self, other: Interval) -> Interval
        requires { ¬ Lies (range_of other) zero_ℚ }
        ensures { IsQuotient (range_of self) (range_of other) (range_of result) }
    {
        let Some(x) = self.span() else {
            return Interval::whole();
        };
        let Some(y) = other.span() else {
            return Interval::whole();
        };
        Interval::quotient(&x, &y)
    }

    // The quotient by an interval without 0.
    #[inline(always)]
    fn quotient(x: &Span, y: &Span) -> Interval
        requires { ¬ Lies (span_of y.now) zero_ℚ }
        ensures { IsEnclosure (Quotients (span_of x.now) (span_of y.now)) (range_of result) }
    {
        let (dividends, divisors) = rising(x, y);
        Interval::rising_quotient(&dividends, &divisors)
    }

    // The quotient by numbers above 0.
    #[inline(always)]
    fn rising_quotient(x: &Span, y: &Span) -> Interval
        requires { zero_ℚ <ℚ value_of y.now.low }
        ensures { IsEnclosure (Quotients (span_of x.now) (span_of y.now)) (range_of result) }
    {
        Interval {
            lo: low_quotient(x, y),
            hi: high_quotient(x, y),
        }
    }
}
