// The ends of a product. Each is taken at a corner that the signs determine, or at one of two.
ghost use Rattle.fx_model.specs.Enclosure.{Products, IsInfimum, IsSupremum};
ghost use Rattle.dyadic.specs.Ends.{bound_of};
ghost use Rattle.interval.specs.Spans.{span_of};

use crate::ends::opposite;
use crate::order::{not_negative, not_positive};
use crate::span::Span;
use dyadic::{End, lesser, mul_down};

/// The lower end of the products of two intervals, rounded down.
#[inline(always)]
pub fn low_product(x: &Span, y: &Span) -> End
    ensures { IsInfimum (Products (span_of x.now) (span_of y.now)) (bound_of result) }
{
    if not_negative(y.low) {
        if not_negative(x.low) {
            return mul_down(x.low, y.low);
        }
        return mul_down(x.low, y.high);
    }
    if not_positive(y.high) {
        if not_negative(x.high) {
            return mul_down(x.high, y.low);
        }
        return mul_down(x.high, y.high);
    }
    if not_negative(x.low) {
        return mul_down(x.high, y.low);
    }
    if not_positive(x.high) {
        return mul_down(x.low, y.high);
    }
    lesser(mul_down(x.low, y.high), mul_down(x.high, y.low))
}

/// The upper end of the products of two intervals, rounded up.
#[inline(always)]
pub fn high_product(x: &Span, y: &Span) -> End
    ensures { IsSupremum (Products (span_of x.now) (span_of y.now)) (bound_of result) }
{
    opposite(low_product(&x.neg(), y))
}
