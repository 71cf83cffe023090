// Quotients by numbers of one sign, and the ends of those by numbers above 0.
ghost use Rattle.fx_model.specs.Fraction.{zero_ℚ, ◌<ℚ◌};
ghost use Rattle.fx_model.specs.Enclosure.{Range, Lies, Quotients, IsInfimum, IsSupremum};
ghost use Rattle.fx_model.specs.Enclosure.{IsEnclosure};
ghost use Rattle.dyadic.specs.Values.{value_of};
ghost use Rattle.dyadic.specs.Ends.{bound_of};
ghost use Rattle.interval.specs.Spans.{span_of};

use crate::ends::opposite;
use crate::order::{not_negative, not_positive};
use crate::span::Span;
use dyadic::{End, div_down};

/// Two intervals with the same quotients, the second of numbers above 0.
#[inline(always)]
pub fn rising(x: &Span, y: &Span) -> (Span, Span)
    requires { ¬ Lies (span_of y.now) zero_ℚ }
    ensures above { zero_ℚ <ℚ value_of result.1.low }
    ensures same { (r : Range) → IsEnclosure (Quotients (span_of result.0) (span_of result.1)) r
        → IsEnclosure (Quotients (span_of x.now) (span_of y.now)) r }
{
    if not_positive(y.low) {
        (x.neg(), y.neg())
    } else {
        (*x, *y)
    }
}

/// The lower end of the quotients by numbers above 0, rounded down.
#[inline(always)]
pub fn low_quotient(x: &Span, y: &Span) -> End
    requires { zero_ℚ <ℚ value_of y.now.low }
    ensures { IsInfimum (Quotients (span_of x.now) (span_of y.now)) (bound_of result) }
{
    let divisor = if not_negative(x.low) { y.high } else { y.low };
    div_down(x.low, divisor)
}

/// The upper end of the quotients by numbers above 0, rounded up.
#[inline(always)]
pub fn high_quotient(x: &Span, y: &Span) -> End
    requires { zero_ℚ <ℚ value_of y.now.low }
    ensures { IsSupremum (Quotients (span_of x.now) (span_of y.now)) (bound_of result) }
{
    opposite(low_quotient(&x.neg(), y))
}
