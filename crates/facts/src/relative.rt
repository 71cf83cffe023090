ghost use Rattle.std.specs.Prelude.{◌↔◌, ◌≡◌, IsTrue, IsNone, IfSome};
ghost use Rattle.fx_model.specs.Fraction.{neg_ℚ, one_ℚ};
ghost use Rattle.dyadic.specs.Ends.{bound_of};
ghost use Rattle.interval.specs.Intervals.{range_of};
ghost use Rattle.facts.specs.Ranges.{IsBelow, IsAboveMinusOne, IsAboveMinusOne-prop};

use dyadic::End;
use interval::Interval;

/// An interval of relative errors: its lower end is above -1.
#[derive(Clone, Copy, PartialEq, Eq, Debug)]
pub struct RelativeError {
    interval: Interval,
    pub ghost above_minus_one: { IsAboveMinusOne (range_of interval) } by { IsAboveMinusOne-prop
        (range_of interval) },
}

impl RelativeError {
    ghost use Rattle.facts.specs.Parts.{error_from};

    /// The interval as one of relative errors. None exactly where its lower end isn't above -1.
    #[inline(always)]
    pub fn new(interval: Interval) -> Option<RelativeError>
        ensures refused { IsNone result ↔ (¬ IsAboveMinusOne (range_of interval)) }
        ensures made { IfSome result (λ error. error.interval ≡ interval) }
        ensures is { result ≡ error_from interval }
    {
        if is_above_minus_one(interval.lo()) {
            Some(RelativeError { interval })
        } else {
            None
        }
    }

    /// The interval.
    #[inline(always)]
    pub fn interval(self) -> Interval
        ensures { result ≡ self.interval }
    {
        self.interval
    }
}

// Whether an end is above -1.
#[inline(always)]
fn is_above_minus_one(end: End) -> bool
    ensures { IsTrue result ↔ IsBelow (neg_ℚ one_ℚ) (bound_of end) }
{
    match end {
        End::Low => false,
        End::At(number) => number.is_above_minus_one(),
        End::High => true,
    }
}
