// Single intervals.
ghost use Rattle.std.specs.Prelude.{◌≡◌};
ghost use Rattle.fx_model.specs.Fraction.{zero_ℚ, one_ℚ};
ghost use Rattle.dyadic.specs.Values.{value_of};

use crate::ends::zero;
use crate::interval::Interval;
use dyadic::{Dyadic, End};

impl Interval {
    ghost use Rattle.fx_model.specs.Enclosure.{IsEnclosure, whole_line};
    ghost use Rattle.interval.specs.Intervals.{range_of};
    ghost use Rattle.interval.specs.Literals.{Alone};
    ghost use Rattle.interval.specs.Results.{point_of, whole_interval, half_line};

    /// The numbers from minus to plus infinity.
    pub fn whole() -> Interval
        ensures range { range_of result ≡ whole_line }
        ensures is { result ≡ whole_interval }
    {
        Interval {
            lo: End::Low,
            hi: End::High,
        }
    }

    /// The number alone.
    #[inline(always)]
    pub fn point(number: Dyadic) -> Interval
        ensures best { IsEnclosure (Alone (value_of number)) (range_of result) }
        ensures is { result ≡ point_of (value_of number) }
    {
        Interval {
            lo: End::At(number),
            hi: End::At(number),
        }
    }

    /// 0 alone.
    pub fn zero() -> Interval
        ensures { result ≡ point_of zero_ℚ }
    {
        Interval::point(Dyadic::zero())
    }

    /// 1 alone.
    #[inline(always)]
    pub fn one() -> Interval
        ensures { result ≡ point_of one_ℚ }
    {
        Interval::point(Dyadic::one())
    }

    /// The numbers from 0 to plus infinity.
    pub fn not_negative() -> Interval
        ensures { result ≡ half_line }
    {
        Interval {
            lo: zero(),
            hi: End::High,
        }
    }
}
