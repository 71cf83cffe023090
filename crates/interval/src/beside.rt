// Whether 0 and 1 lie in an interval, and on which side of 0 it stands.
ghost use Rattle.std.specs.Prelude.{◌≡◌, ◌↔◌, not, IsTrue};
ghost use Rattle.fx_model.specs.Fraction.{zero_ℚ, one_ℚ};
ghost use Rattle.fx_model.specs.Grid as grid;
ghost use Rattle.fx_model.specs.Grid.{le_bound};

use crate::ends::one;
use crate::interval::Interval;

impl Interval {
    ghost use Rattle.fx_model.specs.Enclosure.{Lies};
    ghost use Rattle.interval.specs.Intervals.{range_of};
    ghost use Rattle.interval.specs.Results.{has_zero};
    ghost use Rattle.interval.specs.Members.{has_one};

    /// Whether 0 lies in the interval.
    #[inline(always)]
    pub fn has_zero(self) -> bool
        ensures is { result ≡ has_zero (range_of self) }
        ensures lies { IsTrue result ↔ Lies (range_of self) zero_ℚ }
    {
        self.lo.is_up_to_zero() && self.hi.is_from_zero()
    }

    /// Whether 1 lies in the interval.
    pub fn has_one(self) -> bool
        ensures is { result ≡ has_one (range_of self) }
        ensures lies { IsTrue result ↔ Lies (range_of self) one_ℚ }
    {
        self.lo.is_at_most(one()) && one().is_at_most(self.hi)
    }

    /// Whether nothing below 0 lies in the interval.
    #[inline(always)]
    pub fn is_not_negative(self) -> bool
        ensures { result ≡ le_bound (grid.At zero_ℚ) (range_of self).low }
    {
        self.lo.is_from_zero()
    }

    /// Whether nothing above 0 lies in the interval.
    #[inline(always)]
    pub fn is_not_positive(self) -> bool
        ensures { result ≡ le_bound (range_of self).high (grid.At zero_ℚ) }
    {
        self.hi.is_up_to_zero()
    }

    /// Whether all that lies in the interval is above 0.
    pub fn is_positive(self) -> bool
        ensures { result ≡ not (le_bound (range_of self).low (grid.At zero_ℚ)) }
    {
        !self.lo.is_up_to_zero()
    }
}
