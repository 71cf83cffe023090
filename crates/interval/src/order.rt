// Signs, and ends that make an interval.
ghost use Rattle.std.specs.Prelude.{◌↔◌, IsTrue};
ghost use Rattle.fx_model.specs.Fraction.{◌≤ℚ◌, zero_ℚ};
ghost use Rattle.fx_model.specs.Grid as grid;
ghost use Rattle.fx_model.specs.Enclosure.{BoundLe};
ghost use Rattle.dyadic.specs.Values.{value_of};
ghost use Rattle.dyadic.specs.Ends.{bound_of};
ghost use Rattle.interval.specs.Ends.{AreEnds};

use dyadic::{Dyadic, End};

/// Whether a number is 0 or above.
#[inline(always)]
pub fn not_negative(a: Dyadic) -> bool
    ensures { IsTrue result ↔ zero_ℚ ≤ℚ value_of a }
{
    a.mantissa() >= 0
}

/// Whether a number is 0 or below.
#[inline(always)]
pub fn not_positive(a: Dyadic) -> bool
    ensures { IsTrue result ↔ value_of a ≤ℚ zero_ℚ }
{
    a.mantissa() <= 0
}

/// Whether an end is 0 or above.
#[inline(always)]
pub fn from_zero(end: &End) -> bool
    ensures { IsTrue result ↔ BoundLe (grid.At zero_ℚ) (bound_of end.now) }
{
    match end {
        End::Low => false,
        End::At(a) => not_negative(*a),
        End::High => true,
    }
}

/// Whether an end is 0 or below.
#[inline(always)]
pub fn up_to_zero(end: &End) -> bool
    ensures { IsTrue result ↔ BoundLe (bound_of end.now) (grid.At zero_ℚ) }
{
    match end {
        End::Low => true,
        End::At(a) => not_positive(*a),
        End::High => false,
    }
}

/// Whether two ends make an interval: they are in order, the lower isn't plus infinity, and the
/// upper isn't minus infinity.
#[inline(always)]
pub fn in_order(lo: &End, hi: &End) -> bool
    ensures { IsTrue result ↔ AreEnds lo.now hi.now }
{
    match lo {
        End::Low => match hi {
            End::Low => false,
            _ => true,
        },
        End::At(lo) => match hi {
            End::Low => false,
            End::At(hi) => (*lo).is_at_most(*hi),
            End::High => true,
        },
        End::High => false,
    }
}
