// Single ends.
ghost use Rattle.std.specs.Prelude.{◌≡◌};
ghost use Rattle.fx_model.specs.Grid.{neg_bound};
ghost use Rattle.fx_model.specs.Enclosure.{LowSum, HighSum};
ghost use Rattle.fx_model.specs.Fraction.{zero_ℚ, one_ℚ};
ghost use Rattle.fx_model.specs.Grid as grid;
ghost use Rattle.dyadic.specs.Ends.{bound_of};
ghost use Rattle.interval.specs.Squares.{LowSquare, HighSquare};
ghost use Rattle.interval.specs.Ends.{IsNumberOf};

use dyadic::{Dyadic, End, add_down, add_up, mul_down, mul_up};

/// The number at a finite end; `None` at an infinite one.
#[inline(always)]
pub fn finite(end: End) -> Option<Dyadic>
    ensures { IsNumberOf (bound_of end) result }
{
    match end {
        End::At(number) => Some(number),
        _ => None,
    }
}

/// The end on the other side of 0.
#[inline(always)]
pub fn opposite(end: End) -> End
    ensures { bound_of result ≡ neg_bound (bound_of end) }
{
    match end {
        End::Low => End::High,
        End::At(number) => End::At(number.neg()),
        End::High => End::Low,
    }
}

/// The lower end of a sum, rounded down; minus infinity where an end is infinite.
#[inline(always)]
pub fn low_sum(a: End, b: End) -> End
    ensures { LowSum (bound_of a) (bound_of b) (bound_of result) }
{
    match a {
        End::At(a) => match b {
            End::At(b) => add_down(a, b),
            _ => End::Low,
        },
        _ => End::Low,
    }
}

/// The upper end of a sum, rounded up; plus infinity where an end is infinite.
#[inline(always)]
pub fn high_sum(a: End, b: End) -> End
    ensures { HighSum (bound_of a) (bound_of b) (bound_of result) }
{
    match a {
        End::At(a) => match b {
            End::At(b) => add_up(a, b),
            _ => End::High,
        },
        _ => End::High,
    }
}

/// The lower end of a square, from the lower end of the sizes.
pub fn low_square(a: End) -> End
    ensures { LowSquare (bound_of a) (bound_of result) }
{
    match a {
        End::At(a) => mul_down(a, a),
        _ => End::Low,
    }
}

/// The upper end of a square, from the upper end of the sizes.
pub fn high_square(a: End) -> End
    ensures { HighSquare (bound_of a) (bound_of result) }
{
    match a {
        End::At(a) => mul_up(a, a),
        _ => End::High,
    }
}

/// The end 0.
#[inline(always)]
pub fn zero() -> End
    ensures { bound_of result ≡ grid.At zero_ℚ }
{
    End::At(Dyadic::zero())
}

/// The end 1.
#[inline(always)]
pub fn one() -> End
    ensures { bound_of result ≡ grid.At one_ℚ }
{
    End::At(Dyadic::one())
}
