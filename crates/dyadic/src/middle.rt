// Numbers between two others.
ghost use Rattle.std.specs.Prelude.{◌≡◌, ◌≤◌, ◌<◌, ◌-◌, ◌*◌, ◌*ℤ◌, ◌≤ℤ◌, pos, negsuc, MatchOption};
ghost use Rattle.std.specs.Int.RustNames.{unsigned_abs};
ghost use Rattle.fx_model.specs.Fraction.{Fraction, ◌≤ℚ◌};
ghost use Rattle.fx_model.specs.Grid.{IsDown, IsUp};
ghost use Rattle.fx_model.specs.Grid as grid;
ghost use Rattle.dyadic.specs.Cut.{IsLong, IsSigned};
ghost use Rattle.dyadic.specs.Middle.{halfway, part_of, IsMiddle, IsBetween};
ghost use Rattle.dyadic.specs.Values.{value_of};

use crate::cut::LeadingDigits;
use crate::number::{Dyadic, End};
use crate::products::Signed;
use crate::rounding::{round_down, round_up};
use crate::sums::{Term, sum, term_of};

// The greatest grid number that is at most a value, which isn't below `low`.
fn down_from(low: Dyadic, value: Signed) -> Dyadic
    requires long { IsLong value.size }
    requires least { negsuc 2999 ≤ℤ value.size.two }
    requires most { value.size.two ≤ℤ pos 3000 }
    ensures { (x : Fraction) → IsSigned value x → value_of low ≤ℚ x
        → IsDown x (grid.At (value_of result)) }
{
    match round_down(value.negative, value.size) {
        End::At(number) => number,
        End::Low => low,
        End::High => low,
    }
}

// The least grid number that is at least a value, which isn't above `high`.
fn up_to(high: Dyadic, value: Signed) -> Dyadic
    requires long { IsLong value.size }
    requires least { negsuc 2999 ≤ℤ value.size.two }
    requires most { value.size.two ≤ℤ pos 3000 }
    ensures { (x : Fraction) → IsSigned value x → x ≤ℚ value_of high
        → IsUp x (grid.At (value_of result)) }
{
    match round_up(value.negative, value.size) {
        End::At(number) => number,
        End::Low => high,
        End::High => high,
    }
}

// (a + b) / 2, with enough digits to be rounded.
fn half_sum(a: Dyadic, b: Dyadic) -> Signed
    ensures cuts { IsSigned result (halfway (value_of a) (value_of b)) }
    ensures long { IsLong result.size }
    ensures least { negsuc 2999 ≤ℤ result.size.two }
    ensures most { result.size.two ≤ℤ pos 3000 }
{
    let total = sum(term_of(a), term_of(b));
    Signed {
        negative: total.negative,
        size: total.size.halved().long(),
    }
}

/// The point at which the range from a to b is halved: (a + b) / 2 rounded down where that is above
/// a, else rounded up. None exactly where no number of the grid lies strictly between a and b.
pub fn halve_between(a: Dyadic, b: Dyadic) -> Option<Dyadic>
    requires { value_of a ≤ℚ value_of b }
    ensures { MatchOption result ((g : Fraction) → ¬ (IsBetween (value_of a) (value_of b) g))
        (λ m. (IsBetween (value_of a) (value_of b) (value_of m)
        × IsMiddle (value_of a) (value_of b) (value_of m))) }
{
    let half = half_sum(a, b);
    let lower = down_from(a, half);
    if a.is_below(lower) {
        return Some(lower);
    }
    let upper = up_to(b, half);
    if upper.is_below(b) { Some(upper) } else { None }
}

// A multiple of a number.
fn times(a: Dyadic, count: u8) -> Term
    requires { count ≤ 64 }
    ensures mantissa { result.mantissa ≡ a.mantissa *ℤ pos count }
    ensures exponent { result.exponent ≡ a.exponent }
    ensures small { unsigned_abs result.mantissa < 73786976294838206464 }
    ensures low { negsuc 511 ≤ℤ result.exponent }
    ensures high { result.exponent ≤ℤ pos 571 }
{
    Term {
        mantissa: a.mantissa() as i128 * count as i128,
        exponent: a.exponent(),
    }
}

/// The i-th of the points that cut the range from a to b into n parts: ((n - i) * a + i * b) / n,
/// rounded down.
pub fn part_down(a: Dyadic, b: Dyadic, i: u8, n: u8) -> Dyadic
    requires ordered { value_of a ≤ℚ value_of b }
    requires inside { 0 < i }
    requires before { i < n }
    requires parts { n ≤ 64 }
    ensures { IsDown (part_of (value_of a) (value_of b) i n) (grid.At (value_of result)) }
{
    let total = sum(times(a, n - i), times(b, i));
    down_from(
        a,
        Signed {
            negative: total.negative,
            size: total.size.divided(n as u128).long(),
        },
    )
}
