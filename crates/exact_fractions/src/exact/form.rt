// Fractions without common divisors of their numbers.
ghost use Rattle.std.specs.Prelude.{◌≡◌, ◌<◌, ◌/◌, ◌^◌, int_lt, pos};
ghost use Rattle.std.specs.Int.RustNames.{unsigned_abs};
ghost use Rattle.exact_fractions.specs.Reduced.{IsSmall, over, signed_number};
ghost use Rattle.exact_fractions.specs.Reduced as spec;
ghost use Rattle.exact_fractions.specs.Exact.{value_of};

use super::Exact;
use crate::divisor::greatest_divisor;

/// The number of this size, which is below 2^127; 0 has no sign.
pub fn signed(negative: bool, size: u128) -> i128
    requires { size < 2 ^ 127 }
    ensures { result ≡ signed_number negative size }
{
    let size = size as i128;
    if negative { -size } else { size }
}

/// The fraction `num / den`, kept as it is given: the numbers have to be in lowest terms.
pub fn lowest(num: i128, den: u128) -> Exact
    requires { IsSmall num den }
    ensures { value_of result ≡ over num den }
{
    Exact { num, den }
}

/// Whether a numerator, and so its fraction, is below 0.
pub fn is_negative(num: i128) -> bool
    ensures { result ≡ int_lt num (pos 0) }
{
    num < 0
}

/// `num / g`, which is exact where `g` divides `num`; else it is rounded toward zero.
pub fn cofactor(num: i128, g: u128) -> i128
    requires small { unsigned_abs num < 2 ^ 127 }
    requires positive { 0 < g }
    ensures { result ≡ spec.cofactor num g }
{
    signed(is_negative(num), num.unsigned_abs() / g)
}

/// The fraction `num / den` in lowest terms; `den` is above 0, and both are below 2^127.
#[tactic(auto, using(crate::proofs::Factors::reducing))]
pub fn reduced(num: i128, den: u128) -> Exact
    requires num { unsigned_abs num < 2 ^ 127 }
    requires positive { 0 < den }
    requires den { den < 2 ^ 127 }
    ensures { value_of result ≡ over num den }
{
    let size = num.unsigned_abs();
    let g = greatest_divisor(size, den);
    lowest(signed(is_negative(num), size / g), den / g)
}
