// Literals as intervals.
ghost use lib.IntN.{neg_ℤ};
ghost use Rattle.std.specs.Prelude.{◌≡◌, ◌≤◌, ◌<◌, ◌≤ℤ◌, pos, negsuc, true, false};
ghost use Rattle.std.specs.Int.RustNames.{unsigned_abs};
ghost use Rattle.fx_model.specs.Fraction.{Fraction, ◌*ℚ◌};
ghost use Rattle.fx_model.specs.Powers.{whole, scaled};
ghost use Rattle.fx_model.specs.Grid.{signed};
ghost use Rattle.fx_model.specs.Enclosure.{IsEnclosure};
ghost use Rattle.fx_model.specs.Expression.{literal_value};
ghost use Rattle.literal.specs.Normal.{IsNormal};
ghost use Rattle.interval.specs.Intervals.{range_of};
ghost use Rattle.interval.specs.Literals.{Alone};
ghost use Rattle.interval.specs.Results.{point_of};

use crate::interval::Interval;
use dyadic::{ratio_down, ratio_up};
use fx_model::Literal;

/// The least interval that holds the literal's value, or its negative.
#[inline(always)]
pub fn enclose(lit: &Literal, negative: bool) -> Interval
    requires { IsNormal lit.now }
    ensures best { IsEnclosure (Alone (signed negative (literal_value lit.now))) (range_of result) }
    ensures is { result ≡ point_of (signed negative (literal_value lit.now)) }
{
    around_literal(lit, negative)
}

#[inline(always)]
fn around_literal(lit: &Literal, negative: bool) -> Interval
    requires { IsNormal lit.now }
    ensures { IsEnclosure (Alone (signed negative (literal_value lit.now))) (range_of result) }
{
    let power = 10u128.pow(lit.ten.unsigned_abs());
    if lit.ten < 0 {
        around(with_sign(negative, lit.num), power, lit.two)
    } else {
        around(with_sign(negative, lit.num * power), 1, lit.two)
    }
}

// A size with its sign.
#[inline(always)]
fn with_sign(negative: bool, size: u128) -> i128
    requires { size ≤ 100000000000000000000000000000000000000 }
    ensures plus { negative ≡ false → result ≡ pos size }
    ensures minus { negative ≡ true → result ≡ neg_ℤ (pos size) }
    ensures small { unsigned_abs result ≤ 100000000000000000000000000000000000000 }
{
    let number = size as i128;
    if negative { -number } else { number }
}

// The least interval that holds number * 2^two / divisor.
#[inline(always)]
fn around(number: i128, divisor: u128, two: i32) -> Interval
    requires number { unsigned_abs number ≤ 100000000000000000000000000000000000000 }
    requires not_zero { 0 < divisor }
    requires divisor { divisor ≤ 1000000000000000000000000000000 }
    requires low { negsuc 611 ≤ℤ two }
    requires high { two ≤ℤ pos 612 }
    ensures { (x : Fraction) → whole (pos divisor) *ℚ x ≡ scaled number two
        → IsEnclosure (Alone x) (range_of result) }
{
    Interval {
        lo: ratio_down(number, divisor, two),
        hi: ratio_up(number, divisor, two),
    }
}
