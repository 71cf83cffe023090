//! The order of literals, by what they stand for.

ghost use Rattle.std.specs.Prelude.{◌≡◌, ◌↔◌, ◌<◌, ◌&&◌, ◌||◌, ◌≤ℤ◌, ◌+ℤ◌, pos, negsuc, IsTrue};
ghost use Rattle.fx_model.specs.Fraction.{◌*ℚ◌, ◌≤ℚ◌, ◌<ℚ◌, zero_ℚ};
ghost use Rattle.fx_model.specs.Powers.{whole, scaled};
ghost use Rattle.fx_model.specs.Grid.{signed};
ghost use Rattle.fx_model.specs.Expression.{literal_value};
ghost use Rattle.literal.specs.Normal.{IsNormal};

use crate::wide::{is_below_raised, is_raised_below, product};
use fx_model::Literal;

// A literal's value as number * 2^two / divisor.
#[derive(Clone, Copy)]
struct Ratio {
    number: u128,
    divisor: u128,
}

fn ratio_of(lit: &Literal) -> Ratio
    requires { IsNormal lit.now }
    ensures value { whole (pos result.divisor) *ℚ literal_value lit.now
        ≡ scaled (pos result.number) lit.now.two }
    ensures some { 0 < result.divisor }
{
    let power = 10u128.pow(lit.ten.unsigned_abs());
    if lit.ten < 0 {
        Ratio {
            number: lit.num,
            divisor: power,
        }
    } else {
        Ratio {
            number: lit.num * power,
            divisor: 1,
        }
    }
}

// How much the first place is above the second.
fn places_above(high: i32, low: i32) -> u32
    requires low { negsuc 511 ≤ℤ low }
    requires high { high ≤ℤ pos 612 }
    requires ordered { low ≤ℤ high }
    ensures { high ≡ low +ℤ pos result }
{
    (high - low) as u32
}

// Whether the first is below the second.
fn is_less(a: &Literal, b: &Literal) -> bool
    requires first { IsNormal a.now }
    requires second { IsNormal b.now }
    ensures { IsTrue result ↔ literal_value a.now <ℚ literal_value b.now }
{
    let left = ratio_of(a);
    let right = ratio_of(b);
    let mine = product(left.number, right.divisor);
    let other = product(right.number, left.divisor);
    if a.two < b.two {
        is_below_raised(mine, other, places_above(b.two, a.two))
    } else {
        is_raised_below(mine, places_above(a.two, b.two), other)
    }
}

// Whether it is above zero; none is below.
fn is_some(lit: &Literal) -> bool
    requires { IsNormal lit.now }
    ensures some { IsTrue result ↔ zero_ℚ <ℚ literal_value lit.now }
    ensures from_zero { zero_ℚ ≤ℚ literal_value lit.now }
{
    ratio_of(lit).number > 0
}

fn is_one(negative: bool, first: bool, second: bool) -> bool
    ensures { result ≡ negative && (first || second) }
{
    negative && (first || second)
}

/// Whether the first literal, or its negative, is below the second, or its negative.
pub fn is_below(a: &Literal, a_negative: bool, b: &Literal, b_negative: bool) -> bool
    requires first { IsNormal a.now }
    requires second { IsNormal b.now }
    ensures { IsTrue result
        ↔ signed a_negative (literal_value a.now) <ℚ signed b_negative (literal_value b.now) }
{
    if a_negative == b_negative {
        return if a_negative {
            is_less(b, a)
        } else {
            is_less(a, b)
        };
    }
    let first = is_some(a);
    let second = is_some(b);
    is_one(a_negative, first, second)
}
