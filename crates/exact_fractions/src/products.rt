//! Products and negatives.

ghost use lib.IntN.{neg_ℤ};
ghost use Rattle.std.specs.Prelude.{◌≡◌, ◌≢◌, ◌↔◌, ◌<◌, ◌^◌, pos, int_lt, true, IsTrue};
ghost use Rattle.std.specs.Int.RustNames.{unsigned_abs};
ghost use Rattle.fx_model.specs.Fraction.{◌*ℚ◌, ◌-ℚ◌, ◌/ℚ◌, neg_ℚ, abs_ℚ, inverse_ℚ};
ghost use Rattle.exact_fractions.specs.Divisors.{gcd};
ghost use Rattle.exact_fractions.specs.Exact.{value_of, Gives};
ghost use Rattle.exact_fractions.specs.Narrow.{is_narrow, GivesNumber, GivesSize};
ghost use Rattle.exact_fractions.specs.Reduced.{numerator, denominator, signed_number};
ghost use Rattle.exact_fractions.specs.Wide.{numbers_of, difference_numbers};

use crate::divisor::greatest_divisor;
use crate::exact::{Exact, cofactor, is_negative, lowest, signed};
use crate::narrow;

// The greatest common divisor of the first numerator and the second denominator.
#[tactic(auto, using(crate::specs::Divisors::gcd_positive))]
fn crossing(x: Exact, y: Exact) -> u128
    ensures value { result ≡ gcd (unsigned_abs x.num) y.den }
    ensures positive { 0 < result }
{
    greatest_divisor(x.num().unsigned_abs(), y.den())
}

// The numerator of the product.
#[tactic(auto, using(crate::proofs::Factors::product_top))]
fn product_top(x: Exact, y: Exact, g: u128, h: u128) -> Option<i128>
    requires first { g ≡ gcd (unsigned_abs x.num) y.den }
    requires second { h ≡ gcd (unsigned_abs y.num) x.den }
    requires some { (0 < g) × (0 < h) }
    ensures { GivesNumber (numerator (value_of x *ℚ value_of y)) result }
{
    narrow::signed_product(cofactor(x.num(), g), cofactor(y.num(), h))
}

// The denominator of the product.
#[tactic(auto, using(crate::proofs::Factors::product_bottom))]
fn product_bottom(x: Exact, y: Exact, g: u128, h: u128) -> Option<u128>
    requires first { g ≡ gcd (unsigned_abs x.num) y.den }
    requires second { h ≡ gcd (unsigned_abs y.num) x.den }
    requires some { (0 < g) × (0 < h) }
    ensures { GivesSize (denominator (value_of x *ℚ value_of y)) result }
{
    narrow::size_product(x.den() / h, y.den() / g)
}

// The product, from its numbers.
#[tactic(auto, using(crate::proofs::Lowest::parts_small, crate::proofs::Lowest::over_parts))]
fn multiplied(x: Exact, y: Exact, top: i128, bottom: u128) -> Exact
    requires top { top ≡ numerator (value_of x *ℚ value_of y) }
    requires bottom { bottom ≡ denominator (value_of x *ℚ value_of y) }
    requires narrow_top { is_narrow top ≡ true }
    requires narrow_bottom { is_narrow (pos bottom) ≡ true }
    ensures { value_of result ≡ value_of x *ℚ value_of y }
{
    lowest(top, bottom)
}

fn opposite(num: i128) -> i128
    requires { unsigned_abs num < 2 ^ 127 }
    ensures { result ≡ neg_ℤ num }
{
    -num
}

// The size of the denominator with the sign of the numerator.
fn inverse_top(x: Exact) -> i128
    ensures { result ≡ signed_number (int_lt x.num (pos 0)) x.den }
{
    signed(is_negative(x.num()), x.den())
}

// One over it.
#[tactic(auto, using(crate::proofs::Factors::inverse_small))]
fn inverse(x: Exact) -> Exact
    requires { x.num ≢ pos 0 }
    ensures { value_of result ≡ inverse_ℚ (value_of x) }
{
    lowest(inverse_top(x), x.num().unsigned_abs())
}

impl Exact {
    /// The product; `None` exactly where one of its numbers isn't below 2^127.
    pub fn product(self, other: Exact) -> Option<Exact>
        ensures { Gives (numbers_of (value_of self *ℚ value_of other))
            (value_of self *ℚ value_of other) result }
    {
        let g = crossing(self, other);
        let h = crossing(other, self);
        let top = product_top(self, other, g, h)?;
        let bottom = product_bottom(self, other, g, h)?;
        Some(multiplied(self, other, top, bottom))
    }

    /// The negative.
    #[tactic(auto, using(crate::proofs::Factors::negative_small))]
    pub fn neg(self) -> Exact
        ensures { value_of result ≡ neg_ℚ (value_of self) }
    {
        lowest(opposite(self.num()), self.den())
    }

    /// The difference; `None` exactly where one of its numbers isn't below 2^127.
    pub fn difference(self, other: Exact) -> Option<Exact>
        ensures { Gives (difference_numbers (value_of self) (value_of other))
            (value_of self -ℚ value_of other) result }
    {
        self.sum(other.neg())
    }

    /// The quotient; `None` exactly where one of its numbers isn't below 2^127.
    pub fn quotient(self, other: Exact) -> Option<Exact>
        requires { other.num ≢ pos 0 }
        ensures { Gives (numbers_of (value_of self /ℚ value_of other))
            (value_of self /ℚ value_of other) result }
    {
        self.product(inverse(other))
    }

    // Whether the two have the same numbers, and so are one fraction.
    #[tactic(auto, using(crate::proofs::Factors::same_numbers))]
    pub(crate) fn has_numbers_of(self, other: Exact) -> bool
        ensures { IsTrue result ↔ value_of self ≡ value_of other }
    {
        self.num() == other.num() && self.den() == other.den()
    }

    /// The absolute value.
    #[tactic(auto, using(crate::proofs::Factors::abs_from, crate::proofs::Factors::abs_below))]
    pub fn abs(self) -> Exact
        ensures { value_of result ≡ abs_ℚ (value_of self) }
    {
        if is_negative(self.num()) {
            self.neg()
        } else {
            self
        }
    }
}
