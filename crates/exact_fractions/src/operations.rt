//! Sums and comparisons.

ghost use Rattle.std.specs.Prelude.{◌≡◌, ◌<◌, ◌+ℤ◌, pos, true};
ghost use Rattle.fx_model.specs.Fraction.{◌+ℚ◌};
ghost use Rattle.exact_fractions.specs.Exact.{value_of, Gives, GivesOrder, IsOrder};
ghost use Rattle.exact_fractions.specs.Narrow.{is_narrow, GivesNumber, GivesSize};
ghost use Rattle.exact_fractions.specs.Wide as spec;
ghost use Rattle.exact_fractions.specs.Wide.{sum_numbers, comparison_numbers};

use crate::divisor::greatest_divisor;
use crate::exact::{Exact, reduced};
use crate::narrow;
use std::cmp::Ordering;

// The greatest common divisor of the denominators.
#[tactic(auto, using(crate::proofs::Numbers::shared_is, crate::proofs::Numbers::shared_positive))]
fn shared(x: Exact, y: Exact) -> u128
    ensures value { result ≡ spec.shared (value_of x) (value_of y) }
    ensures positive { 0 < result }
{
    greatest_divisor(x.den(), y.den())
}

// The first numerator over the common denominator.
#[tactic(auto, using(crate::proofs::Numbers::left_is))]
fn left_number(x: Exact, y: Exact, g: u128) -> Option<i128>
    requires value { g ≡ spec.shared (value_of x) (value_of y) }
    requires positive { 0 < g }
    ensures { GivesNumber (spec.left_number (value_of x) (value_of y)) result }
{
    narrow::product(x.num(), y.den() / g)
}

// The second numerator over the common denominator.
#[tactic(auto, using(crate::proofs::Numbers::right_is))]
fn right_number(x: Exact, y: Exact, g: u128) -> Option<i128>
    requires value { g ≡ spec.shared (value_of x) (value_of y) }
    requires positive { 0 < g }
    ensures { GivesNumber (spec.right_number (value_of x) (value_of y)) result }
{
    narrow::product(y.num(), x.den() / g)
}

// The common denominator.
#[tactic(auto, using(crate::proofs::Numbers::common_is))]
fn common_denominator(x: Exact, y: Exact, g: u128) -> Option<u128>
    requires value { g ≡ spec.shared (value_of x) (value_of y) }
    requires positive { 0 < g }
    ensures { GivesSize (spec.common_denominator (value_of x) (value_of y)) result }
{
    narrow::size_product(x.den(), y.den() / g)
}

// The sum of the numerators over the common denominator.
#[tactic(auto, using(crate::proofs::Numbers::sum_over, crate::proofs::Numbers::common_positive))]
fn joined(x: Exact, y: Exact, top: i128, bottom: u128) -> Exact
    requires top { top ≡ spec.left_number (value_of x) (value_of y) +ℤ spec.right_number
        (value_of x) (value_of y) }
    requires bottom { bottom ≡ spec.common_denominator (value_of x) (value_of y) }
    requires narrow_top { is_narrow top ≡ true }
    requires narrow_bottom { is_narrow (pos bottom) ≡ true }
    ensures { value_of result ≡ value_of x +ℚ value_of y }
{
    reduced(top, bottom)
}

// How two compare, by their numerators over the common denominator.
#[tactic(auto, using(crate::proofs::Numbers::order_is))]
fn order(x: Exact, y: Exact, left: i128, right: i128) -> Ordering
    requires left { left ≡ spec.left_number (value_of x) (value_of y) }
    requires right { right ≡ spec.right_number (value_of x) (value_of y) }
    ensures { IsOrder (value_of x) (value_of y) result }
{
    left.cmp(&right)
}

impl Exact {
    /// The sum; `None` exactly where one of its numbers isn't below 2^127.
    pub fn sum(self, other: Exact) -> Option<Exact>
        ensures { Gives (sum_numbers (value_of self) (value_of other))
            (value_of self +ℚ value_of other) result }
    {
        let g = shared(self, other);
        let left = left_number(self, other, g)?;
        let right = right_number(self, other, g)?;
        let top = narrow::sum(left, right)?;
        let bottom = common_denominator(self, other, g)?;
        Some(joined(self, other, top, bottom))
    }

    /// How the two compare; `None` exactly where one of the numbers that are compared isn't below
    /// 2^127.
    pub fn compare(self, other: Exact) -> Option<Ordering>
        ensures { GivesOrder (comparison_numbers (value_of self) (value_of other)) (value_of self)
            (value_of other) result }
    {
        let g = shared(self, other);
        let left = left_number(self, other, g)?;
        let right = right_number(self, other, g)?;
        Some(order(self, other, left, right))
    }
}
