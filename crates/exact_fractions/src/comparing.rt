//! The numbers of a fraction, and comparisons as tests.

ghost use Rattle.std.specs.Prelude.{◌≡◌, ◌↔◌, IsTrue, pos, true, false};
ghost use Rattle.fx_model.specs.Fraction.{le_ℚ, is_zero_ℚ};
ghost use Rattle.exact_fractions.specs.Exact.{value_of, GivesTest, IsOrder, are_equal};
ghost use Rattle.exact_fractions.specs.Reduced as spec;
ghost use Rattle.exact_fractions.specs.Wide.{comparison_numbers};

use crate::exact::Exact;
use std::cmp::Ordering;

// From how x and y compare: whether x is at most y.
#[tactic(auto, using(crate::proofs::Orders::orders_tell))]
fn isnt_greater(x: Exact, y: Exact, order: Ordering) -> bool
    requires { IsOrder (value_of x) (value_of y) order }
    ensures { result ≡ le_ℚ (value_of x) (value_of y) }
{
    match order {
        Ordering::Less => true,
        Ordering::Equal => true,
        Ordering::Greater => false,
    }
}

// From how x and y compare: whether x is at least y.
#[tactic(auto, using(crate::proofs::Orders::orders_tell))]
fn isnt_less(x: Exact, y: Exact, order: Ordering) -> bool
    requires { IsOrder (value_of x) (value_of y) order }
    ensures { result ≡ le_ℚ (value_of y) (value_of x) }
{
    match order {
        Ordering::Less => false,
        Ordering::Equal => true,
        Ordering::Greater => true,
    }
}

impl Exact {
    /// The numerator.
    #[tactic(auto, using(crate::proofs::Numbers::num_is))]
    pub fn numerator(self) -> i128
        ensures { result ≡ spec.numerator (value_of self) }
    {
        self.num()
    }

    /// The denominator.
    #[tactic(auto, using(crate::proofs::Numbers::den_is))]
    pub fn denominator(self) -> u128
        ensures { result ≡ spec.denominator (value_of self) }
    {
        self.den()
    }

    /// Whether it is 0.
    #[tactic(auto, using(crate::proofs::Orders::zero_test, crate::proofs::Orders::nonzero_test))]
    pub fn is_zero(self) -> bool
        ensures number { IsTrue result ↔ self.num ≡ pos 0 }
        ensures value { result ≡ is_zero_ℚ (value_of self) }
    {
        self.num() == 0
    }

    /// Whether the two are one fraction.
    #[tactic(auto, using(crate::proofs::Orders::equal_test, crate::proofs::Orders::unequal_test))]
    pub fn is_equal(self, other: Exact) -> bool
        ensures same { IsTrue result ↔ value_of self ≡ value_of other }
        ensures value { result ≡ are_equal (value_of self) (value_of other) }
    {
        self.has_numbers_of(other)
    }

    /// Whether it is at most the other; `None` exactly where one of the numbers that are compared
    /// isn't below 2^127.
    pub fn is_at_most(self, other: Exact) -> Option<bool>
        ensures { GivesTest (comparison_numbers (value_of self) (value_of other))
            (le_ℚ (value_of self) (value_of other)) result }
    {
        match self.compare(other) {
            Some(order) => Some(isnt_greater(self, other, order)),
            None => None,
        }
    }

    /// Whether it is at least the other; `None` exactly where one of the numbers that are compared
    /// isn't below 2^127.
    pub fn is_at_least(self, other: Exact) -> Option<bool>
        ensures { GivesTest (comparison_numbers (value_of self) (value_of other))
            (le_ℚ (value_of other) (value_of self)) result }
    {
        match self.compare(other) {
            Some(order) => Some(isnt_less(self, other, order)),
            None => None,
        }
    }
}
