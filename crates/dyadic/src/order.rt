// The order of numbers and of ends, by their values.
ghost use Rattle.std.specs.Prelude.{◌≡◌, ◌⊎◌, ◌↔◌, ◌≤◌, ◌<◌, ◌*◌, ◌^◌, ◌≤ℤ◌, ◌+ℤ◌, ◌*ℤ◌, pos};
ghost use Rattle.std.specs.Prelude.{negsuc, IsTrue};
ghost use Rattle.std.specs.Int.RustNames.{unsigned_abs};
ghost use Rattle.std.proofs.Common.{rules};
ghost use Rattle.std.specs.Cmp.{partial_order_from_own_ties, eq_by_cmp_equiv};
ghost use Rattle.std.specs.Cmp.Rules.{comparing};
ghost use Rattle.std.specs.Ordering.{as_partial_cmp, eq_by_cmp, int_cmp, on};
ghost use Rattle.fx_model.specs.Fraction.{◌≤ℚ◌, ◌<ℚ◌, zero_ℚ, one_ℚ, neg_ℚ};
ghost use Rattle.fx_model.specs.Grid as grid;
ghost use Rattle.fx_model.specs.Enclosure.{BoundLe};
ghost use Rattle.fx_model.specs.Grid.{le_bound};
ghost use Rattle.dyadic.specs.Ends.{bound_of};
ghost use Rattle.dyadic.specs.Extremes.{greater_end, lesser_end};
ghost use Rattle.dyadic.specs.Order.{value_cmp, value_cmp_total, end_cmp, end_cmp_total};
ghost use Rattle.dyadic.specs.Values.{value_of};

use crate::number::{Dyadic, End};
use crate::shift::{raised, shifted};
use std::cmp::Ordering;

// How high * 2^gap compares with low.
#[inline(always)]
fn compare_at(high: i64, gap: u32, low: i64) -> Ordering
    requires high_small { unsigned_abs high < 1152921504606846976 }
    requires low_small { unsigned_abs low < 1152921504606846976 }
    ensures { result ≡ int_cmp (high *ℤ pos (2 ^ gap)) low }
{
    if gap == 0 {
        return high.cmp(&low);
    }
    if high <= 0 && 0 < low {
        return Ordering::Less;
    }
    if low <= 0 && 0 < high {
        return Ordering::Greater;
    }
    // From 60 places on the sign of the higher decides.
    shifted(high as i128, gap.min(60)).cmp(&(low as i128))
}

// How much the first place is above the second.
#[inline(always)]
fn places_above(high: i32, low: i32) -> u32
    requires low { negsuc 511 ≤ℤ low }
    requires high { high ≤ℤ pos 571 }
    requires ordered { low ≤ℤ high }
    ensures { high ≡ low +ℤ pos result }
{
    (high - low) as u32
}

// How far a place is below 0.
#[inline(always)]
fn places_below(place: i32) -> u32
    requires low { negsuc 511 ≤ℤ place }
    requires high { place ≤ℤ pos 0 }
    ensures { place +ℤ pos result ≡ pos 0 }
{
    (-place) as u32
}

#[inline(always)]
fn compare(a: Dyadic, b: Dyadic) -> Ordering
    ensures { result ≡ value_cmp a b }
{
    if b.exponent() <= a.exponent() {
        compare_at(
            a.mantissa(),
            places_above(a.exponent(), b.exponent()),
            b.mantissa(),
        )
    } else {
        compare_at(
            b.mantissa(),
            places_above(b.exponent(), a.exponent()),
            a.mantissa(),
        )
        .reverse()
    }
}

impl Dyadic {
    /// Whether the number is at most the other.
    #[inline(always)]
    pub fn is_at_most(self, other: Dyadic) -> bool
        ensures { IsTrue result ↔ value_of self ≤ℚ value_of other }
    {
        match compare(self, other) {
            Ordering::Greater => false,
            _ => true,
        }
    }

    /// Whether the number is 0 or above.
    #[inline(always)]
    pub fn is_from_zero(self) -> bool
        ensures { IsTrue result ↔ zero_ℚ ≤ℚ value_of self }
    {
        0 <= self.mantissa()
    }

    /// Whether the number is 0 or below.
    #[inline(always)]
    pub fn is_up_to_zero(self) -> bool
        ensures { IsTrue result ↔ value_of self ≤ℚ zero_ℚ }
    {
        self.mantissa() <= 0
    }

    /// Whether the number is above -1.
    #[inline(always)]
    pub fn is_above_minus_one(self) -> bool
        ensures { IsTrue result ↔ neg_ℚ one_ℚ <ℚ value_of self }
    {
        let exponent = self.exponent();
        if exponent >= 0 {
            return self.mantissa() >= 0;
        }
        raised(-1, places_below(exponent).min(60)) < self.mantissa()
    }

    /// Whether the number is below the other.
    #[inline(always)]
    pub fn is_below(self, other: Dyadic) -> bool
        ensures { IsTrue result ↔ value_of self <ℚ value_of other }
    {
        !other.is_at_most(self)
    }
}

impl PartialEq for Dyadic {
    ghost eq = { eq_by_cmp value_cmp };

    ghost laws = { Prim.search (comparing, value_cmp_total, rules) };

    fn eq(&self, other: &Dyadic) -> bool {
        self.is_same(*other)
    }
}

impl Eq for Dyadic {
    ghost laws = { eq_by_cmp_equiv value_cmp_total };
}

impl Ord for Dyadic {
    ghost cmp = { value_cmp };

    ghost total = { value_cmp_total };

    ghost matches_partial_cmp = { Prim.search (comparing, rules) };

    ghost matches_eq = { Prim.search (comparing, rules) };

    #[inline(always)]
    fn cmp(&self, other: &Dyadic) -> Ordering {
        compare(*self, *other)
    }
}

impl PartialOrd for Dyadic {
    ghost partial_cmp = { as_partial_cmp value_cmp };

    ghost laws = { partial_order_from_own_ties (Prim.search (comparing, value_cmp_total, rules))
        (Prim.search (comparing, rules)) };

    #[inline(always)]
    fn partial_cmp(&self, other: &Dyadic) -> Option<Ordering> {
        Some(self.cmp(other))
    }
}

impl End {
    /// Whether the end is at most the other.
    #[inline(always)]
    pub fn is_at_most(self, other: End) -> bool
        ensures at_most { IsTrue result ↔ BoundLe (bound_of self) (bound_of other) }
        ensures is { result ≡ le_bound (bound_of self) (bound_of other) }
    {
        match self {
            End::Low => true,
            End::At(a) => match other {
                End::Low => false,
                End::At(b) => a.is_at_most(b),
                End::High => true,
            },
            End::High => match other {
                End::High => true,
                _ => false,
            },
        }
    }

    /// Whether the end is 0 or above.
    #[inline(always)]
    pub fn is_from_zero(self) -> bool
        ensures from { IsTrue result ↔ BoundLe (grid.At zero_ℚ) (bound_of self) }
        ensures is { result ≡ le_bound (grid.At zero_ℚ) (bound_of self) }
    {
        match self {
            End::Low => false,
            End::At(number) => number.is_from_zero(),
            End::High => true,
        }
    }

    /// Whether the end is 0 or below.
    #[inline(always)]
    pub fn is_up_to_zero(self) -> bool
        ensures up_to { IsTrue result ↔ BoundLe (bound_of self) (grid.At zero_ℚ) }
        ensures is { result ≡ le_bound (bound_of self) (grid.At zero_ℚ) }
    {
        match self {
            End::Low => true,
            End::At(number) => number.is_up_to_zero(),
            End::High => false,
        }
    }
}

impl PartialEq for End {
    ghost eq = { eq_by_cmp end_cmp };

    ghost laws = { Prim.search (comparing, end_cmp_total, rules) };

    fn eq(&self, other: &End) -> bool {
        match (*self, *other) {
            (End::Low, End::Low) => true,
            (End::At(a), End::At(b)) => a.is_same(b),
            (End::High, End::High) => true,
            _ => false,
        }
    }
}

impl Eq for End {
    ghost laws = { eq_by_cmp_equiv end_cmp_total };
}

impl Ord for End {
    ghost cmp = { end_cmp };

    ghost total = { end_cmp_total };

    ghost matches_partial_cmp = { Prim.search (comparing, rules) };

    ghost matches_eq = { Prim.search (comparing, rules) };

    #[inline(always)]
    fn cmp(&self, other: &End) -> Ordering {
        match self {
            End::Low => match other {
                End::Low => Ordering::Equal,
                _ => Ordering::Less,
            },
            End::At(a) => match other {
                End::Low => Ordering::Greater,
                End::At(b) => a.cmp(b),
                End::High => Ordering::Less,
            },
            End::High => match other {
                End::High => Ordering::Equal,
                _ => Ordering::Greater,
            },
        }
    }
}

impl PartialOrd for End {
    ghost partial_cmp = { as_partial_cmp end_cmp };

    ghost laws = { partial_order_from_own_ties (Prim.search (comparing, end_cmp_total, rules))
        (Prim.search (comparing, rules)) };

    #[inline(always)]
    fn partial_cmp(&self, other: &End) -> Option<Ordering> {
        Some(self.cmp(other))
    }
}

/// The lesser of two ends.
#[inline(always)]
pub fn lesser(a: End, b: End) -> End
    ensures one { (result ≡ a) ⊎ (result ≡ b) }
    ensures first { BoundLe (bound_of result) (bound_of a) }
    ensures second { BoundLe (bound_of result) (bound_of b) }
    ensures is { result ≡ lesser_end a b }
{
    if a.is_at_most(b) { a } else { b }
}

/// The greater of two ends.
#[inline(always)]
pub fn greater(a: End, b: End) -> End
    ensures one { (result ≡ a) ⊎ (result ≡ b) }
    ensures first { BoundLe (bound_of a) (bound_of result) }
    ensures second { BoundLe (bound_of b) (bound_of result) }
    ensures is { result ≡ greater_end a b }
{
    if a.is_at_most(b) { b } else { a }
}
