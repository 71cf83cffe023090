// Values rounded down to whole numbers of 64 bits, at places that aren't near the upper end of the
// grid.
ghost use Rattle.std.specs.Prelude.{◌≡◌, ◌≢◌, ◌⊎◌, ◌≤◌, ◌<◌, ◌*◌, ◌^◌, ◌≤ℤ◌, ◌+ℤ◌, ◌*ℤ◌, pos};
ghost use Rattle.std.specs.Prelude.{negsuc, IfSome};
ghost use Rattle.std.specs.Int.RustNames.{unsigned_abs};
ghost use Rattle.std.specs.Int.Signed.{shr_z};
ghost use Rattle.fx_model.specs.Fraction.{Fraction, ◌+ℚ◌, ◌*ℚ◌, ◌/ℚ◌, zero_ℚ};
ghost use Rattle.fx_model.specs.Powers.{whole, scaled};
ghost use Rattle.fx_model.specs.Grid.{IsDown, signed};
ghost use Rattle.fx_model.specs.Grid as grid;
ghost use Rattle.dyadic.specs.Floors.{IsFloor, IsLong};
ghost use Rattle.dyadic.specs.Values.{value_of};

use crate::number::{Dyadic, reduced};
use crate::products::is_negative;
use crate::reciprocal::{Lifted, divided};
use crate::shift::{lowered, raised};

/// digits * 2^two, or something between that and the next, where there are more digits than the
/// grid has.
#[derive(Clone, Copy)]
pub struct Floor {
    pub digits: i64,
    pub two: i32,
}

// How many binary digits a number has past the 60 of the grid.
#[inline(always)]
fn surplus(digits: i64) -> u32
    ensures few { result ≤ 4 }
    ensures below { unsigned_abs digits < 1152921504606846976 * 2 ^ result }
    ensures above { (result ≡ 0) ⊎ (576460752303423488 * 2 ^ result ≤ unsigned_abs digits) }
{
    4u32.saturating_sub(digits.unsigned_abs().leading_zeros())
}

// How many binary digits a number that is 0 or long has past the 60 of the grid.
#[inline(always)]
fn long_surplus(digits: i64) -> u32
    requires { IsLong digits }
    ensures few { result ≤ 4 }
    ensures below { unsigned_abs digits < 1152921504606846976 * 2 ^ result }
    ensures above { (result ≡ 0) ⊎ (576460752303423488 * 2 ^ result ≤ unsigned_abs digits) }
{
    let size = digits.unsigned_abs();
    (size >> 60).min(1) as u32 + (size >> 61) as u32
}

// How far a mantissa can be shifted to have 62 bits.
#[inline(always)]
fn room_above(mantissa: i64) -> u32
    requires some { 0 < unsigned_abs mantissa }
    requires small { unsigned_abs mantissa < 1152921504606846976 }
    ensures long { 2305843009213693952 ≤ unsigned_abs mantissa * 2 ^ result }
    ensures small { unsigned_abs mantissa * 2 ^ result < 4611686018427387904 }
    ensures range { result ≤ 61 }
{
    mantissa.unsigned_abs().leading_zeros() - 2
}

// How far the exponent of the first is above that of the second.
#[inline(always)]
fn places_above(high: Dyadic, low: Dyadic) -> u32
    requires { low.exponent ≤ℤ high.exponent }
    ensures { high.exponent ≡ low.exponent +ℤ pos result }
{
    (high.exponent() - low.exponent()) as u32
}

// The place of a product without its last 62 places, of mantissas that were shifted up.
#[inline(always)]
fn product_place(a: Dyadic, b: Dyadic, left: u32, right: u32) -> i32
    requires left { left ≤ 61 }
    requires right { right ≤ 61 }
    ensures { (result +ℤ pos left) +ℤ pos right ≡ (a.exponent +ℤ b.exponent) +ℤ pos 62 }
{
    a.exponent() + b.exponent() + 62 - (left + right) as i32
}

// The product of two numbers of 62 bits without its last 62 places, rounded down.
#[inline(always)]
fn high_product(a: i64, b: i64) -> i64
    requires a_small { unsigned_abs a < 4611686018427387904 }
    requires b_small { unsigned_abs b < 4611686018427387904 }
    ensures { result ≡ shr_z (a *ℤ b) 4611686018427387904 }
{
    ((a as i128 * b as i128) >> 62) as i64
}

impl Floor {
    /// The greatest grid number that is at most the value.
    #[inline(always)]
    pub fn rounded(self) -> Dyadic
        requires low { negsuc 511 ≤ℤ self.two }
        requires high { self.two ≤ℤ pos 400 }
        ensures { (x : Fraction) → IsFloor x self → IsDown x (grid.At (value_of result)) }
    {
        self.without(surplus(self.digits))
    }

    /// The same as `rounded`, for digits that are 0 or at least 2^60 in size.
    #[inline(always)]
    pub fn long_rounded(self) -> Dyadic
        requires long { IsLong self.digits }
        requires low { negsuc 511 ≤ℤ self.two }
        requires high { self.two ≤ℤ pos 400 }
        ensures { (x : Fraction) → IsFloor x self → IsDown x (grid.At (value_of result)) }
    {
        self.without(long_surplus(self.digits))
    }

    // The same, by how many digits there are past 60.
    #[inline(always)]
    fn without(self, lost: u32) -> Dyadic
        requires few { lost ≤ 4 }
        requires below { unsigned_abs self.digits < 1152921504606846976 * 2 ^ lost }
        requires above { (lost ≡ 0) ⊎ (576460752303423488 * 2 ^ lost ≤ unsigned_abs self.digits) }
        requires low { negsuc 511 ≤ℤ self.two }
        requires high { self.two ≤ℤ pos 400 }
        ensures { (x : Fraction) → IsFloor x self → IsDown x (grid.At (value_of result)) }
    {
        reduced(lowered(self.digits, lost), self.two + lost as i32)
    }

    /// The sum of two numbers, unless its place is too high or they lie too far apart.
    #[inline(always)]
    pub fn sum(a: Dyadic, b: Dyadic) -> Option<Floor>
        ensures { IfSome result (IsFloor (value_of a +ℚ value_of b)) }
    {
        if b.exponent() <= a.exponent() {
            Floor::ordered_sum(a, b)
        } else {
            Floor::ordered_sum(b, a)
        }
    }

    #[inline(always)]
    fn ordered_sum(high: Dyadic, low: Dyadic) -> Option<Floor>
        requires { low.exponent ≤ℤ high.exponent }
        ensures { IfSome result (IsFloor (value_of high +ℚ value_of low)) }
    {
        let place = low.exponent();
        if place > 300 {
            return None;
        }
        let mantissa = high.mantissa();
        let rest = low.mantissa();
        if mantissa == 0 {
            return Some(Floor {
                digits: rest,
                two: place,
            });
        }
        let gap = places_above(high, low);
        let up = gap.min(room_above(mantissa));
        let lost = gap - up;
        if lost > 63 {
            return None;
        }
        Some(Floor {
            digits: raised(mantissa, up) + lowered(rest, lost),
            two: place + lost as i32,
        })
    }

    /// The product of two numbers, unless its place is too low or too high.
    #[inline(always)]
    pub fn product(a: Dyadic, b: Dyadic) -> Option<Floor>
        ensures floor { IfSome result (IsFloor (value_of a *ℚ value_of b)) }
        ensures long { IfSome result (λ f. IsLong f.digits) }
    {
        let first = a.mantissa();
        let second = b.mantissa();
        if first == 0 || second == 0 {
            return Some(Floor { digits: 0, two: 0 });
        }
        let left = room_above(first);
        let right = room_above(second);
        let two = product_place(a, b, left, right);
        if two < -512 || 400 < two {
            return None;
        }
        Some(Floor {
            digits: high_product(raised(first, left), raised(second, right)),
            two,
        })
    }

    /// The quotient of two numbers, unless its place is too low or too high.
    #[inline(always)]
    pub fn quotient(a: Dyadic, b: Dyadic) -> Option<Floor>
        requires { value_of b ≢ zero_ℚ }
        ensures floor { IfSome result (IsFloor (value_of a /ℚ value_of b)) }
        ensures long { IfSome result (λ f. IsLong f.digits) }
    {
        Floor::short_ratio(
            is_negative(a) ^ is_negative(b),
            a.mantissa().unsigned_abs(),
            b.mantissa().unsigned_abs(),
            a.exponent() - b.exponent(),
        )
    }

    /// n * 2^two / d, unless a number has more than 64 bits or the place is too low or too high.
    #[inline(always)]
    pub fn ratio(n: i128, d: u128, two: i32) -> Option<Floor>
        requires not_zero { 0 < d }
        requires low { negsuc 2999 ≤ℤ two }
        requires high { two ≤ℤ pos 3000 }
        ensures floor { (x : Fraction) → whole (pos d) *ℚ x ≡ scaled n two
            → IfSome result (IsFloor x) }
        ensures long { IfSome result (λ f. IsLong f.digits) }
    {
        let size = n.unsigned_abs();
        if 18446744073709551615 < size || 18446744073709551615 < d {
            return None;
        }
        Floor::short_ratio(n < 0, size as u64, d as u64, two)
    }

    // n * 2^two / d or its negative, unless its place is too low or too high.
    #[inline(always)]
    fn short_ratio(negative: bool, n: u64, d: u64, two: i32) -> Option<Floor>
        requires not_zero { 0 < d }
        requires low { negsuc 2999 ≤ℤ two }
        requires high { two ≤ℤ pos 3000 }
        ensures floor { (x : Fraction) → whole (pos d) *ℚ signed negative x ≡ scaled (pos n) two
            → IfSome result (IsFloor x) }
        ensures long { IfSome result (λ f. IsLong f.digits) }
    {
        if n == 0 {
            return Some(Floor { digits: 0, two: 0 });
        }
        let top = Lifted::of(n);
        let bottom = Lifted::of(d);
        let place = two + bottom.places as i32 - top.places as i32 - 61;
        if place < -512 || 400 < place {
            return None;
        }
        let parts = divided(top.digits, bottom.digits);
        Some(Floor {
            digits: parts.floor(negative),
            two: place,
        })
    }
}
