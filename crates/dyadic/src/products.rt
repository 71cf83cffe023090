// Products and quotients.
ghost use Rattle.std.specs.Prelude.{◌≡◌, ◌≢◌, ◌≤◌, ◌<◌, ◌≤ℤ◌, pos, negsuc, true, false};
ghost use Rattle.std.specs.Int.RustNames.{unsigned_abs, int_lt};
ghost use Rattle.fx_model.specs.Fraction.{Fraction, ◌*ℚ◌, ◌/ℚ◌, zero_ℚ};
ghost use Rattle.fx_model.specs.Powers.{whole, scaled};
ghost use Rattle.fx_model.specs.Grid.{IsDown, IsUp};
ghost use Rattle.dyadic.specs.Cut.{IsLong, IsSigned};
ghost use Rattle.dyadic.specs.Ends.{bound_of};
ghost use Rattle.dyadic.specs.Values.{value_of};
ghost use Rattle.dyadic.specs.Places.{IsRatio};

use crate::cut::LeadingDigits;
use crate::floor::Floor;
use crate::number::{Dyadic, End, again};
use crate::rounding::{down, up};

/// A value as its sign and its size.
#[derive(Clone, Copy)]
pub struct Signed {
    pub negative: bool,
    pub size: LeadingDigits,
}

/// Whether the number is below 0.
pub fn is_negative(a: Dyadic) -> bool
    ensures { result ≡ int_lt a.mantissa (pos 0) }
{
    a.mantissa() < 0
}

fn size_of(a: Dyadic) -> u128
    ensures value { result ≡ unsigned_abs a.mantissa }
    ensures small { result < 1152921504606846976 }
{
    a.mantissa().unsigned_abs() as u128
}

#[inline(always)]
fn product(a: Dyadic, b: Dyadic) -> Signed
    ensures exact { result.size.inexact ≡ false }
    ensures cuts { IsSigned result (value_of a *ℚ value_of b) }
    ensures low { negsuc 1023 ≤ℤ result.size.two }
    ensures high { result.size.two ≤ℤ pos 1144 }
{
    Signed {
        negative: is_negative(a) ^ is_negative(b),
        size: LeadingDigits::exact(size_of(a) * size_of(b), a.exponent() + b.exponent()),
    }
}

// The quotient, with enough digits to be rounded.
#[inline(always)]
fn quotient(a: Dyadic, b: Dyadic) -> Signed
    requires { value_of b ≢ zero_ℚ }
    ensures cuts { IsSigned result (value_of a /ℚ value_of b) }
    ensures long { result.size.inexact ≡ true → IsLong result.size }
    ensures low { negsuc 2999 ≤ℤ result.size.two }
    ensures high { result.size.two ≤ℤ pos 3000 }
{
    Signed {
        negative: is_negative(a) ^ is_negative(b),
        size: LeadingDigits::exact(size_of(a), a.exponent() - b.exponent()).divided(size_of(b)),
    }
}

// The product rounded down, whatever its place is. It stands apart, as it is long and seldom
// needed.
#[inline(never)]
fn long_product_down(a: Dyadic, b: Dyadic) -> End
    ensures { IsDown (value_of a *ℚ value_of b) (bound_of result) }
{
    down(product(a, b))
}

// The product rounded up.
#[inline(never)]
fn long_product_up(a: Dyadic, b: Dyadic) -> End
    ensures { IsUp (value_of a *ℚ value_of b) (bound_of result) }
{
    up(product(a, b))
}

/// The greatest grid number that is at most the product.
#[inline(always)]
pub fn mul_down(a: Dyadic, b: Dyadic) -> End
    ensures { IsDown (value_of a *ℚ value_of b) (bound_of result) }
{
    match Floor::product(a, b) {
        Some(floor) => End::At(floor.long_rounded()),
        None => again(long_product_down(a, b)),
    }
}

/// The least grid number that is at least the product.
#[inline(always)]
pub fn mul_up(a: Dyadic, b: Dyadic) -> End
    ensures { IsUp (value_of a *ℚ value_of b) (bound_of result) }
{
    let opposite = a.neg();
    match Floor::product(opposite, b) {
        Some(floor) => End::At(floor.long_rounded().neg()),
        None => again(long_product_up(a, b)),
    }
}

// The quotient rounded down, whatever its place is.
#[inline(never)]
fn long_quotient_down(a: Dyadic, b: Dyadic) -> End
    requires { value_of b ≢ zero_ℚ }
    ensures { IsDown (value_of a /ℚ value_of b) (bound_of result) }
{
    down(quotient(a, b))
}

// The quotient rounded up.
#[inline(never)]
fn long_quotient_up(a: Dyadic, b: Dyadic) -> End
    requires { value_of b ≢ zero_ℚ }
    ensures { IsUp (value_of a /ℚ value_of b) (bound_of result) }
{
    up(quotient(a, b))
}

/// The greatest grid number that is at most the quotient.
#[inline(always)]
pub fn div_down(a: Dyadic, b: Dyadic) -> End
    requires { value_of b ≢ zero_ℚ }
    ensures { IsDown (value_of a /ℚ value_of b) (bound_of result) }
{
    match Floor::quotient(a, b) {
        Some(floor) => End::At(floor.long_rounded()),
        None => again(long_quotient_down(a, b)),
    }
}

/// The least grid number that is at least the quotient.
#[inline(always)]
pub fn div_up(a: Dyadic, b: Dyadic) -> End
    requires { value_of b ≢ zero_ℚ }
    ensures { IsUp (value_of a /ℚ value_of b) (bound_of result) }
{
    let opposite = a.neg();
    match Floor::quotient(opposite, b) {
        Some(floor) => End::At(floor.long_rounded().neg()),
        None => again(long_quotient_up(a, b)),
    }
}

// n * 2^two / d, with enough digits to be rounded.
#[inline(always)]
fn ratio(n: i128, d: u128, two: i32) -> Signed
    requires { IsRatio n d two }
    ensures cuts { (x : Fraction) → whole (pos d) *ℚ x ≡ scaled n two → IsSigned result x }
    ensures long { result.size.inexact ≡ true → IsLong result.size }
    ensures low { negsuc 2999 ≤ℤ result.size.two }
    ensures high { result.size.two ≤ℤ pos 3000 }
{
    Signed {
        negative: n < 0,
        size: LeadingDigits::exact(n.unsigned_abs(), two).divided(d),
    }
}

// The ratio rounded down, whatever its numbers are.
#[inline(never)]
fn long_ratio_down(n: i128, d: u128, two: i32) -> End
    requires numerator { unsigned_abs n ≤ 100000000000000000000000000000000000000 }
    requires not_zero { 0 < d }
    requires divisor { d ≤ 1000000000000000000000000000000 }
    requires low { negsuc 611 ≤ℤ two }
    requires high { two ≤ℤ pos 612 }
    ensures { (x : Fraction) → whole (pos d) *ℚ x ≡ scaled n two → IsDown x (bound_of result) }
{
    down(ratio(n, d, two))
}

// The ratio rounded up.
#[inline(never)]
fn long_ratio_up(n: i128, d: u128, two: i32) -> End
    requires numerator { unsigned_abs n ≤ 100000000000000000000000000000000000000 }
    requires not_zero { 0 < d }
    requires divisor { d ≤ 1000000000000000000000000000000 }
    requires low { negsuc 611 ≤ℤ two }
    requires high { two ≤ℤ pos 612 }
    ensures { (x : Fraction) → whole (pos d) *ℚ x ≡ scaled n two → IsUp x (bound_of result) }
{
    up(ratio(n, d, two))
}

/// The greatest grid number that is at most `n * 2^two / d`.
#[inline(always)]
pub fn ratio_down(n: i128, d: u128, two: i32) -> End
    requires numerator { unsigned_abs n ≤ 100000000000000000000000000000000000000 }
    requires not_zero { 0 < d }
    requires divisor { d ≤ 1000000000000000000000000000000 }
    requires low { negsuc 611 ≤ℤ two }
    requires high { two ≤ℤ pos 612 }
    ensures { (x : Fraction) → whole (pos d) *ℚ x ≡ scaled n two → IsDown x (bound_of result) }
{
    match Floor::ratio(n, d, two) {
        Some(floor) => End::At(floor.long_rounded()),
        None => again(long_ratio_down(n, d, two)),
    }
}

/// The least grid number that is at least `n * 2^two / d`.
#[inline(always)]
pub fn ratio_up(n: i128, d: u128, two: i32) -> End
    requires numerator { unsigned_abs n ≤ 100000000000000000000000000000000000000 }
    requires not_zero { 0 < d }
    requires divisor { d ≤ 1000000000000000000000000000000 }
    requires low { negsuc 611 ≤ℤ two }
    requires high { two ≤ℤ pos 612 }
    ensures { (x : Fraction) → whole (pos d) *ℚ x ≡ scaled n two → IsUp x (bound_of result) }
{
    match Floor::ratio(-n, d, two) {
        Some(floor) => End::At(floor.long_rounded().neg()),
        None => again(long_ratio_up(n, d, two)),
    }
}
