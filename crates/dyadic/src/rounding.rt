// Rounding a cut value to the grid.
ghost use Rattle.std.specs.Prelude.{◌≡◌, ◌≤◌, ◌<◌, ◌≤ℤ◌, pos, negsuc, true, IfSome};
ghost use Rattle.fx_model.specs.Fraction.{Fraction};
ghost use Rattle.fx_model.specs.Grid.{IsDown, IsUp, signed};
ghost use Rattle.fx_model.specs.Grid as grid;
ghost use Rattle.dyadic.specs.Cut.{IsLong, IsSigned, IsSize};
ghost use Rattle.dyadic.specs.Ends.{bound_of, upper};
ghost use Rattle.dyadic.specs.Values.{value_of};

use crate::cut::LeadingDigits;
use crate::number::{Dyadic, End, canonical};
use crate::products::Signed;

// The number that a cut is as it stands: it is exact, and its digits and its place are of the grid.
fn exact_number(cut: LeadingDigits) -> Option<Dyadic>
    ensures { IfSome result (λ number. (x : Fraction) → IsSize cut x → x ≡ value_of number) }
{
    if cut.inexact || 1152921504606846975 < cut.digits {
        return None;
    }
    if cut.two < -512 || 512 < cut.two {
        return None;
    }
    Some(canonical(cut.digits as u64, cut.two))
}

// The number with a sign.
fn with_sign(negative: bool, size: Dyadic) -> Dyadic
    ensures { value_of result ≡ signed negative (value_of size) }
{
    if negative { size.neg() } else { size }
}

/// The greatest grid number that is at most the value, or minus infinity where there is none.
#[inline(always)]
pub fn down(value: Signed) -> End
    requires long { value.size.inexact ≡ true → IsLong value.size }
    requires low { negsuc 2999 ≤ℤ value.size.two }
    requires high { value.size.two ≤ℤ pos 3000 }
    ensures { (x : Fraction) → IsSigned value x → IsDown x (bound_of result) }
{
    match exact_number(value.size) {
        Some(size) => End::At(with_sign(value.negative, size)),
        None => round_down(value.negative, value.size.long()),
    }
}

/// The least grid number that is at least the value, or plus infinity where there is none.
#[inline(always)]
pub fn up(value: Signed) -> End
    requires long { value.size.inexact ≡ true → IsLong value.size }
    requires low { negsuc 2999 ≤ℤ value.size.two }
    requires high { value.size.two ≤ℤ pos 3000 }
    ensures { (x : Fraction) → IsSigned value x → IsUp x (bound_of result) }
{
    match exact_number(value.size) {
        Some(size) => End::At(with_sign(value.negative, size)),
        None => round_up(value.negative, value.size.long()),
    }
}

// The greatest grid number that is at most the value of a cut.
#[inline(always)]
fn toward_zero(cut: LeadingDigits) -> Dyadic
    requires long { IsLong cut }
    requires low { negsuc 2999 ≤ℤ cut.two }
    requires high { cut.two ≤ℤ pos 3000 }
    ensures { (x : Fraction) → IsSize cut x → IsDown x (grid.At (value_of result)) }
{
    let cut = cut.narrowed();
    if cut.two > 512 {
        canonical(1152921504606846975, 512)
    } else {
        canonical(cut.digits as u64, cut.two)
    }
}

// The least grid number that is at least the value of a cut.
#[inline(always)]
fn from_zero(cut: LeadingDigits) -> Option<Dyadic>
    requires long { IsLong cut }
    requires low { negsuc 2999 ≤ℤ cut.two }
    requires high { cut.two ≤ℤ pos 3000 }
    ensures { (x : Fraction) → IsSize cut x → IsUp x (upper result) }
{
    let cut = cut.narrowed();
    if cut.two > 512 {
        return None;
    }
    let digits = cut.digits as u64;
    if cut.inexact {
        if digits == 1152921504606846975 && cut.two == 512 {
            return None;
        }
        Some(canonical(digits + 1, cut.two))
    } else {
        Some(canonical(digits, cut.two))
    }
}

/// The same as `down`, of a value of this sign whose size is long already.
#[inline(always)]
pub fn round_down(negative: bool, cut: LeadingDigits) -> End
    requires long { IsLong cut }
    requires low { negsuc 2999 ≤ℤ cut.two }
    requires high { cut.two ≤ℤ pos 3000 }
    ensures { (x : Fraction) → IsSize cut (signed negative x) → IsDown x (bound_of result) }
{
    if negative {
        match from_zero(cut) {
            Some(size) => End::At(size.neg()),
            None => End::Low,
        }
    } else {
        End::At(toward_zero(cut))
    }
}

/// The same as `up`, of a value of this sign whose size is long already.
#[inline(always)]
pub fn round_up(negative: bool, cut: LeadingDigits) -> End
    requires long { IsLong cut }
    requires low { negsuc 2999 ≤ℤ cut.two }
    requires high { cut.two ≤ℤ pos 3000 }
    ensures { (x : Fraction) → IsSize cut (signed negative x) → IsUp x (bound_of result) }
{
    if negative {
        End::At(toward_zero(cut).neg())
    } else {
        match from_zero(cut) {
            Some(size) => End::At(size),
            None => End::High,
        }
    }
}
