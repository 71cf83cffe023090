//! The powers of two that divide a literal.

ghost use Rattle.std.specs.Prelude.{◌≡◌, IfSome, IsNone, IsTrue, ◌↔◌, pos, negsuc, ◌+ℤ◌, ◌≤ℤ◌};
ghost use Rattle.std.specs.Int.{trailing_zeros, w128};
ghost use Rattle.literal.specs.Spelling.{IsBetween};
ghost use Rattle.literal.specs.Normal.{HasFives, IsCapped, HasNoFix, IsFix, IsNormal};

use fx_model::Literal;

const MOST: i32 = 512;

/// The greatest k up to 512 of which the value is a whole multiple of 2^k; 512 for zero.
/// `None` exactly where it is a multiple of no power of two from 2^-1024 on.
pub fn fix_of(lit: &Literal) -> Option<i32>
    requires { IsNormal lit.now }
    ensures greatest { IfSome result (IsFix lit.now) }
    ensures none { IsNone result ↔ HasNoFix lit.now }
{
    if lit.num == 0 {
        return Some(MOST);
    }
    if has_fives(lit) {
        Some(capped(place_of(lit)))
    } else {
        None
    }
}

// Whether the fives that an exponent of ten divides by are in the number.
fn has_fives(lit: &Literal) -> bool
    requires { negsuc 29 ≤ℤ lit.now.ten }
    ensures { IsTrue result ↔ HasFives lit.now.num lit.now.ten }
{
    if lit.ten >= 0 {
        return true;
    }
    lit.num % 5u128.pow(lit.ten.unsigned_abs()) == 0
}

// The place of the lowest bit of num * 2^two * 10^ten.
fn place_of(lit: &Literal) -> i32
    requires two { IsBetween (negsuc 999) (pos 999) lit.now.two }
    requires ten { IsBetween (negsuc 999) (pos 999) lit.now.ten }
    ensures { result ≡ (pos (trailing_zeros w128 lit.now.num) +ℤ lit.now.two) +ℤ lit.now.ten }
{
    lit.num.trailing_zeros() as i32 + lit.two + lit.ten
}

fn capped(place: i32) -> i32
    ensures { IsCapped place result }
{
    if place < MOST { place } else { MOST }
}
