ghost use Rattle.std.specs.Prelude.{◌*◌, ◌/◌, ◌^◌, ◌≤◌, ◌<◌};
ghost use Rattle.std.specs.Int.{IsGcd};
ghost use Rattle.poly_normal.specs.Form.{common_divisor_to};
ghost use Rattle.poly_normal.specs.Ratio.{IsBelowLimit, IsPlain, IsRatio, reduced_bottom};
ghost use Rattle.poly_normal.specs.Ratio.{reduced_top};

use fx_model::Literal;

const LIMIT: u128 = 1 << 127;

/// The fraction top / bottom.
#[derive(Clone, Copy, PartialEq, Eq, Debug)]
pub struct Ratio {
    pub top: u128,
    pub bottom: u128,
}

/// The greatest common divisor, by Euclid's steps.
fn greatest_divisor(a: u128, b: u128) -> u128
    ensures { IsGcd a b result }
{
    let mut x = a;
    let mut y = b;
    while y != 0 {
        let rest = x % y;
        x = y;
        y = rest;
    }
    x
}

/// num * base^exponent, or none where it isn't below 2^127.
fn times_power(num: u128, base: u128, exponent: u32) -> Option<u128>
    requires { 2 ≤ base }
    ensures { IsBelowLimit (num * base ^ exponent) result }
{
    if num == 0 {
        return Some(0);
    }
    if num >= LIMIT {
        return None;
    }
    let mut n = num;
    for _ in 0..exponent {
        let Some(next) = n.checked_mul(base) else {
            return None;
        };
        if next >= LIMIT {
            return None;
        }
        n = next;
    }
    Some(n)
}

/// top / bottom, reduced.
fn reduced(top: u128, bottom: u128) -> Option<Ratio>
    requires above { 0 < bottom }
    requires below { bottom < 2 ^ 127 }
    ensures { let g = common_divisor_to bottom top bottom in IsRatio (top / g) (bottom / g) result }
{
    let divisor = greatest_divisor(top, bottom);
    let lesser = top / divisor;
    if lesser >= LIMIT {
        return None;
    }
    Some(Ratio {
        top: lesser,
        bottom: bottom / divisor,
    })
}

/// The literal as a reduced fraction, or none where a part isn't below 2^127.
pub fn fraction(l: Literal) -> Option<Ratio>
    requires { IsPlain l }
    ensures { IsRatio (reduced_top l) (reduced_bottom l) result }
{
    if l.ten < 0 {
        return match times_power(1, 10, l.ten.unsigned_abs()) {
            Some(bottom) => reduced(l.num, bottom),
            None => None,
        };
    }
    if l.two < 0 {
        return match times_power(1, 2, l.two.unsigned_abs()) {
            Some(bottom) => reduced(l.num, bottom),
            None => None,
        };
    }
    let Some(doubled) = times_power(l.num, 2, l.two.unsigned_abs()) else {
        return None;
    };
    match times_power(doubled, 10, l.ten.unsigned_abs()) {
        Some(top) => Some(Ratio { top, bottom: 1 }),
        None => None,
    }
}
