//! The numbers that digits and exponents stand for.

ghost use Rattle.std.specs.Prelude.{◌≤◌, ◌<◌, ◌++◌, ◌+◌, ◌^◌, pos, negsuc, ◌≤ℤ◌, SomeIff, IfSome};
ghost use Rattle.std.specs.Prelude.{◌*◌, []};
ghost use Rattle.std.specs.Str.Parse.{AllDigits, digits_value, digits_value_after};
ghost use Rattle.std.proofs.Common.{◌-ℤ◌};
ghost use Rattle.literal.specs.Spelling.{IsSpelling, IsBetween, exponent_value};
ghost use Rattle.literal.specs.Parts.{power_of, spelling_of, IsSizeOf, GivesAs, GivesWritten};
ghost use Rattle.literal.specs.Normal.{IsSmall};

use crate::scan::{Form, LiteralParts, Mark, Power, digit};
use fx_model::Literal;

// 10^30: a number below it has at most 30 digits.
const DECIMAL_LIMIT: u128 = 1_000_000_000_000_000_000_000_000_000_000;
// 16^25: a number below it has at most 25 hexadecimal digits.
const HEXADECIMAL_LIMIT: u128 = 0x10_0000_0000_0000_0000_0000_0000;
// No number of digits behind a point makes up for an exponent of this size.
const POWER_LIMIT: u128 = 100_000_000_000_000_000_000;

/// The number of a spelling, with the point removed into the exponent; `None` exactly where it is
/// past the limits.
pub fn written(parts: &LiteralParts) -> Option<Literal>
    requires { IsSpelling (spelling_of parts.now) }
    ensures written { GivesWritten (spelling_of parts.now) result }
    ensures small { IfSome result (IsSmall parts.now.form) }
{
    match parts.form {
        Form::Decimal => decimal(parts.whole, parts.fraction, parts.power),
        Form::Binary => binary(parts.whole, parts.power),
        Form::Hexadecimal => hexadecimal(parts.whole, parts.fraction, parts.power),
    }
}

fn decimal(whole: &[u8], fraction: &[u8], power: Option<Power>) -> Option<Literal>
    ensures { GivesAs Form.Decimal whole.now fraction.now (power_of power.entry) result }
{
    let num = joined(10, DECIMAL_LIMIT, whole, fraction)?;
    let ten = lowered(power, fraction.len() as i128, -30, 8)?;
    Some(Literal { num, two: 0, ten })
}

fn binary(whole: &[u8], power: Option<Power>) -> Option<Literal>
    requires { AllDigits 10 whole.now }
    ensures written { GivesAs Form.Binary whole.now [] (power_of power.entry) result }
    ensures small { IfSome result (IsSmall Form.Binary) }
{
    if whole.len() > 30 {
        return None;
    }
    let Some(num) = continued(10, DECIMAL_LIMIT, 0, whole) else {
        return None;
    };
    let two = lowered(power, 0, -512, 512)?;
    Some(Literal { num, two, ten: 0 })
}

fn hexadecimal(whole: &[u8], fraction: &[u8], power: Option<Power>) -> Option<Literal>
    ensures { GivesAs Form.Hexadecimal whole.now fraction.now (power_of power.entry) result }
{
    let num = joined(16, HEXADECIMAL_LIMIT, whole, fraction)?;
    let two = lowered(power, 4 * fraction.len() as i128, -512, 512)?;
    Some(Literal { num, two, ten: 0 })
}

// The number of two runs of digits in a row; `None` exactly where it reaches the limit.
fn joined(radix: u128, limit: u128, whole: &[u8], fraction: &[u8]) -> Option<u128>
    requires radix { (0 < radix) × (radix ≤ 16) }
    requires limit { (0 < limit) × (limit ≤ 2 ^ 120) }
    ensures { SomeIff result (digits_value radix (whole.now ++ fraction.now) < limit)
        (digits_value radix (whole.now ++ fraction.now)) }
{
    let Some(num) = continued(radix, limit, 0, whole) else {
        return None;
    };
    continued(radix, limit, num, fraction)
}

// The number that digits write when they follow those of another; `None` exactly where it reaches
// the limit.
fn continued(radix: u128, limit: u128, first: u128, digits: &[u8]) -> Option<u128>
    requires radix { (0 < radix) × (radix ≤ 16) }
    requires limit { (first < limit) × (limit ≤ 2 ^ 120) }
    ensures { SomeIff result (digits_value_after radix first digits.now < limit)
        (digits_value_after radix first digits.now) }
{
    let mut num = first;
    for b in digits {
        num = num * radix + u128::from(digit(*b));
        if num >= limit {
            return None;
        }
    }
    Some(num)
}

// An exponent less the places behind the point; `None` exactly where it is outside its range.
fn lowered(power: Option<Power>, places: i128, low: i32, high: i32) -> Option<i32>
    requires places { (pos 0 ≤ℤ places) × (places ≤ℤ pos (4 * 2 ^ 64)) }
    requires range { (negsuc 999 ≤ℤ low) × (high ≤ℤ pos 999) }
    ensures { SomeIff result (IsBetween low high (exponent_value (power_of power.entry) -ℤ places))
        (exponent_value (power_of power.entry) -ℤ places) }
{
    let exponent = signed(power)? - places;
    if exponent < i128::from(low) {
        return None;
    }
    if exponent > i128::from(high) {
        return None;
    }
    Some(exponent as i32)
}

// The number of an exponent; `None` exactly where it reaches the limit either way.
fn signed(power: Option<Power>) -> Option<i128>
    ensures { IsSizeOf (exponent_value (power_of power.entry)) result }
{
    let Some(power) = power else {
        return Some(0);
    };
    let size = continued(10, POWER_LIMIT, 0, power.digits)? as i128;
    Some(match power.mark {
        Mark::Minus => -size,
        _ => size,
    })
}
