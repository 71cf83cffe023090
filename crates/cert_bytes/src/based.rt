//! Numbers of version 2: in base 128, signed ones as ones without a sign, and steps by how far back
//! they stand.
ghost use Rattle.std.specs.Prelude.{◌≡◌, ◌≤◌, ◌<◌, ◌*◌, ◌^◌, SomeIff};
ghost use Rattle.std.specs.Int.{w16, w64};
ghost use Rattle.cert_bytes.specs.Reading as spec;
ghost use Rattle.cert_bytes.specs.Spelling.{distance, zigzag};

use crate::style::{Seen, Style};

// What a digit of this weight counts, where there is room for it. Only a number of nineteen bytes
// has no room.
fn part_of(weight: u128, digit: u8) -> Option<u128>
    ensures { SomeIff result (weight * digit < 2 ^ 128) (weight * digit) }
{
    if weight <= 1329227995784915872903807060280344576 {
        return Some(weight * u128::from(digit));
    }
    weight.checked_mul(u128::from(digit))
}

/// The number that ends with a digit of this weight, behind those that make `value`: where it has
/// no shorter spelling, and isn't above `most`.
pub fn ended_with(weight: u128, value: u128, digit: u8, most: u128) -> Option<u128>
    ensures { result ≡ spec.at_most most (spec.ended_with weight value digit) }
{
    if digit == 0 && weight > 1 {
        return None;
    }
    let Some(part) = part_of(weight, digit) else {
        return None;
    };
    let Some(number) = value.checked_add(part) else {
        return None;
    };
    if number <= most { Some(number) } else { None }
}

/// The same of a number of nine bytes at most.
#[inline(always)]
pub fn ended_near(weight: u64, value: u64, digit: u8, most: u128) -> Option<u128>
    requires weight { weight ≤ 2 ^ 56 }
    requires value { value < weight }
    requires digit { digit < 128 }
    ensures { result ≡ spec.at_most most (spec.ended_with weight value digit) }
{
    if weight > 1 && digit == 0 {
        return None;
    }
    let number = u128::from(value + weight * u64::from(digit));
    if number <= most { Some(number) } else { None }
}

/// How far behind a step the next one stands, and back.
pub fn distance(steps: u64, step: u64) -> u64
    ensures { result ≡ distance steps step }
{
    steps.wrapping_sub(step)
}

/// The number of a step, by its field; and its field, by the number.
pub fn step_by(style: Style, number: u64) -> u64
    ensures { result ≡ spec.step_by style number }
{
    match style {
        Style::First => number,
        Style::Second(seen) => distance(seen.steps, number),
    }
}

fn unzigzag_short(number: u16) -> i16
    ensures { result ≡ spec.unzigzag number }
{
    if number % 2 == 0 {
        (number / 2) as i16
    } else {
        -1 - (number / 2) as i16
    }
}

fn unzigzag_long(number: u64) -> i64
    ensures { result ≡ spec.unzigzag number }
{
    if number % 2 == 0 {
        (number / 2) as i64
    } else {
        -1 - (number / 2) as i64
    }
}

/// A signed number of two bytes, by its field.
pub fn signed_short_by(style: Style, number: u16) -> i16
    ensures { result ≡ spec.signed_by style w16 number }
{
    match style {
        Style::First => number.cast_signed(),
        Style::Second(_) => unzigzag_short(number),
    }
}

/// A signed number of eight bytes, by its field.
pub fn signed_long_by(style: Style, number: u64) -> i64
    ensures { result ≡ spec.signed_by style w64 number }
{
    match style {
        Style::First => number.cast_signed(),
        Style::Second(_) => unzigzag_long(number),
    }
}

/// A signed number as one without a sign.
pub fn zigzag(number: i64) -> u64
    ensures { result ≡ zigzag number }
{
    if number >= 0 {
        2 * (number as u64)
    } else {
        2 * ((-1 - number) as u64) + 1
    }
}
