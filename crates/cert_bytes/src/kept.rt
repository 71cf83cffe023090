//! Numbers that are kept in one form.
ghost use Rattle.std.specs.Prelude.{◌≡◌, ◌↔◌, IsTrue, ◌-◌, ◌<◌, negsuc};
ghost use Rattle.cert_bytes.specs.Numbers as spec;

use dyadic::Dyadic;
use fx_model::Literal;

// Whether the number has this mantissa and exponent.
fn is_kept(number: Dyadic, mantissa: i64, exponent: i32) -> bool
    ensures { IsTrue result ↔ ((number.mantissa ≡ mantissa) × (number.exponent ≡ exponent)) }
{
    number.mantissa() == mantissa && number.exponent() == exponent
}

/// The number of the grid with this mantissa and exponent, where it is kept in this form.
#[tactic(auto, using(crate::proofs::Forms::kept_none))]
pub fn number_from(mantissa: i64, exponent: i32) -> Option<Dyadic>
    ensures { result ≡ spec.number_from mantissa exponent }
{
    let Some(number) = Dyadic::new(mantissa, exponent) else {
        return None;
    };
    if is_kept(number, mantissa, exponent) {
        Some(number)
    } else {
        None
    }
}

// How far an exponent is above `most`.
fn over(most: u16, exponent: i32) -> u32
    ensures { result ≡ spec.over most exponent }
{
    if exponent > i32::from(most) {
        (exponent - i32::from(most)) as u32
    } else {
        0
    }
}

// Whether the number has room for its exponent's excess over `high` as further tens.
fn has_room_of_ten(num: u128, exponent: i32) -> bool
    ensures { result ≡ spec.has_room 10 30 (negsuc 29) 8 num exponent }
{
    let excess = over(8, exponent);
    exponent >= -30 && excess < 31 && num < 10u128.pow(30 - excess)
}

// The same of twos.
fn has_room_of_two(num: u128, exponent: i32) -> bool
    ensures { result ≡ spec.has_room 2 100 (negsuc 511) 512 num exponent }
{
    let excess = over(512, exponent);
    exponent >= -512 && excess < 101 && num < 2u128.pow(100 - excess)
}

fn is_zero(l: Literal) -> bool
    ensures { result ≡ spec.is_zero l }
{
    l.num == 0 && l.two == 0 && l.ten == 0
}

fn is_decimal(l: Literal) -> bool
    ensures { result ≡ spec.is_decimal l }
{
    l.two == 0 && l.num % 10 != 0 && has_room_of_ten(l.num, l.ten)
}

fn is_binary(l: Literal) -> bool
    ensures { result ≡ spec.is_binary l }
{
    l.ten == 0 && l.num % 2 != 0 && has_room_of_two(l.num, l.two)
}

/// Whether the literal is zero, or the normal form of one within the limits.
#[tactic(auto, unfolding(crate::specs::Numbers::is_normal))]
pub fn is_normal(l: Literal) -> bool
    ensures { result ≡ spec.is_normal l }
{
    is_zero(l) || is_decimal(l) || is_binary(l)
}
