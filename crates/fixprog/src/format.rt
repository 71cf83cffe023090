//! Formats of fixed-point numbers.

ghost use Rattle.std.specs.Prelude.{◌≡◌, ◌<◌, ◌≤◌, ◌+◌, ◌%◌, ◌^◌, ◌≤ℤ◌, ◌+ℤ◌, ◌-◌, pos, negsuc};
ghost use Rattle.std.specs.Prelude.{neg_ℤ, ◌∷◌, length, take, drop, IfSome, Some};
ghost use Rattle.fx_model.specs.Grid.{signed};
ghost use Rattle.fx_model.specs.Powers.{scaled};
ghost use Rattle.literal_order.specs.Values.{written_value, IsWritten};
ghost use Rattle.fixprog.specs.Formats as spec;

use crate::lex::digits_len;
use fx_model::Literal;
use literal_order::Written;
use script_words::digits::number_below;

/// How the words of a value are read: `sW.F` or `uW.F`, with a width of 1 to 60, and at most 60
/// places.
#[derive(Clone, Copy, Debug, PartialEq, Eq)]
pub struct Format {
    pub signed: bool,
    pub width: u8,
    pub places: u8,
}

/// So many bytes at the front.
fn front_of(text: &[u8], count: usize) -> &[u8]
    requires { count ≤ length text.now }
    ensures { result.now ≡ take count text.now }
{
    &text[..count]
}

/// What stands behind the point that is behind so many bytes.
fn behind_point(text: &[u8], digits: usize) -> &[u8]
    requires { digits ≤ length text.now }
    ensures { result.now ≡ drop (digits + 1) text.now }
{
    if digits < text.len() {
        &text[digits + 1..]
    } else {
        &text[digits..]
    }
}

/// The format of a letter and what stands behind it.
fn format_with(letter: u8, text: &[u8]) -> Option<Format>
    ensures format { result ≡ spec.within_limits (spec.format_of (letter ∷ text.now)) }
    ensures limits { IfSome result (λ f. (0 < f.width) × (f.width ≤ 60) × (f.places ≤ 60)) }
{
    let digits = digits_len(text);
    let width = number_below(61, front_of(text, digits))?;
    let places = number_below(61, behind_point(text, digits))?;
    if width == 0 {
        return None;
    }
    Some(Format {
        signed: letter == b's',
        width: width as u8,
        places: places as u8,
    })
}

/// The format of a text, where its numbers are within their limits.
pub fn format_of(text: &[u8]) -> Option<Format>
    ensures format { result ≡ spec.within_limits (spec.format_of text.now) }
    ensures limits { IfSome result (λ f. (0 < f.width) × (f.width ≤ 60) × (f.places ≤ 60)) }
{
    match text {
        [letter, rest @ ..] => format_with(*letter, rest),
        [] => None,
    }
}

// A number of this many binary ones.
fn ones(places: u8) -> u64
    requires { places ≤ 60 }
    ensures value { result + 1 ≡ 2 ^ places }
    ensures odd { 0 < result → result % 2 ≡ 1 }
    ensures short { result < 2 ^ 60 }
{
    (1u64 << places) - 1
}

// The number num * 2^two, or its negative.
fn binary(num: u64, two: i32, negative: bool) -> Written
    requires odd { 0 < num → num % 2 ≡ 1 }
    requires short { num < 2 ^ 60 }
    requires low { negsuc 59 ≤ℤ two }
    requires high { two ≤ℤ pos 59 }
    ensures value { written_value result ≡ signed negative (scaled (pos num) two) }
    ensures written { IsWritten (Some result) }
{
    if num == 0 {
        return Written {
            literal: Literal {
                num: 0,
                two: 0,
                ten: 0,
            },
            negative,
        };
    }
    Written {
        literal: Literal {
            num: u128::from(num),
            two,
            ten: 0,
        },
        negative,
    }
}

impl Format {
    /// The least word.
    pub fn least(self) -> i64
        requires width { 0 < self.width }
        requires narrow { self.width ≤ 60 }
        ensures { result ≡ spec.least self }
    {
        if self.signed {
            -(1i64 << (self.width - 1))
        } else {
            0
        }
    }

    /// The greatest word.
    pub fn greatest(self) -> i64
        requires width { 0 < self.width }
        requires narrow { self.width ≤ 60 }
        ensures { result ≡ spec.greatest self }
    {
        self.greatest_word() as i64
    }

    fn greatest_word(self) -> u64
        requires width { 0 < self.width }
        requires narrow { self.width ≤ 60 }
        ensures value { pos result ≡ spec.greatest self }
        ensures odd { 0 < result → result % 2 ≡ 1 }
        ensures short { result < 2 ^ 60 }
    {
        if self.signed {
            ones(self.width - 1)
        } else {
            ones(self.width)
        }
    }

    /// The place of the last bit.
    pub fn last_place(self) -> i64
        ensures { result ≡ spec.last_place self }
    {
        -i64::from(self.places)
    }

    // The least word of a signed format is the negative of this power of two.
    fn least_exponent(self) -> i32
        requires width { 0 < self.width }
        requires narrow { self.width ≤ 60 }
        requires short { self.places ≤ 60 }
        ensures { result ≡ neg_ℤ (pos self.places) +ℤ pos (self.width - 1) }
    {
        i32::from(self.width) - 1 - i32::from(self.places)
    }

    /// The value of the least word.
    pub fn least_number(self) -> Written
        requires width { 0 < self.width }
        requires narrow { self.width ≤ 60 }
        requires short { self.places ≤ 60 }
        ensures value { written_value result ≡ spec.word_value self (spec.least self) }
        ensures written { IsWritten (Some result) }
    {
        if self.signed {
            binary(1, self.least_exponent(), true)
        } else {
            binary(0, 0, false)
        }
    }

    /// The value of the greatest word.
    pub fn greatest_number(self) -> Written
        requires width { 0 < self.width }
        requires narrow { self.width ≤ 60 }
        requires short { self.places ≤ 60 }
        ensures value { written_value result ≡ spec.word_value self (spec.greatest self) }
        ensures written { IsWritten (Some result) }
    {
        binary(self.greatest_word(), -i32::from(self.places), false)
    }
}
