//! The parts of a spelling.

ghost use Rattle.std.specs.Prelude.{◌≡◌, ◌≤◌, ◌<◌, ◌∷◌, ◌++◌, length, take, drop, IsTrue, ◌↔◌};
ghost use Rattle.std.specs.Char.{digit_value};
ghost use Rattle.std.specs.Str.Parse.{AllDigits, IsNumeral};
ghost use Rattle.literal.specs.Spelling.{base};
ghost use Rattle.literal.specs.Parts.{BeginsWithNo, StandsBehind, StandsBehindOpening};
ghost use Rattle.literal.specs.Parts.{IsFrontDigits, IsNoDigitFirst, SplitsMark, FindsPower};
ghost use Rattle.literal.specs.Parts.{FindsForm, FindsScale, FindsBody, FindsParts};

/// How a literal is written.
#[derive(Clone, Copy, PartialEq, Eq, Debug)]
pub enum Form {
    /// Digits, with a power of ten behind `e`.
    Decimal,
    /// Digits and a power of two behind `b`.
    Binary,
    /// Hexadecimal digits behind `0x`, with a power of two behind `p`.
    Hexadecimal,
}

/// The sign of an exponent.
#[derive(Clone, Copy, PartialEq, Eq, Debug)]
pub enum Mark {
    /// No sign is written.
    Unmarked,
    /// `+`
    Plus,
    /// `-`
    Minus,
}

/// An exponent as it is written.
#[derive(Clone, Copy)]
pub struct Power<'a> {
    pub mark: Mark,
    pub digits: &'a [u8],
}

/// A literal as it is written; where it has no point, it has no digits behind one.
#[derive(Clone, Copy)]
pub struct LiteralParts<'a> {
    pub form: Form,
    pub whole: &'a [u8],
    pub fraction: &'a [u8],
    pub power: Option<Power<'a>>,
}

/// What a literal ends with: its exponent, if any, and the form that it gives the literal.
#[derive(Clone, Copy)]
pub struct End<'a> {
    pub form: Form,
    pub power: Option<Power<'a>>,
}

/// The parts of a text that spells a literal; `None` exactly where it spells none.
pub fn parts_of(text: &[u8]) -> Option<LiteralParts<'_>>
    ensures { FindsParts text.now result }
{
    match behind_opening(text) {
        Some(rest) => body(true, rest),
        None => body(false, text),
    }
}

// What stands behind `0x`.
fn behind_opening(text: &[u8]) -> Option<&[u8]>
    ensures { StandsBehindOpening text.now result }
{
    let Some(digits) = behind(b'0', text) else {
        return None;
    };
    behind(b'x', digits)
}

// The parts behind what opens a literal.
fn body(hexadecimal: bool, text: &[u8]) -> Option<LiteralParts<'_>>
    ensures { FindsBody hexadecimal text.now result }
{
    let (whole, rest) = split_digits(hexadecimal, text);
    if whole.is_empty() {
        return None;
    }
    match behind(b'.', rest) {
        Some(tail) => pointed(hexadecimal, whole, tail),
        None => unpointed(hexadecimal, whole, rest),
    }
}

// The parts where a point stands behind the first digits.
fn pointed<'a>(hexadecimal: bool, whole: &'a [u8], tail: &'a [u8]) -> Option<LiteralParts<'a>>
    requires digits { AllDigits (base hexadecimal) whole.now }
    requires some { 0 < length whole.now }
    ensures { FindsBody hexadecimal (whole.now ++ (46 ∷ tail.now)) result }
{
    let (fraction, rest) = split_digits(hexadecimal, tail);
    if fraction.is_empty() {
        return None;
    }
    let Some(end) = end_of(hexadecimal, rest) else {
        return None;
    };
    if end.form == Form::Binary {
        return None;
    }
    Some(LiteralParts {
        form: end.form,
        whole,
        fraction,
        power: end.power,
    })
}

// The parts where none does.
fn unpointed<'a>(hexadecimal: bool, whole: &'a [u8], rest: &'a [u8]) -> Option<LiteralParts<'a>>
    requires front { IsFrontDigits (base hexadecimal) (whole.now ++ rest.now) whole.now rest.now }
    requires some { 0 < length whole.now }
    requires apart { BeginsWithNo 46 rest.now }
    ensures { FindsBody hexadecimal (whole.now ++ rest.now) result }
{
    let Some(end) = end_of(hexadecimal, rest) else {
        return None;
    };
    Some(LiteralParts {
        form: end.form,
        whole,
        fraction: &[],
        power: end.power,
    })
}

// What stands behind a first byte.
fn behind(first: u8, text: &[u8]) -> Option<&[u8]>
    ensures { StandsBehind first text.now result }
{
    match text {
        [b, rest @ ..] if *b == first => Some(rest),
        _ => None,
    }
}

// What stands behind the digits, to the end: nothing, or a letter and an exponent.
fn end_of(hexadecimal: bool, text: &[u8]) -> Option<End<'_>>
    ensures { FindsScale hexadecimal text.now result }
{
    match text {
        [] => Some(End {
            form: if hexadecimal {
                Form::Hexadecimal
            } else {
                Form::Decimal
            },
            power: None,
        }),
        [letter, rest @ ..] => {
            let form = form_of(hexadecimal, *letter)?;
            let power = exponent(rest)?;
            Some(End {
                form,
                power: Some(power),
            })
        }
    }
}

// The form in which a letter stands before an exponent.
fn form_of(hexadecimal: bool, letter: u8) -> Option<Form>
    ensures { FindsForm hexadecimal letter result }
{
    match (hexadecimal, letter) {
        (false, b'e') => Some(Form::Decimal),
        (false, b'b') => Some(Form::Binary),
        (true, b'p') => Some(Form::Hexadecimal),
        _ => None,
    }
}

// An exponent that takes the whole text.
fn exponent(text: &[u8]) -> Option<Power<'_>>
    ensures { FindsPower text.now result }
{
    let (mark, digits) = split_mark(text);
    if is_numeral(digits) {
        Some(Power { mark, digits })
    } else {
        None
    }
}

fn split_mark(text: &[u8]) -> (Mark, &[u8])
    ensures { SplitsMark text.now result.0 result.1.now }
{
    match text {
        [b'+', rest @ ..] => (Mark::Plus, rest),
        [b'-', rest @ ..] => (Mark::Minus, rest),
        _ => (Mark::Unmarked, text),
    }
}

// Whether a text is decimal digits, one or more.
fn is_numeral(text: &[u8]) -> bool
    ensures { IsTrue result ↔ IsNumeral 10 text.now }
{
    let (digits, rest) = split_digits(false, text);
    rest.is_empty() && !digits.is_empty()
}

// The digits at the front, and the rest.
fn split_digits(hexadecimal: bool, text: &[u8]) -> (&[u8], &[u8])
    ensures { IsFrontDigits (base hexadecimal) text.now result.0.now result.1.now }
{
    text.split_at(digit_count(hexadecimal, text))
}

// How many digits stand at the front.
fn digit_count(hexadecimal: bool, text: &[u8]) -> usize
    ensures within { result ≤ length text.now }
    ensures digits { AllDigits (base hexadecimal) (take result text.now) }
    ensures ends { IsNoDigitFirst (base hexadecimal) (drop result text.now) }
{
    let radix = base_of(hexadecimal);
    for (i, b) in text.iter().enumerate() {
        if u32::from(digit(*b)) >= radix {
            return i;
        }
    }
    text.len()
}

fn base_of(hexadecimal: bool) -> u32
    ensures base { result ≡ base hexadecimal }
    ensures range { (2 ≤ result) × (result ≤ 36) }
{
    if hexadecimal { 16 } else { 10 }
}

/// What a digit counts, and 36 for what is none.
pub fn digit(b: u8) -> u8
    ensures value { result ≡ digit_value b }
    ensures small { result ≤ 36 }
{
    match b {
        b'0'..=b'9' => b - b'0',
        b'A'..=b'Z' => b - b'A' + 10,
        b'a'..=b'z' => b - b'a' + 10,
        _ => 36,
    }
}
