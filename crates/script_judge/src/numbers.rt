//! What the digits of a token tell.

ghost use Rattle.std.specs.Prelude.{◌≡◌, ◌<◌, ◌==◌, nat_lt, IsTrue, ◌↔◌};
ghost use Rattle.std.specs.Str.Parse.{digits_value};
ghost use Rattle.literal.specs.Normal.{IsPastLimits};
ghost use Rattle.literal_order.specs.Values.{IsWritten};
ghost use Rattle.script_words.specs.Named.{word_of};
ghost use Rattle.script_words.specs.Kept.{words_in};
ghost use Rattle.script_shape.specs.Roles.{leaves_of};
ghost use Rattle.script_judge.specs.BoundViews.{notes_of};
ghost use Rattle.script_judge.specs.Numbers as spec;

use crate::bounds::bound_number;
use literal::{LiteralFault, read_bytes};
use literal_order::Written;
use script_shape::due::Due;
use script_words::digits::number_below;
use script_words::list::WordList;
use script_words::words::Word;

/// Whether digits write a number above a limit.
fn is_above(limit: u32, text: &[u8]) -> bool
    requires { limit < 999 }
    ensures { result ≡ nat_lt limit (digits_value 10 text.now) }
{
    match number_below(1000, text) {
        Some(number) => number > limit,
        None => true,
    }
}

/// Whether the word is digits of a number above a limit.
fn is_word_above(limit: u32, word: Word<'_>) -> bool
    requires { limit < 999 }
    ensures { result ≡ nat_lt limit (spec.digits_of (word_of word.entry)) }
{
    match word {
        Word::Literal(_, text) => is_above(limit, text),
        _ => false,
    }
}

fn is_nought(text: &[u8]) -> bool
    ensures { result ≡ digits_value 10 text.now == 0 }
{
    match number_below(1000, text) {
        Some(number) => number == 0,
        None => false,
    }
}

/// Whether a cut is into no pieces.
pub fn has_no_pieces(role: Due, word: Word<'_>) -> bool
    ensures { result ≡ spec.has_no_pieces role (word_of word.entry) }
{
    match (role, word) {
        (Due::Cut, Word::Literal(_, text)) => is_nought(text),
        _ => false,
    }
}

/// Whether the digits are a least significant bit past its limits.
pub fn is_past_lsb(role: Due, word: Word<'_>) -> bool
    ensures { result ≡ spec.is_past_lsb role (word_of word.entry) }
{
    match role {
        Due::Whole | Due::WholeDigits => is_word_above(512, word),
        _ => false,
    }
}

/// Whether the digits are too many pieces.
pub fn is_past_pieces(role: Due, word: Word<'_>) -> bool
    ensures { result ≡ spec.is_past_pieces role (word_of word.entry) }
{
    match role {
        Due::Cut => is_word_above(64, word),
        _ => false,
    }
}

/// Whether the text is a literal past its limits.
fn is_past_limits(text: &[u8]) -> bool
    ensures { IsTrue result ↔ IsPastLimits text.now }
{
    matches!(read_bytes(text), Err(LiteralFault::LiteralLimit))
}

/// Whether the token is a literal of an expression or a bound that is past its limits.
pub fn is_past(role: Due, word: Word<'_>) -> bool
    ensures { IsTrue result ↔ spec.IsPast (spec.is_number role) (word_of word.entry) }
{
    match (role, word) {
        (Due::Operand | Due::Bound | Due::Magnitude, Word::Literal(_, text)) => is_past_limits(
            text,
        ),
        _ => false,
    }
}

/// What is noted of a token.
#[derive(Clone, Copy)]
pub struct Notes {
    /// Whether it is a literal past its limits.
    pub past: bool,
    /// The number of the bound that begins with it.
    pub number: Option<Written>,
}

/// What is noted of a token, with these words behind it.
pub fn notes_on(role: Due, word: Word<'_>, words: WordList<'_, '_>, roles: &[Due]) -> Notes
    ensures tells { spec.Tells (notes_of result) role (word_of word.entry)
        (leaves_of roles.now (words_in words.entry)) }
    ensures within { IsWritten result.number }
{
    Notes {
        past: is_past(role, word),
        number: bound_number(role, word, words, roles),
    }
}
