//! The bounds of ranges.

ghost use Rattle.std.specs.Prelude.{◌≡◌, ◌↔◌, Some};
ghost use Rattle.std.specs.Option.{option_map};
ghost use Rattle.fx_model.specs.Fraction.{Fraction};
ghost use Rattle.literal_order.specs.Values.{written_value, IsWritten};
ghost use Rattle.script_words.specs.Named.{word_of};
ghost use Rattle.script_words.specs.Kept.{words_in};
ghost use Rattle.script_shape.specs.Roles.{leaves_of};
ghost use Rattle.script_judge.specs.Bounds as spec;
ghost use Rattle.script_judge.specs.BoundViews.{bounds_of};

use literal_order::Written;
use script_bounds::{is_too_low, read_number};
use script_shape::due::Due;
use script_words::class::Symbol;
use script_words::list::WordList;
use script_words::words::Word;

fn word_number(negative: bool, word: Word<'_>) -> Option<Written>
    ensures normal { IsWritten result }
    ensures value { (x : Fraction) → (option_map written_value result ≡ Some x)
        ↔ spec.IsWordNumber negative (word_of word.entry) x }
{
    match word {
        Word::Literal(_, text) => read_number(negative, text),
        _ => None,
    }
}

/// The number of the next word.
fn magnitude(negative: bool, words: WordList<'_, '_>, roles: &[Due]) -> Option<Written>
    ensures normal { IsWritten result }
    ensures value { (x : Fraction) → (option_map written_value result ≡ Some x)
        ↔ spec.IsMagnitude negative (leaves_of roles.now (words_in words.entry)) x }
{
    let [_role, _later_roles @ ..] = roles else {
        return None;
    };
    let Some((word, _later_words)) = words.split_first() else {
        return None;
    };
    word_number(negative, word)
}

fn bound_text(word: Word<'_>, words: WordList<'_, '_>, roles: &[Due]) -> Option<Written>
    ensures normal { IsWritten result }
    ensures value { (x : Fraction) → (option_map written_value result ≡ Some x)
        ↔ spec.IsBoundText (word_of word.entry) (leaves_of roles.now (words_in words.entry)) x }
{
    match word {
        Word::Literal(_, text) => read_number(false, text),
        Word::Sign(Symbol::Plus) => magnitude(false, words, roles),
        Word::Sign(Symbol::Minus) => magnitude(true, words, roles),
        _ => None,
    }
}

/// The number of the bound that begins with a token.
pub fn bound_number(
    role: Due,
    word: Word<'_>,
    words: WordList<'_, '_>,
    roles: &[Due],
) -> Option<Written>
    ensures normal { IsWritten result }
    ensures value { (x : Fraction) → (option_map written_value result ≡ Some x)
        ↔ spec.IsBoundOf role (word_of word.entry) (leaves_of roles.now (words_in words.entry)) x }
{
    match role {
        Due::Bound => bound_text(word, words, roles),
        _ => None,
    }
}

/// What stands before a bound.
#[derive(Clone, Copy)]
pub struct Bounds {
    /// Whether the range is one of relative errors.
    relative: bool,
    /// Whether the lower bound of a range comes next.
    lower_due: bool,
    /// The lower bound, up to the upper.
    lower: Option<Written>,
}

fn relative_after(relative: bool, role: Due) -> bool
    ensures { result ≡ spec.relative_after relative role }
{
    match role {
        Due::In => true,
        Due::Relation => false,
        _ => relative,
    }
}

fn opens_range(role: Due, word: Word<'_>) -> bool
    ensures { result ≡ spec.opens_range role (word_of word.entry) }
{
    matches!((role, word), (Due::Range, Word::Sign(Symbol::OpenBracket)))
}

// Keeps the lower bound of a range for the upper.
fn keep_lower(lower: &mut Option<Written>, lower_due: bool, number: Option<Written>, role: Due)
    ensures value { option_map written_value lower.new
        ≡ spec.lower_after (option_map written_value lower.old) lower_due
        (option_map written_value number) role }
    ensures normal { IsWritten lower.old → IsWritten number → IsWritten lower.new }
{
    match role {
        Due::Bound => *lower = if lower_due { number } else { None },
        _ => {}
    }
}

/// Whether the upper bound is below the lower.
fn is_crossed(lower: Option<Written>, upper: Option<Written>) -> bool
    requires lower { IsWritten lower }
    requires upper { IsWritten upper }
    ensures { result ≡ spec.is_crossed (option_map written_value lower)
        (option_map written_value upper) }
{
    match (lower, upper) {
        (Some(lower), Some(upper)) => upper.is_below(lower),
        _ => false,
    }
}

fn is_some_too_low(number: Option<Written>) -> bool
    requires { IsWritten number }
    ensures { result ≡ spec.is_some_too_low (option_map written_value number) }
{
    match number {
        Some(number) => is_too_low(number),
        None => false,
    }
}

impl Bounds {
    /// Before the first token.
    pub fn new() -> Bounds
        ensures value { bounds_of result ≡ spec.no_bounds }
        ensures normal { IsWritten result.lower }
    {
        Bounds {
            relative: false,
            lower_due: false,
            lower: None,
        }
    }

    /// Takes a token, with the number of the bound that begins there.
    pub fn take(&mut self, number: Option<Written>, role: Due, word: Word<'_>)
        ensures value { bounds_of self.new
            ≡ spec.bounds_after (bounds_of self.old)
            (option_map written_value number) role (word_of word.entry) }
        ensures normal { IsWritten self.old.lower → IsWritten number → IsWritten self.new.lower }
    {
        keep_lower(&mut self.lower, self.lower_due, number, role);
        self.relative = relative_after(self.relative, role);
        self.lower_due = opens_range(role, word);
    }

    /// Whether the bound is below its lower one, or a lower bound of relative errors that is too
    /// low.
    pub fn is_bad(self, number: Option<Written>) -> bool
        requires lower { IsWritten self.lower }
        requires number { IsWritten number }
        ensures { result ≡ spec.is_bad_bound (bounds_of self) (option_map written_value number) }
    {
        is_crossed(self.lower, number) || self.relative && self.lower_due && is_some_too_low(number)
    }
}
