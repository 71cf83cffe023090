//! Which propositions are hypotheses: those with a `->` of the formula behind them. What only a
//! hypothesis has.

ghost use Rattle.std.specs.Prelude.{◌≡◌, ◌≤◌, ◌-◌, length};
ghost use Rattle.script_words.specs.Named.{word_of};
ghost use Rattle.script_words.specs.Kept.{words_in};
ghost use Rattle.script_shape.specs.Roles.{leaves_of};
ghost use Rattle.script_judge.specs.Counts.{one_if};
ghost use Rattle.script_judge.specs.Judge as spec;
ghost use Rattle.script_judge.specs.Sides as side;
ghost use Rattle.script_judge.specs.Sides.{is_bound_sign};

use script_shape::due::Due;
use script_words::class::Symbol;
use script_words::list::WordList;
use script_words::words::Word;

/// Whether it is a `->` of the formula.
pub fn is_arrow(role: Due, word: Word<'_>) -> bool
    ensures { result ≡ side.is_arrow role (word_of word.entry) }
{
    matches!((role, word), (Due::Connective, Word::Sign(Symbol::Arrow)))
}

/// How many tokens are a `->` of the formula.
pub fn arrow_count(words: WordList<'_, '_>, roles: &[Due]) -> usize
    ensures { result ≡ spec.arrow_count (leaves_of roles.now (words_in words.entry)) }
{
    let mut words = words;
    let mut roles = roles;
    let mut count = 0;
    while let [role, later_roles @ ..] = roles {
        let Some((word, later_words)) = words.split_first() else {
            return count;
        };
        if is_arrow(*role, word) {
            count += 1;
        }
        words = later_words;
        roles = later_roles;
    }
    count
}

/// The arrows that are left behind a token.
pub fn without(arrows: usize, is_arrow: bool) -> usize
    ensures { result ≡ arrows - one_if is_arrow }
{
    if is_arrow {
        arrows.saturating_sub(1)
    } else {
        arrows
    }
}

fn is_ask(word: Word<'_>) -> bool
    ensures { result ≡ spec.is_ask (word_of word.entry) }
{
    matches!(word, Word::Sign(Symbol::Ask))
}

/// Whether it is the sign of a `\/`.
pub fn is_or(word: Word<'_>) -> bool
    ensures { result ≡ side.is_or (word_of word.entry) }
{
    matches!(word, Word::Sign(Symbol::Or))
}

fn is_bound_sign(word: Word<'_>) -> bool
    ensures { result ≡ is_bound_sign (word_of word.entry) }
{
    matches!(word, Word::Sign(Symbol::LessEqual | Symbol::GreaterEqual))
}

/// Whether the proposition that begins with these words is `e <= n` or `e >= n`.
fn begins_bound(words: WordList<'_, '_>, roles: &[Due]) -> bool
    ensures { result ≡ side.begins_bound (leaves_of roles.now (words_in words.entry)) }
{
    let mut words = words;
    let mut roles = roles;
    while let [role, later_roles @ ..] = roles {
        let Some((word, later_words)) = words.split_first() else {
            return false;
        };
        match role {
            Due::Prop => return false,
            Due::Relation => return is_bound_sign(word),
            _ => {}
        }
        words = later_words;
        roles = later_roles;
    }
    false
}

/// Whether no word is left.
fn is_last(words: WordList<'_, '_>, roles: &[Due]) -> bool
    requires { length roles.now ≤ length (words_in words) }
    ensures { result ≡ spec.is_empty (leaves_of roles.now (words_in words.entry)) }
{
    roles.is_empty()
}

/// Whether it is a form on its wrong side, or a `not` before another proposition than a bound.
pub fn is_on_wrong_side(
    role: Due,
    word: Word<'_>,
    arrow_behind: bool,
    words: WordList<'_, '_>,
    roles: &[Due],
) -> bool
    requires { length roles.now ≤ length (words_in words) }
    ensures { result ≡ spec.is_on_wrong_side role (word_of word.entry) arrow_behind
        (leaves_of roles.now (words_in words.entry)) }
{
    match role {
        Due::Range => is_ask(word) && arrow_behind,
        Due::Prop => !arrow_behind && !is_last(words, roles),
        Due::Connective => is_or(word) && !arrow_behind,
        Due::Claim => !arrow_behind || !begins_bound(words, roles),
        _ => false,
    }
}
