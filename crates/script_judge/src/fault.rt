//! Where the reading of a text ends before its script does.

ghost use Rattle.std.specs.Prelude.{◌≡◌, ◌≤◌, length, IfOk};
ghost use Rattle.std.specs.Option.{option_map};
ghost use Rattle.script_words.specs.Named.{word_of};
ghost use Rattle.script_words.specs.Kept.{words_in};
ghost use Rattle.script_shape.specs.Roles.{leaves_of};
ghost use Rattle.script_judge.specs.Fault as spec;

use crate::refusal::RefusalKind;
use script_shape::due::Due;
use script_shape::shape::may_follow;
use script_words::class::{Class, Spelled, Symbol};
use script_words::list::WordList;
use script_words::words::Word;
use std::alloc::{AllocError, Global};

/// A refused word: its number, and why.
#[derive(Clone, Copy)]
pub struct Fault {
    pub kind: RefusalKind,
    pub word: usize,
}

/// Whether it is a name or a reserved word.
fn is_spelled(word: Word<'_>) -> bool
    ensures { result ≡ spec.is_spelled (word_of word.entry) }
{
    match word {
        Word::Name(..) | Word::Rounding(..) => true,
        Word::Literal(..) => false,
        Word::Sign(sign) => matches!(
            sign,
            Symbol::In
                | Symbol::Not
                | Symbol::Fixed
                | Symbol::Int
                | Symbol::Fma
                | Symbol::Float
                | Symbol::Sqrt
        ),
    }
}

/// Whether it is an operator that no script has.
fn is_foreign(word: Word<'_>) -> bool
    ensures { result ≡ spec.is_foreign (word_of word.entry) }
{
    matches!(word, Word::Sign(Symbol::Float | Symbol::Sqrt))
}

/// Whether a name that isn't an operator's stands before `(`.
fn is_unknown_call(word: Option<Word<'_>>, next: Option<Word<'_>>) -> bool
    ensures { result ≡ spec.is_unknown_call (option_map word_of word.entry)
        (option_map word_of next.entry) }
{
    matches!(
        (word, next),
        (Some(Word::Name(..)), Some(Word::Sign(Symbol::OpenParen)))
    )
}

fn is_equal(word: Option<Word<'_>>) -> bool
    ensures { result ≡ spec.is_equal (option_map word_of word.entry) }
{
    matches!(word, Some(Word::Sign(Symbol::Equal)))
}

/// Whether a name is given a value by a definition that begins with this word.
fn gives_value(role: Due, word: Word<'_>, name: &[u8]) -> bool
    ensures { result ≡ spec.gives_value name.now role (word_of word.entry) }
{
    match (role, word) {
        (Due::Script, Word::Name(_, found)) => found == name,
        _ => false,
    }
}

/// Whether a definition among these words gives the name a value.
fn has_value(words: WordList<'_, '_>, roles: &[Due], name: &[u8]) -> bool
    ensures { result ≡ spec.has_value name.now (leaves_of roles.now (words_in words.entry)) }
{
    let mut words = words;
    let mut roles = roles;
    while let [role, later_roles @ ..] = roles {
        let Some((word, later_words)) = words.split_first() else {
            return false;
        };
        if gives_value(*role, word, name) {
            return true;
        }
        words = later_words;
        roles = later_roles;
    }
    false
}

/// Whether only the name of a direction may come next.
fn is_direction_due(alloc: Global, before: WordList<'_, '_>) -> Result<bool, AllocError>
    ensures { IfOk result (λ due. due ≡ spec.is_direction_due (words_in before.entry)) }
{
    let direction = may_follow(alloc, before, Class::Name(Spelled::Direction))?;
    let any_name = may_follow(alloc, before, Class::Name(Spelled::Plain))?;
    Ok(direction && !any_name)
}

/// Whether `=` or an operator may come next, as behind the name that a definition begins with.
fn is_definition_due(alloc: Global, before: WordList<'_, '_>) -> Result<bool, AllocError>
    ensures { IfOk result (λ due. due ≡ spec.is_definition_due (words_in before.entry)) }
{
    let equal = may_follow(alloc, before, Class::Sign(Symbol::Equal))?;
    let operator = may_follow(alloc, before, Class::Sign(Symbol::Fixed))?;
    Ok(equal && operator)
}

/// Whether nothing but a written operator may come next, as behind `@ name =`.
fn is_operator_due(alloc: Global, before: WordList<'_, '_>) -> Result<bool, AllocError>
    ensures { IfOk result (λ due. due ≡ spec.is_operator_due (words_in before.entry)) }
{
    let operator = may_follow(alloc, before, Class::Sign(Symbol::Fixed))?;
    let equal = may_follow(alloc, before, Class::Sign(Symbol::Equal))?;
    let any_name = may_follow(alloc, before, Class::Name(Spelled::Plain))?;
    Ok(operator && !equal && !any_name)
}

/// Whether a definition before the one that these words end with gives the name a value.
fn has_earlier_value(words: WordList<'_, '_>, roles: &[Due], name: &[u8]) -> bool
    requires { length roles.now ≤ length (words_in words) }
    ensures { result ≡ spec.has_earlier_value name.now
        (leaves_of roles.now (words_in words.entry)) }
{
    has_value(words, &roles[..roles.len().saturating_sub(1)], name)
}

/// Whether it is a name with no meaning so far, in the place of an operator before `=`.
fn is_unknown_op(
    alloc: Global,
    before: WordList<'_, '_>,
    roles: &[Due],
    word: Word<'_>,
    next: Option<Word<'_>>,
) -> Result<bool, AllocError>
    requires { length roles.now ≤ length (words_in before) }
    ensures { IfOk result (λ unknown. unknown ≡ spec.is_unknown_op (words_in before.entry)
        (leaves_of roles.now (words_in before.entry)) (word_of word.entry)
        (option_map word_of next.entry)) }
{
    let Word::Name(_, name) = word else {
        return Ok(false);
    };
    if !is_equal(next) || has_earlier_value(before, roles, name) {
        return Ok(false);
    }
    is_definition_due(alloc, before)
}

/// Whether a word is in the place of an operator or a direction that it isn't.
fn is_unknown(
    alloc: Global,
    before: WordList<'_, '_>,
    roles: &[Due],
    word: Word<'_>,
    next: Option<Word<'_>>,
) -> Result<bool, AllocError>
    requires { length roles.now ≤ length (words_in before) }
    ensures { IfOk result (λ unknown. unknown ≡ spec.is_unknown (words_in before.entry)
        (leaves_of roles.now (words_in before.entry)) (word_of word.entry)
        (option_map word_of next.entry)) }
{
    if is_foreign(word) || is_unknown_call(Some(word), next) {
        return Ok(true);
    }
    if is_spelled(word) && (is_operator_due(alloc, before)? || is_direction_due(alloc, before)?) {
        return Ok(true);
    }
    is_unknown_op(alloc, before, roles, word, next)
}

/// Why the first word that has no place is refused, and where.
pub fn fault_of(
    alloc: Global,
    before: WordList<'_, '_>,
    roles: &[Due],
    word: Word<'_>,
    next: Option<Word<'_>>,
) -> Result<Fault, AllocError>
    requires { length roles.now ≤ length (words_in before) }
    ensures fault { IfOk result (λ fault. fault ≡ spec.fault_of (words_in before.entry)
        (leaves_of roles.now (words_in before.entry)) (word_of word.entry)
        (option_map word_of next.entry)) }
    ensures within { IfOk result (λ fault. fault.word ≤ length (words_in before.entry)) }
{
    let at = before.len();
    let last = at.saturating_sub(1);
    if !is_foreign(word) && is_unknown_call(before.get(last), Some(word)) {
        return Ok(Fault {
            kind: RefusalKind::UnsupportedOperator,
            word: last,
        });
    }
    let kind = if is_unknown(alloc, before, roles, word, next)? {
        RefusalKind::UnsupportedOperator
    } else {
        RefusalKind::Unexpected
    };
    Ok(Fault { kind, word: at })
}
