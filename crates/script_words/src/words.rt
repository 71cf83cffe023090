//! The words of a text: its tokens by class, with the names of rounding operators marked.

ghost use Rattle.std.specs.Prelude.{◌≡◌, ℕ, ◌<◌, ◌^◌, List, All, length, ◌++◌, IfOk, OnOk};
ghost use Rattle.std.specs.Prelude.{option_to_list};
ghost use Rattle.std.specs.List.{list_all, list_any};
ghost use Rattle.std.specs.Option.{option_copied};
ghost use Rattle.std.specs.Str.{bytes_eq};
ghost use Rattle.std.specs.Char.{is_ascii_digit};
ghost use Rattle.script_words.specs.Named as spec;
ghost use Rattle.script_words.specs.Named.{HasNames, IsOneList};
ghost use Rattle.script_words.specs.Words.{class_of};
ghost use Rattle.script_words.specs.Lex.{IsWithin, Lexes};
ghost use Rattle.script_words.specs.Kept.{all_words, all_tokens};

use crate::class::{Class, Number, Spelled, Symbol};
use crate::lex::{TokenKind, blank_len, front, rest_at};
use crate::list::{PlacedWord, Words};
use std::alloc::{AllocError, Global};
use std::collections::BTreeSet;

/// What a token is to the grammar, with its text.
#[derive(Clone, Copy, Debug, PartialEq, Eq)]
pub enum Word<'a> {
    Name(Spelled, &'a [u8]),
    /// The name of a rounding operator that was defined before.
    Rounding(Spelled, &'a [u8]),
    Literal(Number, &'a [u8]),
    Sign(Symbol),
}

impl Word<'_> {
    /// The word without its text.
    pub fn class(self) -> Class
        ensures { result ≡ class_of (spec.word_of self.entry) }
    {
        match self {
            Word::Name(spelled, _) => Class::Name(spelled),
            Word::Rounding(spelled, _) => Class::Rounding(spelled),
            Word::Literal(number, _) => Class::Literal(number),
            Word::Sign(sign) => Class::Sign(sign),
        }
    }
}

fn is_direction(word: &[u8]) -> bool
    ensures { result ≡ spec.is_direction word.now }
{
    matches!(
        word,
        [b'z', b'r']
            | [b'a', b'w']
            | [b'd', b'n']
            | [b'u', b'p']
            | [b'o', b'd']
            | [b'n', b'e']
            | [b'n', b'o']
            | [b'n', b'z']
            | [b'n', b'a']
            | [b'n', b'd']
            | [b'n', b'u']
    )
}

fn spelled_of(word: &[u8]) -> Spelled
    ensures { result ≡ spec.spelled_of word.now }
{
    if matches!(word, [b'F', b'I', b'X']) {
        Spelled::Fix
    } else if is_direction(word) {
        Spelled::Direction
    } else {
        Spelled::Plain
    }
}

fn is_digits(text: &[u8]) -> bool
    ensures { result ≡ list_all is_ascii_digit text.now }
{
    text.iter().all(|b| b.is_ascii_digit())
}

fn number_of(text: &[u8]) -> Number
    ensures { result ≡ spec.number_of text.now }
{
    if text == b"0".as_slice() {
        Number::Zero
    } else if is_digits(text) {
        Number::Digits
    } else {
        Number::Other
    }
}

/// The names of operators, to find a name among many.
type Operators<'a> = BTreeSet<&'a [u8]>;

fn is_operator<'a>(operators: &Operators<'a>, name: &'a [u8]) -> bool
    ensures { (names : List (List ℕ)) → HasNames operators.now names
        → result ≡ list_any (λ n. bytes_eq n name.now) names }
{
    operators.contains(&name)
}

/// Adds the name of an operator that has been defined.
fn add_operator<'a>(operators: &mut Operators<'a>, name: Option<&'a [u8]>) -> Result<(), AllocError>
    ensures { OnOk result ((names : List (List ℕ)) → HasNames operators.old names
        → HasNames operators.new (option_to_list (option_copied name.entry) ++ names)) }
{
    if let Some(name) = name {
        operators.insert(name)?;
    }
    Ok(())
}

/// The word of a token with this text.
fn kind_word<'a>(operators: &Operators<'a>, kind: TokenKind, spelled: &'a [u8]) -> Word<'a>
    ensures { (names : List (List ℕ)) → HasNames operators.now names
        → spec.word_of result ≡ spec.kind_word names kind spelled.now }
{
    match kind {
        TokenKind::Name => {
            if is_operator(operators, spelled) {
                Word::Rounding(spelled_of(spelled), spelled)
            } else {
                Word::Name(spelled_of(spelled), spelled)
            }
        }
        TokenKind::Literal => Word::Literal(number_of(spelled), spelled),
        TokenKind::Sign(sign) => Word::Sign(sign),
    }
}

/// How far the words so far have come with the definition of an operator, `@ name = .. ;`.
#[derive(Clone, Copy)]
enum Naming<'a> {
    Nothing,
    AfterAt,
    AfterName(&'a [u8]),
    Pending(&'a [u8]),
}

fn naming_after<'a>(naming: Naming<'a>, word: Word<'a>) -> Naming<'a>
    ensures { spec.naming_of result
        ≡ spec.naming_after (spec.naming_of naming.entry) (spec.word_of word.entry) }
{
    match (naming, word) {
        (Naming::Pending(_), Word::Sign(Symbol::Semicolon)) => Naming::Nothing,
        (Naming::Pending(name), _) => Naming::Pending(name),
        (_, Word::Sign(Symbol::At)) => Naming::AfterAt,
        (Naming::AfterAt, Word::Name(_, name) | Word::Rounding(_, name)) => Naming::AfterName(name),
        (Naming::AfterName(name), Word::Sign(Symbol::Equal)) => Naming::Pending(name),
        _ => Naming::Nothing,
    }
}

/// The operator whose definition ends with the word.
fn defined_by<'a>(naming: Naming<'a>, word: Word<'a>) -> Option<&'a [u8]>
    ensures { option_copied result
        ≡ spec.defined_by (spec.naming_of naming.entry) (spec.word_of word.entry) }
{
    match (naming, word) {
        (Naming::Pending(name), Word::Sign(Symbol::Semicolon)) => Some(name),
        _ => None,
    }
}

/// The words of a text. `Err` only where memory runs out.
pub fn read_words<'a>(alloc: Global, text: &'a [u8]) -> Result<Words<'a>, AllocError>
    requires { length text.now < 2 ^ 32 }
    ensures tokens { IfOk result (λ read. Lexes 0 text.now (all_tokens read) read.bad) }
    ensures words { IfOk result
        (λ read. all_words read ≡ spec.words_of text.now (all_tokens read)) }
    ensures within { IfOk result (λ read. All (IsWithin text.now) (all_tokens read)) }
{
    // A word has a byte or more, so none is moved for want of room.
    let mut placed = Vec::with_capacity(alloc, text.len())?;
    let mut operators = BTreeSet::new(alloc);
    let mut naming = Naming::Nothing;
    let mut at = 0;
    while at < text.len() {
        let start = at + blank_len(rest_at(text, at));
        if start == text.len() {
            return Ok(Words {
                text,
                placed,
                bad: None,
            });
        }
        let Some((kind, len)) = front(rest_at(text, start)) else {
            return Ok(Words {
                text,
                placed,
                bad: Some(start as u32),
            });
        };
        let end = start + len;
        let word = kind_word(&operators, kind, &text[start..end]);
        add_operator(&mut operators, defined_by(naming, word))?;
        naming = naming_after(naming, word);
        placed.push(PlacedWord {
            class: word.class(),
            start: start as u32,
            end: end as u32,
        })?;
        at = end;
    }
    Ok(Words {
        text,
        placed,
        bad: None,
    })
}

/// For readers alone: a text is one list of words at most.
pub fn words_once()
    ensures { IsOneList }
{}
