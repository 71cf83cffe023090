//! Names that were defined, used and split on.

ghost use Rattle.std.specs.Prelude.{◌≡◌, length, OnOk};
ghost use Rattle.std.specs.Option.{option_copied};
ghost use Rattle.script_words.specs.Named.{word_of};
ghost use Rattle.script_words.specs.Kept.{words_in};
ghost use Rattle.script_shape.specs.Roles.{leaves_of};
ghost use Rattle.script_judge.specs.Names as spec;
ghost use Rattle.script_judge.specs.Names.{NamesSeen};
ghost use Rattle.script_judge.specs.Views.{AreNames};

use crate::sets::{add_some, halve, has, has_some, lacks_some};
use script_shape::due::Due;
use script_words::list::WordList;
use script_words::words::Word;
use std::alloc::{AllocError, Global};
use std::collections::BTreeSet;

/// The names of what was read.
#[derive(Drop)]
pub struct Names<'a> {
    /// Names that are defined or were operands.
    known: BTreeSet<&'a [u8]>,
    defined: BTreeSet<&'a [u8]>,
    /// The name whose definition is being read.
    pending: Option<&'a [u8]>,
    /// Variables that hints halve for goals.
    halved: Vec<&'a [u8]>,
}

fn text_of<'a>(word: Word<'a>) -> Option<&'a [u8]>
    ensures { option_copied result ≡ spec.text_of (word_of word.entry) }
{
    match word {
        Word::Name(_, text) | Word::Rounding(_, text) => Some(text),
        _ => None,
    }
}

fn plain_text<'a>(word: Word<'a>) -> Option<&'a [u8]>
    ensures { option_copied result ≡ spec.plain_text (word_of word.entry) }
{
    match word {
        Word::Name(_, text) => Some(text),
        _ => None,
    }
}

/// The name that a definition is for.
pub fn defines<'a>(role: Due, word: Word<'a>) -> Option<&'a [u8]>
    ensures { option_copied result ≡ spec.defines role (word_of word.entry) }
{
    match role {
        Due::NewName | Due::Script => text_of(word),
        _ => None,
    }
}

fn operand_name<'a>(role: Due, word: Word<'a>) -> Option<&'a [u8]>
    ensures { option_copied result ≡ spec.operand_name role (word_of word.entry) }
{
    match role {
        Due::Operand => plain_text(word),
        _ => None,
    }
}

/// The name of a split variable.
pub fn split_name<'a>(role: Due, word: Word<'a>) -> Option<&'a [u8]>
    ensures { option_copied result ≡ spec.split_name role (word_of word.entry) }
{
    match role {
        Due::SplitName => text_of(word),
        _ => None,
    }
}

fn is_end(role: Due) -> bool
    ensures { result ≡ spec.is_end role }
{
    matches!(role, Due::Semicolon)
}

fn is_text(name: &[u8], found: Option<&[u8]>) -> bool
    ensures { result ≡ spec.is_text name.now (option_copied found.entry) }
{
    match found {
        Some(found) => found == name,
        None => false,
    }
}

/// Whether the name is an operand before the next `;`.
fn is_used_before_end(name: &[u8], words: WordList<'_, '_>, roles: &[Due]) -> bool
    ensures { result ≡ spec.is_used_before_end name.now
        (leaves_of roles.now (words_in words.entry)) }
{
    let mut words = words;
    let mut roles = roles;
    while let [role, later_roles @ ..] = roles {
        let Some((word, later_words)) = words.split_first() else {
            return false;
        };
        if is_end(*role) {
            return false;
        }
        if is_text(name, operand_name(*role, word)) {
            return true;
        }
        words = later_words;
        roles = later_roles;
    }
    false
}

/// The name whose definition is being read behind a token.
fn pending_after<'a>(
    pending: Option<&'a [u8]>,
    role: Due,
    defined: Option<&'a [u8]>,
) -> Option<&'a [u8]>
    ensures { option_copied result
        ≡ spec.pending_after (option_copied pending.entry) role (option_copied defined.entry) }
{
    match role {
        Due::Semicolon => None,
        _ => match defined {
            Some(name) => Some(name),
            None => pending,
        },
    }
}

impl<'a> Names<'a> {
    /// No names.
    pub fn new(alloc: Global) -> Names<'a>
        ensures { AreNames result spec.no_names }
    {
        Names {
            known: BTreeSet::new(alloc),
            defined: BTreeSet::new(alloc),
            pending: None,
            halved: Vec::new(alloc),
        }
    }

    /// How many variables are halved.
    pub fn halved(&self) -> usize
        ensures { (names : NamesSeen) → AreNames self.now names → result ≡ length names.halved }
    {
        self.halved.len()
    }

    /// Whether the token is the first operand of its name.
    pub fn is_new(&self, role: Due, word: Word<'a>) -> bool
        ensures { (names : NamesSeen) → AreNames self.now names
            → result ≡ spec.is_new names role (word_of word.entry) }
    {
        lacks_some(&self.known, operand_name(role, word))
    }

    /// Whether the token is a definition's name that was used before, or is used in its own
    /// definition.
    pub fn is_used(&self, role: Due, word: Word<'a>, words: WordList<'_, 'a>, roles: &[Due]) -> bool
        ensures { (names : NamesSeen) → AreNames self.now names
            → result ≡ spec.is_used names (spec.defines role (word_of word.entry))
            (leaves_of roles.now (words_in words.entry)) }
    {
        match defines(role, word) {
            Some(name) => has(&self.known, name) || is_used_before_end(name, words, roles),
            None => false,
        }
    }

    /// Whether the token is a split variable that has a definition.
    pub fn splits_defined(&self, role: Due, word: Word<'a>) -> bool
        ensures { (names : NamesSeen) → AreNames self.now names
            → result ≡ spec.is_some_among names.defined
            (spec.split_name role (word_of word.entry)) }
    {
        has_some(&self.defined, split_name(role, word))
    }

    /// Takes a token. After an `Err` it is not to be used on.
    pub fn take(&mut self, halves: bool, role: Due, word: Word<'a>) -> Result<(), AllocError>
        ensures { OnOk result ((names : NamesSeen) → AreNames self.old names
            → AreNames self.new (spec.names_after names halves role (word_of word.entry))) }
    {
        match role {
            Due::Semicolon => {
                add_some(&mut self.known, self.pending)?;
                add_some(&mut self.defined, self.pending)?;
                self.pending = None;
                Ok(())
            }
            Due::Operand => add_some(&mut self.known, plain_text(word)),
            Due::NewName | Due::Script => {
                self.pending = pending_after(self.pending, role, text_of(word));
                Ok(())
            }
            Due::SplitName => halve(&mut self.halved, halves, text_of(word)),
            _ => Ok(()),
        }
    }
}
