//! Reads a text as far as the grammar goes.

ghost use Rattle.std.specs.Prelude.{◌≡◌, ◌≤◌, ◌<◌, ◌^◌, length, IfOk};
ghost use Rattle.script_words.specs.Kept.{words_in, tokens_in, all_words};
ghost use Rattle.script_judge.specs.Reading as spec;
ghost use Rattle.script_judge.specs.Reading.{IsReadingOf, IsFaultOf, ReadsScripts};
ghost use Rattle.script_judge.specs.Views.{reading_of};

use crate::fault::{Fault, fault_of};
use crate::refusal::{LimitKind, Refusal, RefusalKind};
use script_shape::shape::{Shape, roles_are_unique, shape_of};
use script_words::list::{WordList, Words};
use script_words::words::read_words;
use std::alloc::{AllocError, Global};

/// The greatest number of bytes of a text.
pub const MOST_BYTES: usize = 1 << 20;

/// The words of a text, and how far they go with the grammar.
#[derive(Drop)]
pub struct ReadText<'a> {
    pub words: Words<'a>,
    pub shape: Shape,
}

/// A text that is too long, or no text.
pub fn text_refusal(text: &[u8]) -> Option<Refusal>
    ensures { spec.IsTextRefusal text.now result }
{
    if text.len() > MOST_BYTES {
        return Some(Refusal {
            kind: RefusalKind::Limit(LimitKind::Bytes),
            at: MOST_BYTES as u32,
        });
    }
    match std::str::from_utf8(text) {
        Ok(_) => None,
        Err(error) => Some(Refusal {
            kind: RefusalKind::NotText,
            at: error.valid_up_to() as u32,
        }),
    }
}

/// Reads a text as far as the grammar goes.
pub fn read_as_script<'a>(alloc: Global, text: &'a [u8]) -> Result<ReadText<'a>, AllocError>
    requires { length text.now ≤ 2 ^ 20 }
    ensures reading { IfOk result (λ read. IsReadingOf text.now (reading_of read)) }
    ensures taken { IfOk result
        (λ read. length read.shape.roles.items ≤ length (all_words read.words)) }
{
    // Words have one list of roles.
    roles_are_unique();
    let words = read_words(alloc, text)?;
    let shape = shape_of(alloc, words.list())?;
    Ok(ReadText { words, shape })
}

/// The refusal of a word.
pub fn at_word(words: WordList<'_, '_>, fault: Fault) -> Refusal
    requires { fault.word < length (words_in words) }
    ensures { result ≡ spec.at_word (tokens_in words.entry) fault }
{
    match words.token(fault.word) {
        Some(token) => Refusal {
            kind: fault.kind,
            at: token.start,
        },
        None => unreachable!(),
    }
}

/// What the reading ends with where every word has its place.
fn end_fault(len: u32, bad: Option<u32>, whole: bool) -> Option<Refusal>
    ensures { result ≡ spec.fault_at_end len bad whole }
{
    if let Some(at) = bad {
        return Some(Refusal {
            kind: RefusalKind::BadToken,
            at,
        });
    }
    if whole {
        return None;
    }
    Some(Refusal {
        kind: RefusalKind::Unexpected,
        at: len,
    })
}

/// The refusal at which the reading of a text ends, or none where all of it is a script.
pub fn fault(alloc: Global, len: u32, read: &ReadText<'_>) -> Result<Option<Refusal>, AllocError>
    requires { length read.now.shape.roles.items ≤ length (all_words read.now.words) }
    ensures { IfOk result (λ fault. fault ≡ spec.fault len (reading_of read.now)) }
{
    let words = read.words.list();
    let roles = read.shape.roles.as_slice();
    let taken = roles.len();
    let Some(word) = words.get(taken) else {
        return Ok(end_fault(len, read.words.bad, read.shape.whole));
    };
    let next = words.get(taken + 1);
    let fault = fault_of(alloc, words.front(taken), roles, word, next)?;
    Ok(Some(at_word(words, fault)))
}

/// The first place at which the reading of a text ends before its script does, the text's own
/// faults before it. None where the text's words are a script. `Err` only where memory runs out.
pub fn reading_fault(alloc: Global, text: &[u8]) -> Result<Option<Refusal>, AllocError>
    ensures { IfOk result (IsFaultOf text.now) }
{
    if let Some(refusal) = text_refusal(text) {
        return Ok(Some(refusal));
    }
    let read = read_as_script(alloc, text)?;
    fault(alloc, text.len() as u32, &read)
}

/// A text's reading ends at nothing exactly where it is the words of a whole script.
pub fn reads_scripts()
    ensures { ReadsScripts }
{}
