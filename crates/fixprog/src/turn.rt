//! Programs to scripts.

ghost use Rattle.std.specs.Prelude.{◌≡◌, Some, None, Err, IfOk, IfSome, Ok};
ghost use Rattle.fixprog.specs.Grammar as grammar;
ghost use Rattle.fixprog.specs.First.{IsFirstFault, IsReadable, Spells, FirstsAreUnique};
ghost use Rattle.fixprog.specs.First.{SpellsOnce, SpellsAll, SpelledAreFaultless, WordsAreAlone};
ghost use Rattle.fixprog.specs.Answer.{Turns, ScriptsAreText, ScriptsAreShort};
ghost use Rattle.fixprog.specs.Read.{IsRead};

use crate::fault::{ProgFault, ProgKind, ProgStop};
use crate::lex::lex;
use crate::print::script_of;
use crate::program::Program;
use crate::reader::read;
use std::alloc::Global;

/// The greatest number of bytes of a program.
pub const MOST_BYTES: usize = 1 << 16;

/// A program's script.
#[derive(Drop)]
pub struct Turned {
    /// The script's text: a definition for each step, and the formula.
    pub text: String,
    /// How many steps the program has.
    pub steps: u16,
    /// How many outputs it has.
    pub outs: u16,
}

/// The script of the program that a text spells, or the text's first fault.
pub fn turn(alloc: Global, text: &[u8]) -> Result<Turned, ProgStop>
    // What is answered is the script of the program that the text spells.
    ensures turned { IfOk result (Turns text.now) }
    ensures refused { (f : ProgFault) → result ≡ Err (ProgStop.Fault f)
        → IsFirstFault text.now (Some f) }
    // A text that spells a program is turned, lack of memory aside.
    ensures answered { (p : grammar.Program) → Spells text.now p → (f : ProgFault)
        → ¬ (result ≡ Err (ProgStop.Fault f)) }
{
    if let Some(fault) = text_fault(text) {
        return Err(ProgStop::Fault(fault));
    }
    let Ok(lexed) = lex(alloc, text) else {
        return Err(ProgStop::OutOfMemory);
    };
    match read(alloc, text, &lexed) {
        Ok(Ok(program)) => printed(alloc, text, &program),
        Ok(Err(fault)) => Err(ProgStop::Fault(fault)),
        Err(_) => Err(ProgStop::OutOfMemory),
    }
}

// The script of the program that the text spells.
fn printed(alloc: Global, text: &[u8], program: &Program<'_>) -> Result<Turned, ProgStop>
    requires { IsRead text.now (Ok program.now) }
    ensures turned { IfOk result (Turns text.now) }
    ensures memory { (f : ProgFault) → ¬ (result ≡ Err (ProgStop.Fault f)) }
{
    let Ok(bytes) = script_of(alloc, program) else {
        return Err(ProgStop::OutOfMemory);
    };
    // All of it is ASCII.
    let Ok(script) = String::from_utf8(bytes) else {
        unreachable!()
    };
    Ok(Turned {
        text: script,
        steps: program.steps.len() as u16,
        outs: program.outputs.len() as u16,
    })
}

// Too many bytes, or no text.
fn text_fault(text: &[u8]) -> Option<ProgFault>
    ensures fault { IfSome result (λ f. IsFirstFault text.now (Some f)) }
    ensures readable { result ≡ None → IsReadable text.now }
{
    if text.len() > MOST_BYTES {
        return Some(ProgFault {
            kind: ProgKind::Limit,
            at: MOST_BYTES as u32,
        });
    }
    match std::str::from_utf8(text) {
        Ok(_) => None,
        Err(error) => Some(ProgFault {
            kind: ProgKind::NotText,
            at: error.valid_up_to() as u32,
        }),
    }
}

/// Nothing is done. The clauses tell a caller that a text has one first fault, or none, and that
/// it spells one program at most.
pub fn texts_are_one()
    ensures firsts { FirstsAreUnique }
    ensures programs { SpellsOnce }
{}

/// Nothing is done. The clauses tell a caller that a text without a fault spells a program, that
/// nothing is wrong in it, and that its script is text and no longer than a script may be.
pub fn spelled_are_sound()
    ensures all { SpellsAll }
    ensures faultless { SpelledAreFaultless }
    ensures text { ScriptsAreText }
    ensures short { ScriptsAreShort }
{}

/// Nothing is done. The clause tells a caller that the names and literals of a program are tokens
/// of scripts by themselves.
pub fn words_are_alone()
    ensures { WordsAreAlone }
{}
