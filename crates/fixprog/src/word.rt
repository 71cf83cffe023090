//! The words of a program, with what each can be.

ghost use Rattle.std.specs.Prelude.{◌≡◌};
ghost use Rattle.fixprog.specs.Lex as spec;
ghost use Rattle.fixprog.specs.Lex.{IsWithin};
ghost use Rattle.fixprog.specs.Words as words;
ghost use Rattle.fixprog.specs.Views as views;

use crate::token::{Kind, ProgramToken};
use script_words::class::Symbol;

/// A token without its place.
#[derive(Clone, Copy)]
pub enum Word<'a> {
    Name(&'a [u8]),
    Literal(&'a [u8]),
    Format(&'a [u8]),
    Sign(Symbol),
    Colon,
    Right,
    Left,
    Out,
}

fn kind_word<'a>(kind: Kind, text: &'a [u8]) -> Word<'a>
    ensures { views.word_of result ≡ words.kind_word kind text.now }
{
    match kind {
        Kind::Name => Word::Name(text),
        Kind::Literal => Word::Literal(text),
        Kind::Format => Word::Format(text),
        Kind::Sign(sign) => Word::Sign(sign),
        Kind::Colon => Word::Colon,
        Kind::Right => Word::Right,
        Kind::Left => Word::Left,
        Kind::Out => Word::Out,
    }
}

/// The word of a token.
pub fn token_word<'a>(text: &'a [u8], token: ProgramToken) -> Word<'a>
    requires { IsWithin text.now token }
    ensures { views.word_of result ≡ spec.token_word text.now token }
{
    kind_word(token.kind, &text[token.start as usize..token.end as usize])
}
