//! The tokens of a program.

use script_words::class::Symbol;

/// What a token is, to the reader of a program.
#[derive(Clone, Copy, Debug, PartialEq, Eq)]
pub enum Kind {
    Name,
    Literal,
    Format,
    /// A sign or a reserved word of scripts.
    Sign(Symbol),
    /// `:`
    Colon,
    /// `>>`
    Right,
    /// `<<`
    Left,
    /// The reserved word `out`.
    Out,
}

/// A token. Its text is that part of the source.
#[derive(Clone, Copy, Debug, PartialEq, Eq)]
pub struct ProgramToken {
    pub kind: Kind,
    pub start: u32,
    pub end: u32,
}
