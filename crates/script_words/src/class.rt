//! What the grammar sees of a token.

/// A sign or a reserved word.
#[derive(Clone, Copy, Debug, PartialEq, Eq)]
pub enum Symbol {
    OpenBrace,
    CloseBrace,
    OpenParen,
    CloseParen,
    OpenBracket,
    CloseBracket,
    Comma,
    Semicolon,
    Equal,
    Plus,
    Minus,
    Star,
    Slash,
    Bar,
    Less,
    Greater,
    Ask,
    Dollar,
    Tilde,
    At,
    LessEqual,
    GreaterEqual,
    Unequal,
    Arrow,
    Against,
    And,
    Or,
    In,
    Not,
    Fixed,
    Int,
    Fma,
    Float,
    Sqrt,
}

/// A name that has a meaning of its own in some places.
#[derive(Clone, Copy, Debug, PartialEq, Eq)]
pub enum Spelled {
    Fix,
    Direction,
    Plain,
}

/// How a literal is spelled.
#[derive(Clone, Copy, Debug, PartialEq, Eq)]
pub enum Number {
    /// The digit 0 alone.
    Zero,
    /// Other decimal digits alone.
    Digits,
    Other,
}

/// A token without its text.
#[derive(Clone, Copy, Debug, PartialEq, Eq)]
pub enum Class {
    Name(Spelled),
    /// The name of a rounding operator that was defined before.
    Rounding(Spelled),
    Literal(Number),
    Sign(Symbol),
}
