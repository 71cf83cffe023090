//! A program as it is read, by the texts of its words.

ghost use Rattle.std.specs.Prelude.{◌≡◌, true};
ghost use Rattle.std.specs.List.{list_all};
ghost use Rattle.std.specs.Char.{is_ascii_digit};

use script_words::class::Symbol;

/// An operand, by its text.
#[derive(Clone, Copy)]
pub enum Operand<'a> {
    Named(&'a [u8]),
    Given(&'a [u8]),
}

/// The sign between two operands.
#[derive(Clone, Copy, Debug, PartialEq, Eq)]
pub enum Joint {
    Plus,
    Minus,
    Times,
}

/// `>>` or `<<`.
#[derive(Clone, Copy, Debug, PartialEq, Eq)]
pub enum Shift {
    Right,
    Left,
}

/// Decimal digits alone.
#[derive(Clone, Copy)]
pub struct Digits<'a> {
    pub text: &'a [u8],
    ghost decimal: { list_all is_ascii_digit text.now ≡ true },
}

/// What a step computes before its value is rounded.
#[derive(Clone, Copy)]
pub enum Operation<'a> {
    Copy(Operand<'a>),
    Negation(Operand<'a>),
    Sum(Operand<'a>, Operand<'a>),
    Difference(Operand<'a>, Operand<'a>),
    Product(Operand<'a>, Operand<'a>),
    /// `>>`, with the places.
    Right(Operand<'a>, Digits<'a>),
    /// `<<`, with the places.
    Left(Operand<'a>, Digits<'a>),
}

/// The sign that is written before an end of a range.
#[derive(Clone, Copy, Debug, PartialEq, Eq)]
pub enum Mark {
    Unmarked,
    Plus,
    Minus,
}

/// An end of an input's range: the sign before it, and the text of its literal.
#[derive(Clone, Copy)]
pub struct Bound<'a> {
    pub mark: Mark,
    pub text: &'a [u8],
}

/// An input: its name, the text of its format, and the two ends of its range.
#[derive(Clone, Copy)]
pub struct Input<'a> {
    pub name: &'a [u8],
    pub format: &'a [u8],
    pub lower: Bound<'a>,
    pub upper: Bound<'a>,
}

/// What stands for a direction.
#[derive(Clone, Copy)]
pub enum Way<'a> {
    Called(&'a [u8]),
    Reserved(Symbol),
    Out,
}

/// A step: its name, the text of its format, its direction, and what it computes.
#[derive(Clone, Copy)]
pub struct Step<'a> {
    pub name: &'a [u8],
    pub format: &'a [u8],
    pub way: Way<'a>,
    pub operation: Operation<'a>,
}

/// What ends with a semicolon in a program; an output is given by its name.
#[derive(Clone, Copy)]
pub enum Statement<'a> {
    Input(Input<'a>),
    Step(Step<'a>),
    Output(&'a [u8]),
}

/// Inputs, steps and outputs, each in the order of writing.
#[derive(Drop)]
pub struct Program<'a> {
    pub inputs: Vec<Input<'a>>,
    pub steps: Vec<Step<'a>>,
    pub outputs: Vec<&'a [u8]>,
}
