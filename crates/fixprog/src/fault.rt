//! Why a text is no program.

/// Why a program is refused. Of two at one byte the one that stands first here is answered.
#[derive(Clone, Copy, Debug, PartialEq, Eq)]
pub enum ProgKind {
    /// The bytes aren't UTF-8.
    NotText,
    /// A byte begins no token.
    BadToken,
    /// A token that no program has at its place, or an end before the program's.
    Unexpected,
    /// A format whose width isn't from 1 to 60, or whose places are more than 60.
    BadFormat,
    /// An operand or output that is no input and no earlier step.
    Undefined,
    /// An input's or step's name that is one already.
    NameUsed,
    /// An end of an input's range that lies outside its format, or an upper end below the lower.
    BadRange,
    /// A literal past its limits.
    LiteralLimit,
    /// Another word in the place of a direction.
    BadDirection,
    /// More than 2^16 bytes, 32 bytes of a name, a shift by 63 places, or 128 of twice the
    /// inputs, the steps and the outputs.
    Limit,
}

/// Why a text is no program, and the byte at which it isn't.
#[derive(Clone, Copy, Debug, PartialEq, Eq)]
pub struct ProgFault {
    pub kind: ProgKind,
    /// The byte, counted from 0; the text's length at its end.
    pub at: u32,
}

/// Why a program isn't turned.
#[derive(Clone, Copy, Debug, PartialEq, Eq)]
pub enum ProgStop {
    /// The text is no program.
    Fault(ProgFault),
    /// There is no memory for it.
    OutOfMemory,
}
