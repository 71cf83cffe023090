//! Refusals of a text.

/// What there may be too much of in a script.
#[derive(Clone, Copy, Debug, PartialEq, Eq)]
pub enum LimitKind {
    /// More than 2^20 bytes.
    Bytes,
    /// More than 64 open parentheses, bars and unary minus signs.
    Nesting,
    /// More than 256 definitions, those of operators included.
    Definitions,
    /// More than 128 propositions.
    Propositions,
    /// More than 64 hints.
    Hints,
    /// More than 512 nodes of expressions, as they are written.
    Nodes,
    /// The least significant bit of an operator or of `@FIX` isn't from -512 to 512.
    Lsb,
    /// More than four splits that stand alone, or than four variables that are halved for goals.
    Splits,
    /// More than 64 pieces of a cut.
    Pieces,
    /// More than 64 cases of the hypotheses.
    Cases,
}

/// Why a text is refused. Of two at one byte the one that stands first here is answered.
#[derive(Clone, Copy, Debug, PartialEq, Eq)]
pub enum RefusalKind {
    /// The bytes aren't UTF-8.
    NotText,
    /// A byte begins no token.
    BadToken,
    /// A token that no script has at its place, or an end before the script's.
    Unexpected,
    /// A form of the formula on its wrong side: `?` in a hypothesis; `@FIX`, `\/` and `not` in a
    /// goal; `not` before another proposition than `e <= n` and `e >= n`.
    FormulaForm,
    /// A word in the place of an operator or a direction that there isn't.
    UnsupportedOperator,
    /// A definition's name that is defined or was used.
    NameUsed,
    /// Bounds out of order, or a relative bound that isn't above -1.
    BadBound,
    /// A split variable without a range.
    SplitRange,
    /// A defined name as split variable, no pieces, or a point that doesn't split.
    BadSplit,
    /// A literal past its limits.
    LiteralLimit,
    /// The token passes a limit.
    Limit(LimitKind),
}

/// Why a text is refused, and the byte at which it is.
#[derive(Clone, Copy, Debug, PartialEq, Eq)]
pub struct Refusal {
    pub kind: RefusalKind,
    /// The byte, counted from 0; the text's length at its end.
    pub at: u32,
}
