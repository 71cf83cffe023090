//! What waits for an operand.

use fx_model::{ExprId, Rounding};

/// What the words so far have left open.
#[derive(Clone, Copy, Debug, PartialEq, Eq)]
pub enum Waits {
    /// A term that its sum may still end with.
    Term(ExprId),
    /// A sum with its left side.
    Sum(ExprId),
    Difference(ExprId),
    Product(ExprId),
    Quotient(ExprId),
    /// A minus before its operand.
    Minus,
    /// An open parenthesis.
    Paren,
    /// An open bar.
    Bar,
    /// An operator's call, with its rounding.
    Call(Rounding),
    /// An `fma` with none of its operands, and then with one and with two.
    Fma,
    FmaWithOne(ExprId),
    FmaWithTwo(ExprId, ExprId),
    /// An operator that is being read.
    Operator(Rounding),
}
