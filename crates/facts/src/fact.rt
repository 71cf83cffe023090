use crate::place::FixPlace;
use crate::relative::RelativeError;
use crate::size::Size;
use fx_model::ExprId;
use interval::Interval;

/// What is known of one expression, or of two.
#[derive(Clone, Copy, PartialEq, Eq, Debug)]
pub enum Fact {
    /// The expression has a value, which lies in the interval.
    Bnd(ExprId, Interval),
    /// The expression has a value, whose absolute value lies in the interval.
    Abs(ExprId, Size),
    /// Both have values, and the first is the second times 1 + t for a t in the interval; without
    /// an interval both are 0.
    Rel(ExprId, ExprId, Option<RelativeError>),
    /// The expression has a value, a whole multiple of 2^k.
    Fix(ExprId, FixPlace),
    /// The expression has a value other than 0.
    Nzr(ExprId),
    /// No assignment is left.
    Void,
}

/// A kind of fact with its expressions.
#[derive(Clone, Copy, PartialEq, Eq, Debug)]
pub enum Slot {
    /// The value's interval.
    Bnd(ExprId),
    /// The absolute value's interval.
    Abs(ExprId),
    /// The first's relative error over the second.
    Rel(ExprId, ExprId),
    /// The power of two that divides the value.
    Fix(ExprId),
    /// The value isn't 0.
    Nzr(ExprId),
    /// No assignment is left.
    Void,
}
