//! How far a hint is read.

ghost use Rattle.std.specs.Prelude.{◌≡◌};
ghost use Rattle.script_hints.specs.Hints as spec;

use fx_model::ExprId;

/// How far the hint is read.
#[derive(Clone, Copy, Debug)]
pub enum Stage {
    /// It begins, or its expressions stand before a `,` or a `$`.
    Front,
    /// The right side of a rewriting of this expression.
    Right(ExprId),
    /// The needs of a rewriting of these sides.
    Sides(ExprId, ExprId),
    /// The right side of a likeness with this expression.
    Alike(ExprId),
    /// The variable of a cut.
    Cuts,
    /// A cut along this variable, into so many pieces.
    Pieces(ExprId, u8),
    /// The points of a cut along this variable.
    Points(ExprId),
    /// The variables that are halved.
    Halves,
}

/// What a bound is written for.
#[derive(Clone, Copy, Debug)]
pub enum Bounded {
    /// A point of a cut.
    Point,
    /// An upper bound of the expression, and whether it is strict.
    Below(ExprId, bool),
    /// A lower bound of the expression, and whether it is strict.
    Above(ExprId, bool),
}

/// The pieces that digits ask for, 64 at most.
pub fn piece_count(number: u16) -> u8
    ensures { result ≡ spec.piece_count number }
{
    if number < 64 { number as u8 } else { 64 }
}
