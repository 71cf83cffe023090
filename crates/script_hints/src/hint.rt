//! Hints as the prover takes them.

ghost use Rattle.std.specs.Prelude.{◌≡◌};
ghost use Rattle.script_hints.specs.Needs.{HasNormalBound, need_of};

use dyadic::Dyadic;
use facts::Need;
use fx_edge::Items;
use fx_model::ExprId;
use literal_order::Written;
use script_bounds::{above, below};

/// A constraint of a rewriting, with its bound as it is written.
#[derive(Clone, Copy, PartialEq, Eq, Debug)]
pub enum Constraint {
    /// The value isn't 0.
    NotZero(ExprId),
    /// The value is below the bound; where the flag is false, it may be the bound.
    Below(ExprId, Written, bool),
    /// The value is above the bound; where the flag is false, it may be the bound.
    Above(ExprId, Written, bool),
}

impl Constraint {
    /// The constraint with its bound rounded to the grid, so that what meets it meets the written
    /// one.
    pub fn need(self) -> Need
        requires { HasNormalBound self }
        ensures { result ≡ need_of self }
    {
        match self {
            Constraint::NotZero(x) => Need::NotZero(x),
            Constraint::Below(x, bound, strict) => {
                let (end, apart) = below(bound, strict);
                Need::Below(x, end, apart)
            }
            Constraint::Above(x, bound, strict) => {
                let (end, apart) = above(bound, strict);
                Need::Above(x, end, apart)
            }
        }
    }
}

/// A rewriting: where the constraints hold, left is right.
#[derive(Debug, Drop)]
pub struct Hint {
    /// The expression that is rewritten.
    pub left: ExprId,
    /// What it is rewritten to.
    pub right: ExprId,
    /// The constraints, in the order of writing.
    pub constraints: Items<Constraint>,
}

/// How each box is cut along a variable.
#[derive(Debug, Drop)]
pub enum Cutting {
    /// Into so many pieces of one width, 64 at most.
    Pieces(u8),
    /// At these points, as they are written, each rounded down to the grid.
    Points(Items<Dyadic>),
}

/// A cut of each box.
#[derive(Debug, Drop)]
pub struct Split {
    /// The variable along which it cuts.
    pub var: ExprId,
    pub cut: Cutting,
}

/// What hints say, each kind in the order of writing.
#[derive(Debug, Drop)]
pub struct HintList {
    pub rewrites: Items<Hint>,
    /// Expressions that are near each other.
    pub likes: Items<(ExprId, ExprId)>,
    pub cuts: Items<Split>,
    /// The variables that are halved, each once, at its first place.
    pub halves: Items<ExprId>,
    /// The variables of all splits, each once, in the order in which hints first name them.
    pub order: Items<ExprId>,
}
