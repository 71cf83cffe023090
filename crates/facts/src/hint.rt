use dyadic::End;
use fx_edge::Items;
use fx_model::ExprId;

/// A constraint of a hint on an expression. A bound is a number rounded so that what meets it meets
/// the written one.
#[derive(Clone, Copy, PartialEq, Eq, Debug)]
pub enum Need {
    /// The value isn't 0.
    NotZero(ExprId),
    /// The value is below the bound; where the flag is false, it may be the bound.
    Below(ExprId, End, bool),
    /// The value is above the bound; where the flag is false, it may be the bound.
    Above(ExprId, End, bool),
}

/// A rewriting hint: where the divisors aren't 0 and the needs hold, left is right.
#[derive(Debug, Drop)]
pub struct HintRow {
    /// The expression that is rewritten.
    pub left: ExprId,
    /// What it is rewritten to.
    pub right: ExprId,
    /// The divisors that occur in the left side, by rising number.
    pub divisors: Items<ExprId>,
    /// The constraints, as they are written.
    pub needs: Items<Need>,
}

/// How far a hint is trusted.
#[derive(Clone, Copy, PartialEq, Eq, Debug)]
pub enum HintMark {
    /// Both sides have equal normal forms.
    Checked,
    /// The hint is taken as a hypothesis.
    Assumed,
}
