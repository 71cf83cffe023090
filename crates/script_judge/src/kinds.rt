//! The kinds of refusals of one token, in their order.

ghost use Rattle.std.specs.Prelude.{◌≡◌, ◌≤◌, ◌*◌};
ghost use Rattle.script_judge.specs.Judge as spec;

use crate::counts::Counts;
use crate::refusal::{LimitKind, RefusalKind};

/// What the tests of a token's form say, whatever is counted.
#[derive(Clone, Copy)]
pub struct FormTests {
    /// It is a form of the formula on its wrong side.
    pub wrong_side: bool,
    /// It is a definition's name that is defined or was used.
    pub used: bool,
    /// It ends bounds out of order, or begins a relative bound that is too low.
    pub bad_bound: bool,
    /// It is a split variable without a range.
    pub rangeless: bool,
    /// It is a split variable with a definition.
    pub defined_split: bool,
    /// It cuts into no pieces.
    pub no_pieces: bool,
    /// It is a point that doesn't split.
    pub bad_point: bool,
    /// It is a literal past its limits.
    pub past: bool,
}

/// The first kind of those that are refused whatever is counted.
pub fn form_kind(tests: FormTests) -> Option<RefusalKind>
    ensures { result ≡ spec.form_kind tests.wrong_side tests.used tests.bad_bound
        tests.rangeless tests.defined_split tests.no_pieces tests.bad_point tests.past }
{
    if tests.wrong_side {
        Some(RefusalKind::FormulaForm)
    } else if tests.used {
        Some(RefusalKind::NameUsed)
    } else if tests.bad_bound {
        Some(RefusalKind::BadBound)
    } else if tests.rangeless {
        Some(RefusalKind::SplitRange)
    } else if tests.defined_split || tests.no_pieces || tests.bad_point {
        Some(RefusalKind::BadSplit)
    } else if tests.past {
        Some(RefusalKind::LiteralLimit)
    } else {
        None
    }
}

/// The first limit that is passed.
pub fn limit_kind(
    opened: usize,
    halved: usize,
    counts: Counts,
    past_lsb: bool,
    past_pieces: bool,
) -> Option<RefusalKind>
    requires { counts.cases * counts.conjunctions ≤ 128 }
    ensures { result ≡ spec.limit_kind opened halved counts past_lsb past_pieces }
{
    if opened > 64 {
        Some(RefusalKind::Limit(LimitKind::Nesting))
    } else if counts.definitions > 256 {
        Some(RefusalKind::Limit(LimitKind::Definitions))
    } else if counts.propositions > 128 {
        Some(RefusalKind::Limit(LimitKind::Propositions))
    } else if counts.hints > 64 {
        Some(RefusalKind::Limit(LimitKind::Hints))
    } else if counts.nodes > 512 {
        Some(RefusalKind::Limit(LimitKind::Nodes))
    } else if past_lsb {
        Some(RefusalKind::Limit(LimitKind::Lsb))
    } else if counts.splits > 4 || halved > 4 {
        Some(RefusalKind::Limit(LimitKind::Splits))
    } else if counts.pieces > 64 || past_pieces {
        Some(RefusalKind::Limit(LimitKind::Pieces))
    } else if counts.cases * counts.conjunctions > 64 {
        Some(RefusalKind::Limit(LimitKind::Cases))
    } else {
        None
    }
}
