//! The first refusal of a text.

ghost use Rattle.std.specs.Prelude.{◌≡◌};
ghost use Rattle.script_judge.specs.First as spec;
ghost use Rattle.script_judge.specs.First.{FaultsAreUnique, FirstsAreUnique};

use crate::formula::fronts_are_read;
use crate::refusal::{Refusal, RefusalKind};
use script_shape::shape::{roles_are_unique, shape_is_unique};
use script_words::lex::lexed_once;

/// The number of a kind in the table of refusals.
fn number(kind: RefusalKind) -> u32
    ensures { result ≡ spec.number kind }
{
    match kind {
        RefusalKind::NotText => 1,
        RefusalKind::BadToken => 2,
        RefusalKind::Unexpected => 3,
        RefusalKind::FormulaForm => 4,
        RefusalKind::UnsupportedOperator => 5,
        RefusalKind::NameUsed => 6,
        RefusalKind::BadBound => 7,
        RefusalKind::SplitRange => 8,
        RefusalKind::BadSplit => 9,
        RefusalKind::LiteralLimit => 10,
        RefusalKind::Limit(_) => 11,
    }
}

/// Whether the one refusal comes before the other: at a lower byte, or at the same with the lower
/// number.
fn is_before(one: Refusal, other: Refusal) -> bool
    ensures { result ≡ spec.is_before one other }
{
    one.at < other.at || one.at == other.at && number(one.kind) < number(other.kind)
}

/// The first of two refusals.
pub fn first_of(one: Option<Refusal>, other: Option<Refusal>) -> Option<Refusal>
    ensures { result ≡ spec.first_of one other }
{
    let Some(first) = one else {
        return other;
    };
    let Some(second) = other else {
        return one;
    };
    if is_before(second, first) { other } else { one }
}

/// The reading of a text ends at one refusal at most.
pub fn faults_are_unique()
    ensures { FaultsAreUnique }
{
    lexed_once();
    shape_is_unique();
    roles_are_unique();
}

/// A text has one first refusal at most.
pub fn firsts_are_unique()
    ensures { FirstsAreUnique }
{
    lexed_once();
    shape_is_unique();
    roles_are_unique();
    fronts_are_read();
}
