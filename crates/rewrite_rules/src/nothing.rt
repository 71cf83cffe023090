// Premises that contradict each other.
ghost use Rattle.std.specs.Prelude.{◌≡◌};
ghost use Rattle.interval.specs.Intervals.{range_of};
ghost use Rattle.rewrite_rules.specs.Nothing.{is_zero, zero_and_not_rule, void_of};
ghost use Rattle.rewrite_rules.specs.Nothing.{both_zero_and_not_rule};

use expr_dag::Dag;
use facts::{Fact, RelativeError, Slot};
use interval::Interval;

/// From BND(x, [0, 0]), NZR(x): VOID.
#[inline(always)]
pub fn rule_91(dag: &Dag, premises: &[Fact], target: Slot) -> Option<Fact>
    ensures concludes { result ≡ zero_and_not_rule dag.now premises.now target }
{
    let [first, second] = premises else {
        return None;
    };
    match (*first, *second, target) {
        (Fact::Bnd(x, i), Fact::Nzr(y), Slot::Void) => {
            if dag.knows(x) && x == y && is_zero(i) {
                Some(Fact::Void)
            } else {
                None
            }
        }
        _ => None,
    }
}

// Whether the interval is [0, 0].
fn is_zero(range: Interval) -> bool
    ensures { result ≡ is_zero (range_of range) }
{
    range.is_not_negative() && range.is_not_positive()
}

/// From REL(x, y) that says that both are 0, NZR(y): VOID.
#[inline(always)]
pub fn rule_92(dag: &Dag, premises: &[Fact], target: Slot) -> Option<Fact>
    ensures concludes { result ≡ both_zero_and_not_rule dag.now premises.now target }
{
    let [first, second] = premises else {
        return None;
    };
    match (*first, *second, target) {
        (Fact::Rel(x, y, d), Fact::Nzr(z), Slot::Void) => {
            if dag.know_both(x, y) && z == y {
                void_of(d)
            } else {
                None
            }
        }
        _ => None,
    }
}

fn void_of(error: Option<RelativeError>) -> Option<Fact>
    ensures { result ≡ void_of error }
{
    match error {
        Some(_) => None,
        None => Some(Fact::Void),
    }
}
