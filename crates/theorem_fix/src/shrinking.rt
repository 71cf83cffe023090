// Multiples in an interval.
ghost use Rattle.std.specs.Prelude.{◌≡◌};
ghost use Rattle.theorem_fix.specs.Shrunk.{shrunk_of, shrinking_rule, void_without};
ghost use Rattle.theorem_fix.specs.Shrunk.{no_multiple_rule};

use expr_dag::Dag;
use facts::{Fact, FixPlace, Slot};
use interval::Interval;

/// From BND(x, I), FIX(x, k): BND(x, I shrunk to its multiples of 2^k), where it has one.
#[inline(always)]
pub fn rule_28(dag: &Dag, premises: &[Fact], target: Slot) -> Option<Fact>
    ensures concludes { result ≡ shrinking_rule dag.now premises.now target }
{
    let [first, second] = premises else {
        return None;
    };
    match (*first, *second, target) {
        (Fact::Bnd(x, i), Fact::Fix(y, k), Slot::Bnd(e)) => {
            if x == y && dag.knows(x) && x == e {
                Fact::bnd(e, shrunk(i, k))
            } else {
                None
            }
        }
        _ => None,
    }
}

/// From BND(x, I), FIX(x, k), where I has no multiple of 2^k: VOID.
#[inline(always)]
pub fn rule_90(dag: &Dag, premises: &[Fact], target: Slot) -> Option<Fact>
    ensures concludes { result ≡ no_multiple_rule dag.now premises.now target }
{
    let [first, second] = premises else {
        return None;
    };
    match (*first, *second, target) {
        (Fact::Bnd(x, i), Fact::Fix(y, k), Slot::Void) => {
            if x == y && dag.knows(x) {
                void_without(shrunk(i, k))
            } else {
                None
            }
        }
        _ => None,
    }
}

fn void_without(interval: Option<Interval>) -> Option<Fact>
    ensures { result ≡ void_without interval }
{
    match interval {
        Some(_) => None,
        None => Some(Fact::Void),
    }
}

fn shrunk(i: Interval, k: FixPlace) -> Option<Interval>
    ensures { result ≡ shrunk_of i k }
{
    i.shrink(k.exponent() as i32)
}
