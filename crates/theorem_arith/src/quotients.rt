// Bounds of quotients.
ghost use Rattle.std.specs.Prelude.{◌≡◌};
ghost use Rattle.theorem_arith.specs.Bounds.{quotient_rule, quotient_by_nonzero_rule};
ghost use Rattle.theorem_arith.specs.Bounds.{quotient_by_itself_rule};

use expr_dag::Dag;
use facts::{Fact, Slot};
use fx_model::Node;
use interval::Interval;

/// From BND(a, I), BND(b, J), where 0 isn't in J: BND(a / b, I / J) (Gappa: `div`).
#[inline(always)]
pub fn rule_8(dag: &Dag, premises: &[Fact], target: Slot) -> Option<Fact>
    ensures concludes { result ≡ quotient_rule dag.now premises.now target }
{
    let [first, second] = premises else {
        return None;
    };
    match (*first, *second, target) {
        (Fact::Bnd(a, i), Fact::Bnd(b, j), Slot::Bnd(e)) => {
            if dag.is_at(e, Node::Div(a, b)) {
                Fact::bnd(e, i.div(j))
            } else {
                None
            }
        }
        _ => None,
    }
}

/// From BND(a), NZR(b): a / b has a value, BND(a / b, whole line).
#[inline(always)]
pub fn rule_9(dag: &Dag, premises: &[Fact], target: Slot) -> Option<Fact>
    ensures concludes { result ≡ quotient_by_nonzero_rule dag.now premises.now target }
{
    let [first, second] = premises else {
        return None;
    };
    match (*first, *second, target) {
        (Fact::Bnd(a, _), Fact::Nzr(b), Slot::Bnd(e)) => {
            if dag.is_at(e, Node::Div(a, b)) {
                Some(Fact::Bnd(e, Interval::whole()))
            } else {
                None
            }
        }
        _ => None,
    }
}

/// From NZR(x): BND(x / x, [1, 1]) (Gappa: `div_refl`).
#[inline(always)]
pub fn rule_10(dag: &Dag, premises: &[Fact], target: Slot) -> Option<Fact>
    ensures concludes { result ≡ quotient_by_itself_rule dag.now premises.now target }
{
    let [first] = premises else {
        return None;
    };
    match (*first, target) {
        (Fact::Nzr(x), Slot::Bnd(e)) => {
            if dag.is_at(e, Node::Div(x, x)) {
                Some(Fact::Bnd(e, Interval::one()))
            } else {
                None
            }
        }
        _ => None,
    }
}
