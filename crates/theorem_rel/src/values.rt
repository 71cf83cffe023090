// From bounds to relative errors, and back.
ghost use Rattle.std.specs.Prelude.{◌≡◌};
ghost use Rattle.theorem_rel.specs.Values.{relative_to_itself_rule, relative_difference_rule};
ghost use Rattle.theorem_rel.specs.Values.{zero_or_void, difference_fact, difference_by_error_rule};
ghost use Rattle.theorem_rel.specs.Values.{value_fact, value_by_error_rule, quotient_fact};
ghost use Rattle.theorem_rel.specs.Values.{quotient_by_error_rule};

use crate::parts::error_within;
use expr_dag::Dag;
use facts::{Fact, RelativeError, Slot};
use fx_model::{ExprId, Node};
use interval::Interval;

/// From BND(x): REL(x, x, [0, 0]) (Gappa: `rel_refl`).
#[inline(always)]
pub fn rule_51(dag: &Dag, premises: &[Fact], target: Slot) -> Option<Fact>
    ensures concludes { result ≡ relative_to_itself_rule dag.now premises.now target }
{
    let [first] = premises else {
        return None;
    };
    match (*first, target) {
        (Fact::Bnd(x, _), Slot::Rel(y, z)) => {
            if dag.knows(x) && x == y && x == z {
                Fact::rel(y, z, RelativeError::new(Interval::zero()))
            } else {
                None
            }
        }
        _ => None,
    }
}

/// From BND(x - y, I), BND(y, J), where 0 isn't in J: REL(x, y, I / J).
#[inline(always)]
pub fn rule_52(dag: &Dag, premises: &[Fact], target: Slot) -> Option<Fact>
    ensures concludes { result ≡ relative_difference_rule dag.now premises.now target }
{
    let [first, second] = premises else {
        return None;
    };
    match (*first, *second, target) {
        (Fact::Bnd(p, i), Fact::Bnd(z, j), Slot::Rel(x, y)) => {
            if dag.is_at(p, Node::Sub(x, y)) && z == y {
                Fact::rel(x, y, error_within(i.div(j)))
            } else {
                None
            }
        }
        _ => None,
    }
}

/// From REL(x, y, I), BND(y, J): BND(x - y, J * I); where both are 0, BND(x - y, [0, 0]), or VOID
/// where 0 isn't in J.
#[inline(always)]
pub fn rule_53(dag: &Dag, premises: &[Fact], target: Slot) -> Option<Fact>
    ensures concludes { result ≡ difference_by_error_rule dag.now premises.now target }
{
    let [first, second] = premises else {
        return None;
    };
    match (*first, *second, target) {
        (Fact::Rel(x, y, d), Fact::Bnd(z, j), Slot::Bnd(e)) => {
            if dag.is_at(e, Node::Sub(x, y)) && z == y {
                Some(difference(e, d, j))
            } else {
                None
            }
        }
        (Fact::Rel(x, y, d), Fact::Bnd(z, j), Slot::Void) => {
            if dag.know_both(x, y) && z == y {
                Fact::void_only(Some(difference(x, d, j)))
            } else {
                None
            }
        }
        _ => None,
    }
}

#[inline(always)]
fn difference(e: ExprId, error: Option<RelativeError>, j: Interval) -> Fact
    ensures { result ≡ difference_fact e error j }
{
    match error {
        Some(d) => Fact::Bnd(e, j.mul(d.interval())),
        None => zero_or_void(e, j),
    }
}

#[inline(always)]
fn zero_or_void(e: ExprId, j: Interval) -> Fact
    ensures { result ≡ zero_or_void e j }
{
    if j.has_zero() {
        Fact::Bnd(e, Interval::zero())
    } else {
        Fact::Void
    }
}

/// From REL(x, y, I), BND(y, J): BND(x, J * ([1, 1] + I)); where both are 0, BND(x, [0, 0]), or
/// VOID where 0 isn't in J.
#[inline(always)]
pub fn rule_54(dag: &Dag, premises: &[Fact], target: Slot) -> Option<Fact>
    ensures concludes { result ≡ value_by_error_rule dag.now premises.now target }
{
    let [first, second] = premises else {
        return None;
    };
    match (*first, *second, target) {
        (Fact::Rel(x, y, d), Fact::Bnd(z, j), Slot::Bnd(e)) => {
            if dag.know_both(x, y) && z == y && x == e {
                Some(value(e, d, j))
            } else {
                None
            }
        }
        (Fact::Rel(x, y, d), Fact::Bnd(z, j), Slot::Void) => {
            if dag.know_both(x, y) && z == y {
                Fact::void_only(Some(value(x, d, j)))
            } else {
                None
            }
        }
        _ => None,
    }
}

#[inline(always)]
fn value(e: ExprId, error: Option<RelativeError>, j: Interval) -> Fact
    ensures { result ≡ value_fact e error j }
{
    match error {
        Some(d) => Fact::Bnd(e, j.mul(Interval::one().add(d.interval()))),
        None => zero_or_void(e, j),
    }
}

/// From REL(x, y, I), NZR(y): BND(x / y, [1, 1] + I); VOID where both are 0.
#[inline(always)]
pub fn rule_55(dag: &Dag, premises: &[Fact], target: Slot) -> Option<Fact>
    ensures concludes { result ≡ quotient_by_error_rule dag.now premises.now target }
{
    let [first, second] = premises else {
        return None;
    };
    match (*first, *second, target) {
        (Fact::Rel(x, y, d), Fact::Nzr(z), Slot::Bnd(e)) => {
            if dag.is_at(e, Node::Div(x, y)) && z == y {
                Some(quotient(e, d))
            } else {
                None
            }
        }
        (Fact::Rel(x, y, d), Fact::Nzr(z), Slot::Void) => {
            if dag.know_both(x, y) && z == y {
                Fact::void_only(Some(quotient(x, d)))
            } else {
                None
            }
        }
        _ => None,
    }
}

#[inline(always)]
fn quotient(e: ExprId, error: Option<RelativeError>) -> Fact
    ensures { result ≡ quotient_fact e error }
{
    match error {
        Some(d) => Fact::Bnd(e, Interval::one().add(d.interval())),
        None => Fact::Void,
    }
}
