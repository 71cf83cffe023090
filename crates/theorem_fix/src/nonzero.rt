// Values other than 0.
ghost use Rattle.std.specs.Prelude.{◌≡◌};
ghost use Rattle.fx_model.specs.Fraction.{zero_ℚ};
ghost use Rattle.interval.specs.Intervals.{range_of};
ghost use Rattle.facts.specs.Ranges.{is_below};
ghost use Rattle.theorem_fix.specs.Nonzero.{nonzero_bound_rule, nonzero_size_rule};
ghost use Rattle.theorem_fix.specs.Nonzero.{nonzero_product_rule, nonzero_quotient_rule};
ghost use Rattle.theorem_fix.specs.Nonzero.{nonzero_negation_rule, are_sides, nonzero_or_void};
ghost use Rattle.theorem_fix.specs.Nonzero.{nonzero_side_rule};

use expr_dag::Dag;
use facts::{Fact, RelativeError, Slot};
use fx_model::{ExprId, Node};
use interval::Interval;

/// From BND(x, I), where 0 isn't in I: NZR(x) (Gappa: `nzr_of_bnd`).
#[inline(always)]
pub fn rule_31(dag: &Dag, premises: &[Fact], target: Slot) -> Option<Fact>
    ensures concludes { result ≡ nonzero_bound_rule dag.now premises.now target }
{
    let [first] = premises else {
        return None;
    };
    match (*first, target) {
        (Fact::Bnd(x, i), Slot::Nzr(e)) => {
            if x == e && dag.knows(x) && !i.has_zero() {
                Some(Fact::Nzr(e))
            } else {
                None
            }
        }
        _ => None,
    }
}

/// From ABS(x, I), the lower end above 0: NZR(x) (Gappa: `nzr_of_abs`).
#[inline(always)]
pub fn rule_32(dag: &Dag, premises: &[Fact], target: Slot) -> Option<Fact>
    ensures concludes { result ≡ nonzero_size_rule dag.now premises.now target }
{
    let [first] = premises else {
        return None;
    };
    match (*first, target) {
        (Fact::Abs(x, s), Slot::Nzr(e)) => {
            if x == e && dag.knows(x) && is_positive(s.interval()) {
                Some(Fact::Nzr(e))
            } else {
                None
            }
        }
        _ => None,
    }
}

// Whether the interval is above 0.
fn is_positive(range: Interval) -> bool
    ensures { result ≡ is_below zero_ℚ (range_of range).low }
{
    range.is_positive()
}

/// From NZR(a), NZR(b): NZR(a * b) (Gappa: `mul_nzr`).
#[inline(always)]
pub fn rule_33(dag: &Dag, premises: &[Fact], target: Slot) -> Option<Fact>
    ensures concludes { result ≡ nonzero_product_rule dag.now premises.now target }
{
    let [first, second] = premises else {
        return None;
    };
    match (*first, *second, target) {
        (Fact::Nzr(a), Fact::Nzr(b), Slot::Nzr(e)) => {
            if dag.is_at(e, Node::Mul(a, b)) {
                Some(Fact::Nzr(e))
            } else {
                None
            }
        }
        _ => None,
    }
}

/// From NZR(a), NZR(b): NZR(a / b) (Gappa: `div_nzr`).
#[inline(always)]
pub fn rule_34(dag: &Dag, premises: &[Fact], target: Slot) -> Option<Fact>
    ensures concludes { result ≡ nonzero_quotient_rule dag.now premises.now target }
{
    let [first, second] = premises else {
        return None;
    };
    match (*first, *second, target) {
        (Fact::Nzr(a), Fact::Nzr(b), Slot::Nzr(e)) => {
            if dag.is_at(e, Node::Div(a, b)) {
                Some(Fact::Nzr(e))
            } else {
                None
            }
        }
        _ => None,
    }
}

/// From NZR(a): NZR(-a) (Gappa: `neg_nzr`).
#[inline(always)]
pub fn rule_35(dag: &Dag, premises: &[Fact], target: Slot) -> Option<Fact>
    ensures concludes { result ≡ nonzero_negation_rule dag.now premises.now target }
{
    let [first] = premises else {
        return None;
    };
    match (*first, target) {
        (Fact::Nzr(a), Slot::Nzr(e)) => {
            if dag.is_at(e, Node::Neg(a)) {
                Some(Fact::Nzr(e))
            } else {
                None
            }
        }
        _ => None,
    }
}

/// From REL(x, y, I), NZR of one of x, y: NZR of the other; VOID where I is `none` (Gappa:
/// `nzr_of_nzr_rel`, `nzr_of_nzr_rel_rev`).
#[inline(always)]
pub fn rule_36(dag: &Dag, premises: &[Fact], target: Slot) -> Option<Fact>
    ensures concludes { result ≡ nonzero_side_rule dag.now premises.now target }
{
    let [first, second] = premises else {
        return None;
    };
    match (*first, *second, target) {
        (Fact::Rel(x, y, d), Fact::Nzr(z), Slot::Nzr(e)) => {
            if dag.know_both(x, y) && are_sides(x, y, z, e) {
                Some(nonzero_or_void(e, d))
            } else {
                None
            }
        }
        (Fact::Rel(x, y, d), Fact::Nzr(z), Slot::Void) => {
            if dag.know_both(x, y) && (z == x || z == y) {
                Fact::void_only(Some(nonzero_or_void(z, d)))
            } else {
                None
            }
        }
        _ => None,
    }
}

// Whether z is one of x and y, and e the other.
fn are_sides(x: ExprId, y: ExprId, z: ExprId, e: ExprId) -> bool
    ensures { result ≡ are_sides x y z e }
{
    z == x && e == y || z == y && e == x
}

fn nonzero_or_void(e: ExprId, error: Option<RelativeError>) -> Fact
    ensures { result ≡ nonzero_or_void e error }
{
    match error {
        Some(_) => Fact::Nzr(e),
        None => Fact::Void,
    }
}
