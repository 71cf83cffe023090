// Bounds of literals, negations, sums, differences and products.
ghost use Rattle.std.specs.Prelude.{◌≡◌, slice_get};
ghost use Rattle.theorem_arith.specs.Bounds.{literal_rule, literal_at, negation_rule, sum_rule};
ghost use Rattle.theorem_arith.specs.Bounds.{difference_rule, product_rule};
ghost use Rattle.theorem_arith.specs.Bounds.{difference_with_itself_rule, square_rule};

use expr_dag::Dag;
use facts::{Fact, Slot};
use fx_model::{ExprId, Node};
use interval::{Interval, enclose};

/// For a literal c: BND(c, [down c, up c]).
#[inline(always)]
pub fn rule_1(dag: &Dag, premises: &[Fact], target: Slot) -> Option<Fact>
    ensures concludes { result ≡ literal_rule dag.now premises.now target }
{
    let ([], Slot::Bnd(e)) = (premises, target) else {
        return None;
    };
    literal(dag, e)
}

fn literal(dag: &Dag, e: ExprId) -> Option<Fact>
    ensures { result ≡ literal_at (slice_get dag.now e.0) e }
{
    dag.laws();
    match dag.get(e) {
        Some(Node::Lit(c)) => Some(Fact::Bnd(e, enclose(&c, false))),
        _ => None,
    }
}

/// From BND(a, I): BND(-a, -I) (Gappa: `neg`).
#[inline(always)]
pub fn rule_2(dag: &Dag, premises: &[Fact], target: Slot) -> Option<Fact>
    ensures concludes { result ≡ negation_rule dag.now premises.now target }
{
    let [first] = premises else {
        return None;
    };
    match (*first, target) {
        (Fact::Bnd(a, i), Slot::Bnd(e)) => {
            if dag.is_at(e, Node::Neg(a)) {
                Some(Fact::Bnd(e, i.neg()))
            } else {
                None
            }
        }
        _ => None,
    }
}

/// From BND(a, I), BND(b, J): BND(a + b, I + J) (Gappa: `add`).
#[inline(always)]
pub fn rule_3(dag: &Dag, premises: &[Fact], target: Slot) -> Option<Fact>
    ensures concludes { result ≡ sum_rule dag.now premises.now target }
{
    let [first, second] = premises else {
        return None;
    };
    match (*first, *second, target) {
        (Fact::Bnd(a, i), Fact::Bnd(b, j), Slot::Bnd(e)) => {
            if dag.is_at(e, Node::Add(a, b)) {
                Some(Fact::Bnd(e, i.add(j)))
            } else {
                None
            }
        }
        _ => None,
    }
}

/// From BND(a, I), BND(b, J): BND(a - b, I - J) (Gappa: `sub`).
#[inline(always)]
pub fn rule_4(dag: &Dag, premises: &[Fact], target: Slot) -> Option<Fact>
    ensures concludes { result ≡ difference_rule dag.now premises.now target }
{
    let [first, second] = premises else {
        return None;
    };
    match (*first, *second, target) {
        (Fact::Bnd(a, i), Fact::Bnd(b, j), Slot::Bnd(e)) => {
            if dag.is_at(e, Node::Sub(a, b)) {
                Some(Fact::Bnd(e, i.sub(j)))
            } else {
                None
            }
        }
        _ => None,
    }
}

/// From BND(x): BND(x - x, [0, 0]) (Gappa: `sub_refl`).
#[inline(always)]
pub fn rule_5(dag: &Dag, premises: &[Fact], target: Slot) -> Option<Fact>
    ensures concludes { result ≡ difference_with_itself_rule dag.now premises.now target }
{
    let [first] = premises else {
        return None;
    };
    match (*first, target) {
        (Fact::Bnd(x, _), Slot::Bnd(e)) => {
            if dag.is_at(e, Node::Sub(x, x)) {
                Some(Fact::Bnd(e, Interval::zero()))
            } else {
                None
            }
        }
        _ => None,
    }
}

/// From BND(a, I), BND(b, J): BND(a * b, I * J) (Gappa: `mul`).
#[inline(always)]
pub fn rule_6(dag: &Dag, premises: &[Fact], target: Slot) -> Option<Fact>
    ensures concludes { result ≡ product_rule dag.now premises.now target }
{
    let [first, second] = premises else {
        return None;
    };
    match (*first, *second, target) {
        (Fact::Bnd(a, i), Fact::Bnd(b, j), Slot::Bnd(e)) => {
            if dag.is_at(e, Node::Mul(a, b)) {
                Some(Fact::Bnd(e, i.mul(j)))
            } else {
                None
            }
        }
        _ => None,
    }
}

/// From ABS(x, I): BND(x * x, I * I) (Gappa: `square`).
#[inline(always)]
pub fn rule_7(dag: &Dag, premises: &[Fact], target: Slot) -> Option<Fact>
    ensures concludes { result ≡ square_rule dag.now premises.now target }
{
    let [first] = premises else {
        return None;
    };
    match (*first, target) {
        (Fact::Abs(x, s), Slot::Bnd(e)) => {
            if dag.is_at(e, Node::Mul(x, x)) {
                Some(Fact::Bnd(e, s.interval().mul(s.interval())))
            } else {
                None
            }
        }
        _ => None,
    }
}
