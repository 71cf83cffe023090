// Multiples of powers of two.
ghost use Rattle.std.specs.Prelude.{◌≡◌, slice_get};
ghost use Rattle.fx_model.specs.Expression.{literal_value};
ghost use Rattle.literal.specs.Normal.{IsNormal};
ghost use Rattle.theorem_fix.specs.Greatest.{greatest_place};
ghost use Rattle.theorem_fix.specs.Multiples.{literal_place, literal_multiple_rule};
ghost use Rattle.theorem_fix.specs.Multiples.{multiple_of_negation_rule, multiple_of_sum_rule};
ghost use Rattle.theorem_fix.specs.Multiples.{multiple_of_product_rule, last_place};
ghost use Rattle.theorem_fix.specs.Multiples.{rounded_multiple_rule, untouched};
ghost use Rattle.theorem_fix.specs.Multiples.{untouched_multiple_rule, number_place, point_place};
ghost use Rattle.theorem_fix.specs.Multiples.{number_multiple_rule};

use crate::places::{keep, lesser, product_place};
use crate::shape::rounding;
use dyadic::{Dyadic, End};
use expr_dag::Dag;
use facts::{Fact, FixPlace, Slot};
use fx_model::{ExprId, Literal, Node, Rounding};
use literal::fix_of;

/// For a literal c: FIX(c, k), where k is the greatest of which it is a multiple.
#[inline(always)]
pub fn rule_21(dag: &Dag, premises: &[Fact], target: Slot) -> Option<Fact>
    ensures concludes { result ≡ literal_multiple_rule dag.now premises.now target }
{
    let ([], Slot::Fix(e)) = (premises, target) else {
        return None;
    };
    Fact::fix(e, of_expression(dag, e))
}

fn of_expression(dag: &Dag, e: ExprId) -> Option<FixPlace>
    ensures { result ≡ literal_place (slice_get dag.now e.0) }
{
    dag.laws();
    match dag.get(e) {
        Some(Node::Lit(c)) => of_literal(&c),
        _ => None,
    }
}

fn of_literal(literal: &Literal) -> Option<FixPlace>
    requires { IsNormal literal.now }
    ensures { result ≡ greatest_place (literal_value literal.now) }
{
    match fix_of(literal) {
        Some(k) => FixPlace::new(k as i16),
        None => None,
    }
}

/// From FIX(a, k): FIX(-a, k) (Gappa: `neg_fix`).
#[inline(always)]
pub fn rule_22(dag: &Dag, premises: &[Fact], target: Slot) -> Option<Fact>
    ensures concludes { result ≡ multiple_of_negation_rule dag.now premises.now target }
{
    let [first] = premises else {
        return None;
    };
    match (*first, target) {
        (Fact::Fix(a, k), Slot::Fix(e)) => {
            if dag.is_at(e, Node::Neg(a)) {
                Some(Fact::Fix(e, k))
            } else {
                None
            }
        }
        _ => None,
    }
}

/// From FIX(a, k), FIX(b, n): FIX(a + b) and FIX(a - b) with the lesser of k and n (Gappa:
/// `add_fix`, `sub_fix`).
#[inline(always)]
pub fn rule_23(dag: &Dag, premises: &[Fact], target: Slot) -> Option<Fact>
    ensures concludes { result ≡ multiple_of_sum_rule dag.now premises.now target }
{
    let [first, second] = premises else {
        return None;
    };
    match (*first, *second, target) {
        (Fact::Fix(a, k), Fact::Fix(b, n), Slot::Fix(e)) => {
            if dag.is_at(e, Node::Add(a, b)) || dag.is_at(e, Node::Sub(a, b)) {
                Some(Fact::Fix(e, lesser(k, n)))
            } else {
                None
            }
        }
        _ => None,
    }
}

/// From FIX(a, k), FIX(b, n): FIX(a * b, k + n) (Gappa: `mul_fix`).
#[inline(always)]
pub fn rule_24(dag: &Dag, premises: &[Fact], target: Slot) -> Option<Fact>
    ensures concludes { result ≡ multiple_of_product_rule dag.now premises.now target }
{
    let [first, second] = premises else {
        return None;
    };
    match (*first, *second, target) {
        (Fact::Fix(a, k), Fact::Fix(b, n), Slot::Fix(e)) => {
            if dag.is_at(e, Node::Mul(a, b)) {
                Fact::fix(e, product_place(k, n))
            } else {
                None
            }
        }
        _ => None,
    }
}

/// From BND(x): FIX(R(x), l), where l is the lsb of the rounding R.
#[inline(always)]
pub fn rule_25(dag: &Dag, premises: &[Fact], target: Slot) -> Option<Fact>
    ensures concludes { result ≡ rounded_multiple_rule dag.now premises.now target }
{
    let [first] = premises else {
        return None;
    };
    match (*first, target) {
        (Fact::Bnd(x, _), Slot::Fix(e)) => { Fact::fix(e, lsb(rounding(dag, e, x))) }
        _ => None,
    }
}

fn lsb(rounding: Option<Rounding>) -> Option<FixPlace>
    ensures { result ≡ last_place rounding }
{
    match rounding {
        Some(r) => FixPlace::new(r.lsb),
        None => None,
    }
}

/// From FIX(x, k), k at least l: FIX(R(x), k).
#[inline(always)]
pub fn rule_26(dag: &Dag, premises: &[Fact], target: Slot) -> Option<Fact>
    ensures concludes { result ≡ untouched_multiple_rule dag.now premises.now target }
{
    let [first] = premises else {
        return None;
    };
    match (*first, target) {
        (Fact::Fix(x, k), Slot::Fix(e)) => { Fact::fix(e, left_as_it_is(k, rounding(dag, e, x))) }
        _ => None,
    }
}

fn left_as_it_is(k: FixPlace, rounding: Option<Rounding>) -> Option<FixPlace>
    ensures { result ≡ untouched k rounding }
{
    match rounding {
        Some(r) => { if k.exponent() < r.lsb { None } else { Some(k) } }
        None => None,
    }
}

/// From BND(x, [p, p]): FIX(x, the exponent of p in its canonical form, 512 for 0).
#[inline(always)]
pub fn rule_27(dag: &Dag, premises: &[Fact], target: Slot) -> Option<Fact>
    ensures concludes { result ≡ number_multiple_rule dag.now premises.now target }
{
    let [first] = premises else {
        return None;
    };
    match (*first, target) {
        (Fact::Bnd(x, i), Slot::Fix(e)) => {
            if x == e && dag.knows(x) {
                Fact::fix(e, of_point(i.lo(), i.hi()))
            } else {
                None
            }
        }
        _ => None,
    }
}

fn of_number(number: Dyadic) -> Option<FixPlace>
    ensures { result ≡ number_place number }
{
    if number.mantissa().unsigned_abs() == 0 {
        keep(512)
    } else {
        keep(number.exponent())
    }
}

fn of_point(low: End, high: End) -> Option<FixPlace>
    ensures { result ≡ point_place low high }
{
    match (low, high) {
        (End::At(c), End::At(d)) => { if d.is_at_most(c) { of_number(c) } else { None } }
        _ => None,
    }
}
