// Relative errors of operations.
ghost use Rattle.std.specs.Prelude.{◌≡◌, slice_get};
ghost use Rattle.interval.specs.Results.{sum_of};
ghost use Rattle.facts.specs.Conclusions.{only_if};
ghost use Rattle.facts.specs.Parts.{error_from, error_of_part};
ghost use Rattle.facts.specs.RelativeConclusions.{void_only};
ghost use Rattle.facts.specs.declared.fact.Fact.TheVariants as fact;
ghost use Rattle.facts.specs.declared.fact.Slot.TheVariants as slot;
ghost use Rattle.theorem_rel.specs.Values.{unit};
ghost use Rattle.theorem_rel.specs.Operations.{joint, joint_fact, relative_product_rule};
ghost use Rattle.theorem_rel.specs.Operations.{relative_chain_rule, less_one, over_one, ratio_fact};
ghost use Rattle.theorem_rel.specs.Operations.{relative_quotient_rule, turned_fact};
ghost use Rattle.theorem_rel.specs.Operations.{relative_turned_rule, relative_negation_rule};
ghost use Rattle.theorem_rel.specs.Operations.{weighted, rel_or_void, sum_fact, is_share};
ghost use Rattle.theorem_rel.specs.Operations.{relative_sum_rule};

use crate::parts::error_within;
use expr_dag::Dag;
use facts::{Fact, RelativeError, Slot};
use fx_model::{ExprId, Node};
use interval::Interval;

/// From REL(a, c, I), REL(b, d, K): REL(a * b, c * d, (I + K) + I * K); both are 0 where those of a
/// premise are (Gappa: `mul_rr`).
#[inline(always)]
pub fn rule_56(dag: &Dag, premises: &[Fact], target: Slot) -> Option<Fact>
    ensures concludes { result ≡ relative_product_rule dag.now premises.now target }
{
    let [first, second] = premises else {
        return None;
    };
    match (*first, *second, target) {
        (Fact::Rel(a, c, i), Fact::Rel(b, d, k), Slot::Rel(x, y)) => {
            if dag.is_at(x, Node::Mul(a, b)) && dag.is_at(y, Node::Mul(c, d)) {
                jointly(x, y, i, k)
            } else {
                None
            }
        }
        _ => None,
    }
}

// (I + K) + I * K.
#[inline(always)]
fn joint(i: Interval, k: Interval) -> Interval
    ensures { result ≡ joint i k }
{
    i.add(k).add(i.mul(k))
}

#[inline(always)]
fn jointly(
    x: ExprId,
    y: ExprId,
    first: Option<RelativeError>,
    second: Option<RelativeError>,
) -> Option<Fact>
    ensures { result ≡ joint_fact x y first second }
{
    match (first, second) {
        (Some(i), Some(k)) => Fact::rel(
            x,
            y,
            RelativeError::new(joint(i.interval(), k.interval())),
        ),
        _ => Some(Fact::Rel(x, y, None)),
    }
}

/// From REL(a, b, I), REL(b, c, K): REL(a, c, (I + K) + I * K); both are 0 where those of a premise
/// are (Gappa: `compose`).
#[inline(always)]
pub fn rule_58(dag: &Dag, premises: &[Fact], target: Slot) -> Option<Fact>
    ensures concludes { result ≡ relative_chain_rule dag.now premises.now target }
{
    let [first, second] = premises else {
        return None;
    };
    match (*first, *second, target) {
        (Fact::Rel(a, b, i), Fact::Rel(m, c, k), Slot::Rel(x, y)) => {
            let known = dag.know_both(a, b) && dag.know_both(m, c);
            if known && m == b && a == x && c == y {
                jointly(x, y, i, k)
            } else {
                None
            }
        }
        _ => None,
    }
}

// VOID, where it is concluded.
#[inline(always)]
fn void_if(concluded: bool) -> Option<Fact>
    ensures { result ≡ only_if concluded fact.Void }
{
    if concluded { Some(Fact::Void) } else { None }
}

// Whether the conclusion is VOID.
fn is_void(conclusion: Option<Fact>) -> bool
    ensures { only_if result fact.Void ≡ void_only conclusion }
{
    match conclusion {
        Some(Fact::Void) => true,
        _ => false,
    }
}

/// From REL(a, c, I), REL(b, d, K), NZR(d): REL(a / b, c / d, ([1, 1] + I) / ([1, 1] + K) - [1,
/// 1]), where 0 isn't in [1, 1] + K; VOID where b and d are both 0, else both are 0 where a and c
/// are (Gappa: `div_rr`).
#[inline(always)]
pub fn rule_57(dag: &Dag, premises: &[Fact], target: Slot) -> Option<Fact>
    ensures concludes { result ≡ relative_quotient_rule dag.now premises.now target }
{
    let [first, second, third] = premises else {
        return None;
    };
    match (first, second, third, target) {
        (Fact::Rel(a, c, i), Fact::Rel(b, d, k), Fact::Nzr(z), Slot::Rel(x, y)) => {
            let made = dag.is_at(x, Node::Div(*a, *b))
                & dag.is_at(y, Node::Div(*c, *d))
                & (*z == *d);
            if made { ratio(x, y, i, k) } else { None }
        }
        (_, _, _, Slot::Void) => void_if(is_void_by_quotient(dag, premises)),
        _ => None,
    }
}

// Whether rule 57 concludes VOID: where the divisors are both 0.
fn is_void_by_quotient(dag: &Dag, premises: &[Fact]) -> bool
    ensures { only_if result fact.Void ≡ relative_quotient_rule dag.now premises.now slot.Void }
{
    let [first, second, third] = premises else {
        return false;
    };
    match (first, second, third) {
        (Fact::Rel(a, c, _), Fact::Rel(b, d, k), Fact::Nzr(z)) => {
            let known = dag.know_both(*a, *c) && dag.know_both(*b, *d);
            known && *z == *d && k.is_none()
        }
        _ => false,
    }
}

#[inline(always)]
fn less_one(quotient: Option<Interval>) -> Option<Interval>
    ensures { result ≡ less_one quotient }
{
    match quotient {
        Some(q) => Some(q.sub(Interval::one())),
        None => None,
    }
}

// ([1, 1] + I) / ([1, 1] + K) - [1, 1]. It stands apart and takes no copies, being long: written
// out, it would keep what calls it from being written out in turn.
#[inline(never)]
fn ratio_error(i: &RelativeError, k: &RelativeError) -> Option<RelativeError>
    ensures { result ≡ error_of_part (over_one (sum_of unit i.now.interval) k.now) }
{
    let dividends = Interval::one().add(i.interval());
    let divisors = Interval::one().add(k.interval());
    error_within(less_one(dividends.div(divisors)))
}

#[inline(always)]
fn ratio(
    x: ExprId,
    y: ExprId,
    dividends: &Option<RelativeError>,
    divisors: &Option<RelativeError>,
) -> Option<Fact>
    ensures { result ≡ ratio_fact x y dividends.now divisors.now }
{
    match (dividends, divisors) {
        (_, None) => Some(Fact::Void),
        (None, Some(_)) => Some(Fact::Rel(x, y, None)),
        (Some(i), Some(k)) => Fact::rel(x, y, ratio_error(i, k)),
    }
}

/// From REL(x, y, I): REL(y, x, [1, 1] / ([1, 1] + I) - [1, 1]), where 0 isn't in [1, 1] + I; both
/// are 0 where they are.
#[inline(always)]
pub fn rule_59(dag: &Dag, premises: &[Fact], target: Slot) -> Option<Fact>
    ensures concludes { result ≡ relative_turned_rule dag.now premises.now target }
{
    let [first] = premises else {
        return None;
    };
    match (first, target) {
        (Fact::Rel(x, y, i), Slot::Rel(z, w)) => {
            if dag.know_both(*x, *y) && *y == z && *x == w {
                turned(z, w, i)
            } else {
                None
            }
        }
        _ => None,
    }
}

// [1, 1] / ([1, 1] + I) - [1, 1].
#[inline(never)]
fn turned_error(i: &RelativeError) -> Option<RelativeError>
    ensures { result ≡ error_of_part (over_one unit i.now) }
{
    error_within(less_one(Interval::one().div(Interval::one().add(i.interval()))))
}

#[inline(always)]
fn turned(x: ExprId, y: ExprId, error: &Option<RelativeError>) -> Option<Fact>
    ensures { result ≡ turned_fact x y error.now }
{
    match error {
        Some(i) => Fact::rel(x, y, turned_error(i)),
        None => Some(Fact::Rel(x, y, None)),
    }
}

/// From REL(a, b, I): REL(-a, -b, I); both are 0 where they are.
#[inline(always)]
pub fn rule_60(dag: &Dag, premises: &[Fact], target: Slot) -> Option<Fact>
    ensures concludes { result ≡ relative_negation_rule dag.now premises.now target }
{
    let [first] = premises else {
        return None;
    };
    match (*first, target) {
        (Fact::Rel(a, b, i), Slot::Rel(x, y)) => {
            if dag.is_at(x, Node::Neg(a)) && dag.is_at(y, Node::Neg(b)) {
                Some(Fact::Rel(x, y, i))
            } else {
                None
            }
        }
        _ => None,
    }
}

/// From REL(a, c, I), REL(b, d, K), BND(c / (c + d), L): REL(a + b, c + d, I * L + K * ([1, 1] -
/// L)). Where a and c alone are both 0: REL with K if 0 is in L, else VOID. Where b and d alone
/// are: REL with I if 1 is in L, else VOID. VOID where all are (Gappa: `add_rr`).
#[inline(always)]
pub fn rule_61(dag: &Dag, premises: &[Fact], target: Slot) -> Option<Fact>
    ensures concludes { result ≡ relative_sum_rule dag.now premises.now target }
{
    let [first, second, third] = premises else {
        return None;
    };
    match (first, second, third, target) {
        (Fact::Rel(a, c, i), Fact::Rel(b, d, k), Fact::Bnd(q, l), Slot::Rel(x, y)) => {
            let made = dag.is_at(x, Node::Add(*a, *b))
                & dag.is_at(y, Node::Add(*c, *d))
                & dag.is_at(*q, Node::Div(*c, y));
            if made { sum(x, y, i, k, l) } else { None }
        }
        (_, _, _, Slot::Void) => void_if(is_void_by_sum(dag, premises)),
        _ => None,
    }
}

// Whether rule 61 concludes VOID.
#[inline(never)]
fn is_void_by_sum(dag: &Dag, premises: &[Fact]) -> bool
    ensures { only_if result fact.Void ≡ relative_sum_rule dag.now premises.now slot.Void }
{
    let [first, second, third] = premises else {
        return false;
    };
    match (first, second, third) {
        (Fact::Rel(a, c, i), Fact::Rel(b, d, k), Fact::Bnd(q, l)) => {
            let known = dag.know_both(*a, *c) && dag.know_both(*b, *d);
            if known && is_share(dag, *q, *c, *d) {
                is_void(sum(*a, *c, i, k, l))
            } else {
                false
            }
        }
        _ => false,
    }
}

// Whether the expression is c / (c + d).
fn is_share(dag: &Dag, q: ExprId, c: ExprId, d: ExprId) -> bool
    ensures { result ≡ is_share dag.now (slice_get dag.now q.0) c d }
{
    match dag.get(q) {
        Some(Node::Div(n, m)) => n == c && dag.is_at(m, Node::Add(c, d)),
        _ => false,
    }
}

// I * L + K * ([1, 1] - L).
#[inline(always)]
fn weighted(i: Interval, k: Interval, l: Interval) -> Interval
    ensures { result ≡ weighted i k l }
{
    i.mul(l).add(k.mul(Interval::one().sub(l)))
}

fn rel_or_void(there: bool, x: ExprId, y: ExprId, error: RelativeError) -> Fact
    ensures { result ≡ rel_or_void there x y error }
{
    if there {
        Fact::Rel(x, y, Some(error))
    } else {
        Fact::Void
    }
}

// I * L + K * ([1, 1] - L), as relative errors.
#[inline(never)]
fn sum_error(i: &RelativeError, k: &RelativeError, l: &Interval) -> Option<RelativeError>
    ensures { result ≡ error_from (weighted i.now.interval k.now.interval l.now) }
{
    RelativeError::new(weighted(i.interval(), k.interval(), *l))
}

#[inline(always)]
fn sum(
    x: ExprId,
    y: ExprId,
    first: &Option<RelativeError>,
    second: &Option<RelativeError>,
    share: &Interval,
) -> Option<Fact>
    ensures { result ≡ sum_fact x y first.now second.now share.now }
{
    match (first, second) {
        (Some(i), Some(k)) => Fact::rel(x, y, sum_error(i, k, share)),
        (None, Some(k)) => Some(rel_or_void(share.has_zero(), x, y, *k)),
        (Some(i), None) => Some(rel_or_void(share.has_one(), x, y, *i)),
        (None, None) => Some(Fact::Void),
    }
}
