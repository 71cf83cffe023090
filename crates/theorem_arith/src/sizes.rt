// Absolute values of operations.
ghost use Rattle.std.specs.Prelude.{◌≡◌};
ghost use Rattle.theorem_arith.specs.Sizes.{size_of_negation_rule, size_of_product_rule};
ghost use Rattle.theorem_arith.specs.Sizes.{size_within_part, size_of_quotient_rule, least_size};
ghost use Rattle.theorem_arith.specs.Sizes.{size_of_sum, size_of_sum_rule};

use dyadic::{End, greater};
use expr_dag::Dag;
use facts::{Fact, Size, Slot};
use fx_model::Node;
use interval::Interval;

/// From ABS(a, I): ABS(-a, I) (Gappa: `neg_a`).
#[inline(always)]
pub fn rule_16(dag: &Dag, premises: &[Fact], target: Slot) -> Option<Fact>
    ensures concludes { result ≡ size_of_negation_rule dag.now premises.now target }
{
    let [first] = premises else {
        return None;
    };
    match (*first, target) {
        (Fact::Abs(a, s), Slot::Abs(e)) => {
            if dag.is_at(e, Node::Neg(a)) {
                Some(Fact::Abs(e, s))
            } else {
                None
            }
        }
        _ => None,
    }
}

/// From ABS(a, I), ABS(b, J): ABS(a * b, I * J) (Gappa: `mul_aa`).
#[inline(always)]
pub fn rule_17(dag: &Dag, premises: &[Fact], target: Slot) -> Option<Fact>
    ensures concludes { result ≡ size_of_product_rule dag.now premises.now target }
{
    let [first, second] = premises else {
        return None;
    };
    match (*first, *second, target) {
        (Fact::Abs(a, s), Fact::Abs(b, t), Slot::Abs(e)) => {
            if dag.is_at(e, Node::Mul(a, b)) {
                Fact::abs(e, Size::within(s.interval().mul(t.interval())))
            } else {
                None
            }
        }
        _ => None,
    }
}

/// From ABS(a, I), ABS(b, J), where 0 isn't in J: ABS(a / b, I / J) (Gappa: `div_aa`).
#[inline(always)]
pub fn rule_18(dag: &Dag, premises: &[Fact], target: Slot) -> Option<Fact>
    ensures concludes { result ≡ size_of_quotient_rule dag.now premises.now target }
{
    let [first, second] = premises else {
        return None;
    };
    match (*first, *second, target) {
        (Fact::Abs(a, s), Fact::Abs(b, t), Slot::Abs(e)) => {
            if dag.is_at(e, Node::Div(a, b)) {
                Fact::abs(e, size_of_part(s.interval().div(t.interval())))
            } else {
                None
            }
        }
        _ => None,
    }
}

/// From ABS(a, [p, q]), ABS(b, [r, s]): ABS of a + b and of a - b in [max(0, p - s, r - q), q + s]
/// (Gappa: `add_aa`, `sub_aa`).
#[inline(always)]
pub fn rule_19(dag: &Dag, premises: &[Fact], target: Slot) -> Option<Fact>
    ensures concludes { result ≡ size_of_sum_rule dag.now premises.now target }
{
    let [first, second] = premises else {
        return None;
    };
    match (*first, *second, target) {
        (Fact::Abs(a, s), Fact::Abs(b, t), Slot::Abs(e)) => {
            if dag.is_at(e, Node::Add(a, b)) || dag.is_at(e, Node::Sub(a, b)) {
                Fact::abs(e, sum_of_sizes(s.interval(), t.interval()))
            } else {
                None
            }
        }
        _ => None,
    }
}

#[inline(always)]
fn size_of_part(part: Option<Interval>) -> Option<Size>
    ensures { result ≡ size_within_part part }
{
    match part {
        Some(i) => Size::within(i),
        None => None,
    }
}

// [max(0, p - s, r - q), q + s], rounded outward.
#[inline(always)]
fn sum_of_sizes(i: Interval, j: Interval) -> Option<Size>
    ensures { result ≡ size_of_sum i j }
{
    size_of_part(Interval::new(least(i, j), i.add(j).hi()))
}

#[inline(always)]
fn least(i: Interval, j: Interval) -> End
    ensures { result ≡ least_size i j }
{
    let zero = Interval::not_negative().lo();
    greater(greater(zero, i.sub(j).lo()), j.sub(i).lo())
}
