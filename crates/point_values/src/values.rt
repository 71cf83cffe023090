//! The values of nodes, from those of their parts. A part without a value leaves the node without
//! one.

ghost use Rattle.std.specs.Prelude.{◌≡◌, Some, map, slice_index_or};
ghost use Rattle.fx_model.specs.Fraction.{◌+ℚ◌, ◌-ℚ◌, ◌*ℚ◌, neg_ℚ, abs_ℚ, zero_ℚ};
ghost use Rattle.fx_model.specs.Rounded as table;
ghost use Rattle.fx_model.specs.Expression as spec;
ghost use Rattle.fx_model.specs.Expression.{lift₁, lift₂, literal_value};
ghost use Rattle.literal.specs.Normal.{IsNormal};
ghost use Rattle.exact_fractions.specs.Exact.{value_of};
ghost use Rattle.exact_fractions.specs.Wide.{numbers_of, sum_numbers, difference_numbers};
ghost use Rattle.exact_fractions.specs.Wide.{rounding_numbers};
ghost use Rattle.expr_dag.specs.Nodes.{IsInLimits};
ghost use Rattle.point_values.specs.Known.{fraction_of, values_of, GivesValue};
ghost use Rattle.point_values.specs.Numbers.{of_value, of_values, product_numbers};
ghost use Rattle.point_values.specs.Numbers.{quotient_numbers, node_numbers};

use exact_fractions::Exact;
use fx_model::{ExprId, Literal, Node, Rounding};

/// The value of an expression, if it has one.
pub fn value_at(values: &[Option<Exact>], x: ExprId) -> Option<Exact>
    ensures { fraction_of result ≡ values_of values.now x }
{
    match values.get(usize::from(x.0)) {
        Some(value) => *value,
        None => None,
    }
}

#[tactic(auto, using(crate::proofs::Divisors::past_end))]
fn entry(entries: &[Exact], number: u16) -> Exact
    ensures { value_of result ≡ slice_index_or (map value_of entries.now) number zero_ℚ }
{
    match entries.get(usize::from(number)) {
        Some(x) => *x,
        None => Exact::zero(),
    }
}

fn literal(l: Literal) -> Option<Option<Exact>>
    requires { IsNormal l }
    ensures { GivesValue (numbers_of (literal_value l)) (Some (literal_value l)) result }
{
    match Exact::of_literal(l) {
        Some(x) => Some(Some(x)),
        None => None,
    }
}

fn negative(x: Option<Exact>) -> Option<Exact>
    ensures { fraction_of result ≡ lift₁ neg_ℚ (fraction_of x) }
{
    match x {
        Some(x) => Some(x.neg()),
        None => None,
    }
}

fn absolute(x: Option<Exact>) -> Option<Exact>
    ensures { fraction_of result ≡ lift₁ abs_ℚ (fraction_of x) }
{
    match x {
        Some(x) => Some(x.abs()),
        None => None,
    }
}

fn sum(x: Option<Exact>, y: Option<Exact>) -> Option<Option<Exact>>
    ensures { GivesValue (of_values sum_numbers (fraction_of x) (fraction_of y))
        (lift₂ ◌+ℚ◌ (fraction_of x) (fraction_of y)) result }
{
    let Some(x) = x else {
        return Some(None);
    };
    let Some(y) = y else {
        return Some(None);
    };
    match x.sum(y) {
        Some(z) => Some(Some(z)),
        None => None,
    }
}

fn difference(x: Option<Exact>, y: Option<Exact>) -> Option<Option<Exact>>
    ensures { GivesValue (of_values difference_numbers (fraction_of x) (fraction_of y))
        (lift₂ ◌-ℚ◌ (fraction_of x) (fraction_of y)) result }
{
    let Some(x) = x else {
        return Some(None);
    };
    let Some(y) = y else {
        return Some(None);
    };
    match x.difference(y) {
        Some(z) => Some(Some(z)),
        None => None,
    }
}

fn product(x: Option<Exact>, y: Option<Exact>) -> Option<Option<Exact>>
    ensures { GivesValue (of_values product_numbers (fraction_of x) (fraction_of y))
        (lift₂ ◌*ℚ◌ (fraction_of x) (fraction_of y)) result }
{
    let Some(x) = x else {
        return Some(None);
    };
    let Some(y) = y else {
        return Some(None);
    };
    match x.product(y) {
        Some(z) => Some(Some(z)),
        None => None,
    }
}

fn quotient(x: Option<Exact>, y: Option<Exact>) -> Option<Option<Exact>>
    ensures { GivesValue (of_values quotient_numbers (fraction_of x) (fraction_of y))
        (spec.quotient (fraction_of x) (fraction_of y)) result }
{
    let Some(x) = x else {
        return Some(None);
    };
    let Some(y) = y else {
        return Some(None);
    };
    if y.is_zero() {
        return Some(None);
    }
    match x.quotient(y) {
        Some(z) => Some(Some(z)),
        None => None,
    }
}

fn rounded(x: Option<Exact>, r: Rounding) -> Option<Option<Exact>>
    ensures { GivesValue (of_value (rounding_numbers r.dir r.lsb) (fraction_of x))
        (lift₁ (table.rounded r.dir r.lsb) (fraction_of x)) result }
{
    let Some(x) = x else {
        return Some(None);
    };
    match x.rounded(r) {
        Some(z) => Some(Some(z)),
        None => None,
    }
}

/// The value of a node, from the entries of variables and the values of the nodes before it; no
/// answer exactly where one of
/// its numbers is too wide.
pub fn node_value(entries: &[Exact], values: &[Option<Exact>], node: Node) -> Option<Option<Exact>>
    requires { IsInLimits node }
    ensures { GivesValue (node_numbers (values_of values.now) node)
        (spec.node_value (map value_of entries.now) (values_of values.now) node) result }
{
    match node {
        Node::Var(number) => Some(Some(entry(entries, number))),
        Node::Lit(l) => literal(l),
        Node::Neg(x) => Some(negative(value_at(values, x))),
        Node::Add(x, y) => sum(value_at(values, x), value_at(values, y)),
        Node::Sub(x, y) => difference(value_at(values, x), value_at(values, y)),
        Node::Mul(x, y) => product(value_at(values, x), value_at(values, y)),
        Node::Div(x, y) => quotient(value_at(values, x), value_at(values, y)),
        Node::Abs(x) => Some(absolute(value_at(values, x))),
        Node::Round(r, x) => rounded(value_at(values, x), r),
    }
}
