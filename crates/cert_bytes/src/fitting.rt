//! That the numbers of an item have room in their fields, which their types keep.
ghost use Rattle.std.specs.Prelude.{◌≤◌, length, IfSome};
ghost use Rattle.std.specs.List.{AllByRecursion};
ghost use Rattle.dyadic.specs.Rising.{IsRising};
ghost use Rattle.cert_bytes.specs.Certificates.{Fits, HasRoomFor, HasShortParts, IsLong, IsOnShort};

use crate::cut_points::CutPoints;
use crate::item::{Item, StepRow};
use facts::Fact;
use fx_model::Node;

// Nothing is done. The clause tells a caller that the references have room in their fields.
fn references_fit(refs: &[u64])
    ensures { AllByRecursion IsLong refs.now }
{
    let _refs = refs;
}

// Nothing is done. The clause tells a caller that the step has room in its field.
fn with_fits(with: Option<u64>)
    ensures { IfSome with IsLong }
{
    if let Some(step) = with {
        let _step = step;
    }
}

// Nothing is done. The clause tells a caller that the node's numbers have room in their fields.
fn node_fits(node: Node)
    ensures { HasShortParts node }
{
    match node {
        Node::Var(n) => {
            let _n = n;
        }
        Node::Lit(_) => {}
        Node::Neg(x) | Node::Abs(x) | Node::Round(_, x) => {
            let _x = x.0;
        }
        Node::Add(x, y) | Node::Sub(x, y) | Node::Mul(x, y) | Node::Div(x, y) => {
            let _x = x.0;
            let _y = y.0;
        }
    }
}

// Nothing is done. The clause tells a caller that the fact's nodes have room in their fields.
fn fact_fits(fact: Fact)
    ensures { IsOnShort fact }
{
    match fact {
        Fact::Bnd(x, _) | Fact::Abs(x, _) | Fact::Fix(x, _) | Fact::Nzr(x) => {
            let _x = x.0;
        }
        Fact::Rel(x, y, _) => {
            let _x = x.0;
            let _y = y.0;
        }
        Fact::Void => {}
    }
}

// Nothing is done. The clause tells a caller that the step's numbers have room in their fields.
fn step_fits(row: &StepRow)
    ensures { HasRoomFor row.now }
{
    let _rule = row.rule;
    let _arg = row.arg;
    fact_fits(row.fact);
    with_fits(row.with);
    references_fit(row.premises.as_slice());
}

// Nothing is done. The clauses tell a caller that there are few points, which rise.
fn points_fit(points: &CutPoints)
    ensures few { length points.now ≤ 63 }
    ensures rising { IsRising points.now }
{
    let _count = points.points().len();
    points.points().rising();
}

/// Nothing is done. The clause tells a caller that the item's numbers have room in their fields.
pub fn item_fits(item: &Item)
    ensures { Fits item.now }
{
    match item {
        Item::Nodes(n) | Item::Marks(n) => {
            let _n = *n;
        }
        Item::Node(node) => node_fits(*node),
        Item::Mark(_) | Item::Cases(_) | Item::End => {}
        Item::Step(row) => step_fits(row),
        Item::Cut(x, points) => {
            let _x = x.0;
            points_fit(points);
        }
        Item::Leaf(refs) => references_fit(refs.as_slice()),
        Item::Dead(step) => {
            let _step = *step;
        }
    }
}
