//! The expressions in order.

ghost use Rattle.std.specs.Prelude.{◌≡◌, ◌<◌, ◌≤◌, ◌↔◌, ◌++◌, ◌∷◌, [], ℕ, Some, length, slice_get};
ghost use Rattle.std.specs.Prelude.{map, IfOk, OnOk};
ghost use Rattle.fx_model.specs.declared.ExprId.{ExprId};
ghost use Rattle.fx_model.specs.declared.Node.{Node};
ghost use Rattle.fx_model.specs.declared.Node.TheVariants as node;
ghost use Rattle.expr_dag.specs.Nodes.{IsAt, IsAbsent};
ghost use Rattle.pair_closure.specs.Reached.{Has};
ghost use Rattle.pair_closure.specs.Grown.{IsGrown};
ghost use Rattle.pair_closure.specs.Closure.{Pair as Sides, AreKnown, difference_of, IsFollowed};
ghost use Rattle.pair_closure.specs.Differences.{IsBehind, sides_of, IsKnownDifference};

use crate::pairs::PairSet;
use expr_dag::Dag;
use fx_model::{ExprId, Node};
use std::alloc::{AllocError, Global};

// Adds the sides of a difference.
fn add_sides(pairs: &mut PairSet, node: Node) -> Result<(), AllocError>
    ensures { OnOk result (IsGrown pairs.old pairs.new (Has (sides_of node))) }
{
    match node {
        Node::Sub(a, b) => pairs.add(a, b),
        _ => Ok(()),
    }
}

// Adds the sides of each difference at this place and behind it.
fn add_behind(pairs: &mut PairSet, all: &Dag, from: u16) -> Result<(), AllocError>
    ensures { OnOk result (IsGrown pairs.old pairs.new (IsBehind all.now from (length all.now))) }
{
    for i in from..all.len() {
        add_sides(pairs, all.node(ExprId(i)))?;
    }
    Ok(())
}

// Adds a difference that isn't there. (That there is room for it is known to who calls.)
fn add_last(all: &mut Dag, a: ExprId, b: ExprId) -> Result<(), AllocError>
    requires left { a.0 < length all.old }
    requires right { b.0 < length all.old }
    requires absent { IsAbsent all.old (node.Sub a b) }
    ensures { OnOk result (all.new ≡ all.old ++ node.Sub a b ∷ []) }
{
    match all.add(Node::Sub(a, b)) {
        Ok(_) => Ok(()),
        Err(_) => Err(AllocError),
    }
}

// Adds the difference of each pair, none of which is there, in order.
fn add_in_order(all: &mut Dag, pairs: &PairSet) -> Result<(), AllocError>
    requires known { AreKnown all.old pairs.now }
    requires absent { (p : Sides) → Has pairs.now p → IsAbsent all.old (difference_of p) }
    ensures { OnOk result (all.new ≡ all.old ++ map difference_of pairs.now) }
{
    pairs.laws();
    for i in 0..pairs.len() {
        let (a, b) = pairs.pair(i);
        add_last(all, a, b)?;
    }
    Ok(())
}

/// The same nodes, first those of the script, and behind them differences by rising sides.
pub fn in_order(alloc: Global, script: &Dag, all: &Dag) -> Result<Dag, AllocError>
    requires begins { (x : ExprId) (n : Node) → IsAt script.now x n → IsAt all.now x n }
    requires others { (k : ℕ) (n : Node) → length script.now ≤ k → slice_get all.now k ≡ Some n
        → IsKnownDifference script.now n }
    ensures same { IfOk result (λ nodes. (n : Node) → Has nodes n ↔ Has all.now n) }
    ensures order { IfOk result (IsFollowed script.now) }
{
    all.laws();
    let mut pairs = PairSet::new(alloc);
    add_behind(&mut pairs, all, script.len())?;
    pairs.sort()?;
    let mut nodes = script.copy()?;
    add_in_order(&mut nodes, &pairs)?;
    Ok(nodes)
}
