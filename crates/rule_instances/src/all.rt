//! The instances of all expressions, pairs and hints.

ghost use Rattle.std.specs.Prelude.{◌≡◌, ◌<◌, ◌++◌, length, IfOk, OnOk};
ghost use Rattle.expr_dag.specs.Nodes.{IsAt};
ghost use Rattle.pair_closure.specs.Reached.{Has, IsListOf};
ghost use Rattle.pair_closure.specs.Closure.{AreKnown};
ghost use Rattle.rule_instances.specs.Instances.{IsInstance};
ghost use Rattle.rule_instances.specs.Lists.{at_any, at_operation};
ghost use Rattle.rule_instances.specs.InOrder.{each_at, apart, of_node, one_left, one_right};
ghost use Rattle.rule_instances.specs.InOrder.{of_sides, of_difference, past_of, of_pair, of_hint};
ghost use Rattle.rule_instances.specs.InOrder.{instance_list};

use crate::differences::{add_at_error, add_at_terms, add_past_left, add_past_right};
use crate::hints::add_hint;
use crate::nodes::{add_any, add_operation};
use crate::rows::Rows;
use crate::sides::{add_at_pair, add_past_pair};
use expr_dag::Dag;
use facts::{HintRow, Instance};
use fx_model::{ExprId, Node};
use pair_closure::PairIndex;
use std::alloc::{AllocError, Global};

// Adds those of one expression.
fn add_node(rows: &mut Rows, x: ExprId, node: Node) -> Result<(), AllocError>
    ensures { OnOk result (rows.new ≡ rows.old ++ (at_any x ++ at_operation x node)) }
{
    add_any(rows, x)?;
    add_operation(rows, x, node)
}

/// Adds the instances that each expression has by itself, in the order of their numbers.
pub fn add_nodes(rows: &mut Rows, nodes: &Dag) -> Result<(), AllocError>
    ensures { OnOk result (rows.new ≡ rows.old ++ each_at of_node 0 nodes.now) }
{
    for i in 0..nodes.len() {
        add_node(rows, ExprId(i), nodes.node(ExprId(i)))?;
    }
    Ok(())
}

// Whether three expressions differ.
fn are_apart(a: ExprId, b: ExprId, c: ExprId) -> bool
    ensures { result ≡ apart a b c }
{
    a != b && b != c && a != c
}

// Adds what an expression gives that stands beside the first side of a difference.
fn add_one_left(
    rows: &mut Rows,
    nodes: &Dag,
    x: ExprId,
    a: ExprId,
    c: ExprId,
    b: ExprId,
) -> Result<(), AllocError>
    ensures { OnOk result (rows.new ≡ rows.old ++ one_left nodes.now x a c 0 b) }
{
    if are_apart(a, b, c) {
        add_past_left(rows, nodes, x, a, c, b)
    } else {
        Ok(())
    }
}

fn add_one_right(
    rows: &mut Rows,
    nodes: &Dag,
    x: ExprId,
    a: ExprId,
    c: ExprId,
    b: ExprId,
) -> Result<(), AllocError>
    ensures { OnOk result (rows.new ≡ rows.old ++ one_right nodes.now x a c 0 b) }
{
    if are_apart(a, b, c) {
        add_past_right(rows, nodes, x, a, c, b)
    } else {
        Ok(())
    }
}

fn add_all_left(
    rows: &mut Rows,
    nodes: &Dag,
    row: &[ExprId],
    x: ExprId,
    a: ExprId,
    c: ExprId,
) -> Result<(), AllocError>
    ensures { OnOk result (rows.new ≡ rows.old ++ each_at (one_left nodes.now x a c) 0 row.now) }
{
    for b in row {
        add_one_left(rows, nodes, x, a, c, *b)?;
    }
    Ok(())
}

fn add_all_right(
    rows: &mut Rows,
    nodes: &Dag,
    row: &[ExprId],
    x: ExprId,
    a: ExprId,
    c: ExprId,
) -> Result<(), AllocError>
    ensures { OnOk result (rows.new ≡ rows.old ++ each_at (one_right nodes.now x a c) 0 row.now) }
{
    for b in row {
        add_one_right(rows, nodes, x, a, c, *b)?;
    }
    Ok(())
}

// Adds those of a difference x = a - c.
fn add_difference(
    rows: &mut Rows,
    nodes: &Dag,
    pairs: &PairIndex,
    x: ExprId,
    a: ExprId,
    c: ExprId,
) -> Result<(), AllocError>
    requires left { a.0 < length nodes.now }
    requires right { c.0 < length nodes.now }
    ensures { OnOk result (rows.new ≡ rows.old ++ of_sides nodes.now pairs.now x a c) }
{
    let (left, right) = (pairs.beside(a), pairs.beside(c));
    let (m, n) = (nodes.node(a), nodes.node(c));
    add_at_error(rows, x, m, c)?;
    add_at_terms(rows, nodes, x, m, n)?;
    add_all_left(rows, nodes, left, x, a, c)?;
    add_all_right(rows, nodes, right, x, a, c)
}

// Adds those of an expression that is a difference.
fn add_if_difference(
    rows: &mut Rows,
    nodes: &Dag,
    pairs: &PairIndex,
    x: ExprId,
    node: Node,
) -> Result<(), AllocError>
    requires { IsAt nodes.now x node }
    ensures { OnOk result (rows.new ≡ rows.old ++ of_difference nodes.now pairs.now x.0 node) }
{
    nodes.laws();
    match node {
        Node::Sub(a, c) => add_difference(rows, nodes, pairs, x, a, c),
        _ => Ok(()),
    }
}

// Adds those of all differences.
fn add_differences(rows: &mut Rows, nodes: &Dag, pairs: &PairIndex) -> Result<(), AllocError>
    ensures { OnOk result (rows.new
        ≡ rows.old ++ each_at (of_difference nodes.now pairs.now) 0 nodes.now) }
{
    for i in 0..nodes.len() {
        add_if_difference(rows, nodes, pairs, ExprId(i), nodes.node(ExprId(i)))?;
    }
    Ok(())
}

// Adds those of a pair past a third expression.
fn add_all_past(
    rows: &mut Rows,
    pairs: &PairIndex,
    row: &[ExprId],
    x: ExprId,
    y: ExprId,
) -> Result<(), AllocError>
    ensures { OnOk result (rows.new ≡ rows.old ++ each_at (past_of pairs.now x y) 0 row.now) }
{
    for c in row {
        add_past_pair(rows, pairs, x, y, *c)?;
    }
    Ok(())
}

// Adds those of a pair.
fn add_pair(
    rows: &mut Rows,
    nodes: &Dag,
    pairs: &PairIndex,
    x: ExprId,
    y: ExprId,
) -> Result<(), AllocError>
    requires first { x.0 < length nodes.now }
    requires second { y.0 < length nodes.now }
    ensures { OnOk result (rows.new ≡ rows.old ++ of_pair nodes.now pairs.now 0 (x, y)) }
{
    let row = pairs.beside(y);
    add_at_pair(rows, nodes, pairs, (x, y), nodes.node(x), nodes.node(y))?;
    add_all_past(rows, pairs, row, x, y)
}

// Adds those of all pairs.
fn add_pairs(rows: &mut Rows, nodes: &Dag, pairs: &PairIndex) -> Result<(), AllocError>
    requires { AreKnown nodes.now pairs.now }
    ensures { OnOk result (rows.new
        ≡ rows.old ++ each_at (of_pair nodes.now pairs.now) 0 pairs.now) }
{
    let list = pairs.pairs();
    for i in 0..list.len() {
        let (x, y) = list.pair(i);
        add_pair(rows, nodes, pairs, x, y)?;
    }
    Ok(())
}

// Adds those of all hints.
fn add_hints(rows: &mut Rows, hints: &[HintRow]) -> Result<(), AllocError>
    requires { length hints.now < 65536 }
    ensures { OnOk result (rows.new ≡ rows.old ++ each_at of_hint 0 hints.now) }
{
    for i in 0..hints.len() {
        add_hint(rows, i as u16, &hints[i])?;
    }
    Ok(())
}

/// The instances of the rules over expressions, pairs and hints: exactly these, each once, those of
/// expressions first, then those of differences, of pairs and of hints, each kind in the order of
/// its list.
pub fn instances_of(
    alloc: Global,
    nodes: &Dag,
    pairs: &PairIndex,
    hints: &[HintRow],
) -> Result<Vec<Instance>, AllocError>
    requires known { AreKnown nodes.now pairs.now }
    requires few { length hints.now < 65536 }
    ensures exactly { IfOk result
        (λ list. IsListOf (IsInstance nodes.now (Has pairs.now) hints.now) list.items) }
    ensures order { IfOk result (λ list. list.items ≡ instance_list nodes.now pairs.now hints.now) }
{
    nodes.laws();
    pairs.laws();
    let mut rows = Rows::new(alloc);
    add_nodes(&mut rows, nodes)?;
    add_differences(&mut rows, nodes, pairs)?;
    add_pairs(&mut rows, nodes, pairs)?;
    add_hints(&mut rows, hints)?;
    Ok(rows.into_vec())
}
