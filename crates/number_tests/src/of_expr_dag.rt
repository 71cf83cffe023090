//! A list that fills up, a copy of one, and spellings that share a node.
ghost use Rattle.std.specs.Prelude.{◌<◌, length, IfOk};

use crate::equals::{equal, holds};
use expr_dag::{Dag, DagFault};
use fx_model::{Direction, ExprId, Node, Rounding};
use literal::read;
use std::process::Abort;
use std::test::Fail;

fn sends<X: Send>(value: &X) {
    let _ = value;
}

fn shares<X: Sync>(value: &X) {
    let _ = value;
}

// A list may go to other threads, and may be read by several.
fn goes_to_other_threads(dag: &Dag) {
    sends(dag);
    shares(dag);
}

// 1,024 nodes, of which the last has this number.
fn fill(dag: &mut Dag) -> Result<ExprId, DagFault>
    ensures { IfOk result (λ last. last.0 < length dag.new) }
{
    let mut last = dag.add(Node::Var(0))?;
    for _ in 0..1023 {
        last = dag.add(Node::Neg(last))?;
    }
    Ok(last)
}

fn is_full(rt: &impl Abort, dag: &mut Dag, last: ExprId)
    requires { last.0 < length dag.old }
{
    equal(rt, "all", dag.len(), 1024);
    equal(
        rt,
        "one more",
        dag.add(Node::Neg(last)),
        Err(DagFault::Full),
    );
    equal(rt, "the first", dag.add(Node::Var(0)), Ok(ExprId(0)));
    equal(
        rt,
        "the second",
        dag.add(Node::Neg(ExprId(0))),
        Ok(ExprId(1)),
    );
    equal(rt, "all still", dag.len(), 1024);
}

#[test]
fn fills_up_with_1_023_negations(rt: HostRuntime) -> Result<(), Fail> {
    let mut dag = Dag::new(rt.alloc());
    let last = fill(&mut dag)?;
    is_full(&rt, &mut dag, last);
    goes_to_other_threads(&dag);
    Ok(())
}

const ROUNDING: Rounding = Rounding {
    lsb: -8,
    dir: Direction::Ne,
};

// x, y, their sum, and its rounding, which has this number.
fn put_rounded(dag: &mut Dag) -> Result<ExprId, DagFault>
    ensures { IfOk result (λ rounded. rounded.0 < length dag.new) }
{
    let x = dag.add(Node::Var(0))?;
    let y = dag.add(Node::Var(1))?;
    let sum = dag.add(Node::Add(x, y))?;
    dag.add(Node::Round(ROUNDING, sum))
}

fn has_rounded(rt: &impl Abort, copy: &Dag, rounded: ExprId)
    requires { rounded.0 < length copy.now }
{
    let (x, y, sum) = (ExprId(0), ExprId(1), ExprId(2));
    equal(rt, "all", copy.len(), 4);
    equal(rt, "the sum", copy.find(Node::Add(x, y)), Some(sum));
    equal(rt, "exchanged", copy.find(Node::Add(y, x)), None);
    let found = copy.find(Node::Round(ROUNDING, sum));
    equal(rt, "rounded", found, Some(rounded));
    equal(
        rt,
        "the last",
        copy.node(rounded),
        Node::Round(ROUNDING, sum),
    );
}

#[test]
fn copies_find_the_same_nodes(rt: HostRuntime) -> Result<(), Fail> {
    let mut dag = Dag::new(rt.alloc());
    let rounded = put_rounded(&mut dag)?;
    let copy = dag.copy()?;
    drop(dag);
    has_rounded(&rt, &copy, rounded);
    Ok(())
}

fn put_literal(dag: &mut Dag, text: &str) -> Result<ExprId, Fail> {
    Ok(dag.add(Node::Lit(read(text)?))?)
}

fn put_halves(rt: &impl Abort, dag: &mut Dag) -> Result<(), Fail> {
    dag.add(Node::Var(0))?;
    let half = put_literal(dag, "0.5")?;
    let again = put_literal(dag, "0.50")?;
    equal(rt, "again", half, again);
    let binary = put_literal(dag, "1b-1")?;
    equal(rt, "all", dag.len(), 3);
    holds(rt, "binary", binary != half);
    Ok(())
}

#[test]
fn two_spellings_share_a_node(rt: HostRuntime) -> Result<(), Fail> {
    let mut dag = Dag::new(rt.alloc());
    put_halves(&rt, &mut dag)
}
