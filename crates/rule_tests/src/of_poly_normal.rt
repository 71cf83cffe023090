//! Hints that are the same, that differ, and that are too large.
ghost use Rattle.std.specs.Prelude.{◌<◌, ◌≤◌, length, IfOk};

use expr_dag::{Dag, DagFault};
use fx_model::{ExprId, Node};
use literal::read;
use poly_normal::{Sameness, same};
use std::process::Abort;
use std::test::Fail;

// This comes of the comparison of two expressions.
fn compares(
    rt: &(impl AllocGlobal + Abort),
    dag: &Dag,
    a: ExprId,
    b: ExprId,
    wanted: Sameness,
) -> Result<(), Fail>
    requires left { a.0 < length dag.now }
    requires right { b.0 < length dag.now }
{
    let found = same(rt.alloc(), dag, a, b)?;
    assert_eq!(rt; found, wanted, "{a:?} and {b:?}");
    Ok(())
}

// The expression times itself, so often.
fn squared(dag: &mut Dag, base: ExprId, times: u8) -> Result<ExprId, DagFault>
    requires { base.0 < length dag.old }
    ensures there { IfOk result (λ x. x.0 < length dag.new) }
    ensures longer { length dag.old ≤ length dag.new }
{
    let mut last = base;
    for _ in 0..times {
        last = dag.add(Node::Mul(last, last))?;
    }
    Ok(last)
}

fn quotients(rt: &(impl AllocGlobal + Abort), dag: &mut Dag) -> Result<(), Fail> {
    let x = dag.add(Node::Var(0))?;
    let quotient = dag.add(Node::Div(x, x))?;
    let back = dag.add(Node::Mul(quotient, x))?;
    let square = dag.add(Node::Mul(x, x))?;
    compares(rt, &*dag, back, x, Sameness::Same)?;
    compares(rt, &*dag, square, x, Sameness::Differs)
}

#[test]
fn a_quotient_times_its_divisor_is_the_dividend(rt: HostRuntime) -> Result<(), Fail> {
    let mut dag = Dag::new(rt.alloc());
    quotients(&rt, &mut dag)
}

fn degrees(rt: &(impl AllocGlobal + Abort), dag: &mut Dag) -> Result<(), Fail> {
    let x = dag.add(Node::Var(0))?;
    let last = squared(dag, x, 12)?;
    let past = dag.add(Node::Mul(last, x))?;
    compares(rt, &*dag, last, last, Sameness::Same)?;
    compares(rt, &*dag, past, past, Sameness::TooLarge)
}

#[test]
fn degrees_end_at_4096(rt: HostRuntime) -> Result<(), Fail> {
    let mut dag = Dag::new(rt.alloc());
    degrees(&rt, &mut dag)
}

fn literals(rt: &(impl AllocGlobal + Abort), dag: &mut Dag) -> Result<(), Fail> {
    let x = dag.add(Node::Var(0))?;
    let half = dag.add(Node::Lit(read("0.50")?))?;
    let binary = dag.add(Node::Lit(read("1b-1")?))?;
    let zero = dag.add(Node::Lit(read("0")?))?;
    let nothing = dag.add(Node::Sub(x, x))?;
    compares(rt, &*dag, half, binary, Sameness::Same)?;
    compares(rt, &*dag, nothing, zero, Sameness::Same)?;
    compares(rt, &*dag, half, zero, Sameness::Differs)
}

#[test]
fn literals_are_reduced_and_terms_cancel(rt: HostRuntime) -> Result<(), Fail> {
    let mut dag = Dag::new(rt.alloc());
    literals(&rt, &mut dag)
}

// The expression times the factor, so often.
fn times(dag: &mut Dag, base: ExprId, factor: ExprId, often: u8) -> Result<ExprId, DagFault>
    requires base { base.0 < length dag.old }
    requires factor { factor.0 < length dag.old }
    ensures there { IfOk result (λ x. x.0 < length dag.new) }
    ensures longer { length dag.old ≤ length dag.new }
{
    let mut last = base;
    for _ in 0..often {
        last = dag.add(Node::Mul(last, factor))?;
    }
    Ok(last)
}

fn factors(rt: &(impl AllocGlobal + Abort), dag: &mut Dag) -> Result<(), Fail> {
    let a = dag.add(Node::Var(0))?;
    let b = dag.add(Node::Var(1))?;
    let c = dag.add(Node::Var(2))?;
    let two = dag.add(Node::Add(a, b))?;
    let sum = dag.add(Node::Add(two, c))?;
    let grouped = squared(dag, sum, 3)?;
    let chain = times(dag, sum, sum, 7)?;
    let shorter = times(dag, sum, sum, 6)?;
    compares(rt, &*dag, grouped, chain, Sameness::Same)?;
    compares(rt, &*dag, grouped, shorter, Sameness::Differs)
}

#[test]
fn eight_factors_are_grouped_as_one_likes(rt: HostRuntime) -> Result<(), Fail> {
    let mut dag = Dag::new(rt.alloc());
    factors(&rt, &mut dag)
}

fn weights(rt: &(impl AllocGlobal + Abort), dag: &mut Dag) -> Result<(), Fail> {
    let x = dag.add(Node::Var(0))?;
    let y = dag.add(Node::Var(1))?;
    let light = dag.add(Node::Lit(read("1b126")?))?;
    let heavy = dag.add(Node::Lit(read("1b127")?))?;
    let size = dag.add(Node::Abs(x))?;
    let other = dag.add(Node::Abs(y))?;
    let closed = dag.add(Node::Abs(heavy))?;
    compares(rt, &*dag, light, light, Sameness::Same)?;
    compares(rt, &*dag, heavy, heavy, Sameness::TooLarge)?;
    compares(rt, &*dag, size, other, Sameness::Differs)?;
    compares(rt, &*dag, closed, closed, Sameness::Same)
}

#[test]
fn weights_end_at_2_127_and_atoms_stay_closed(rt: HostRuntime) -> Result<(), Fail> {
    let mut dag = Dag::new(rt.alloc());
    weights(&rt, &mut dag)
}

// The sum of the powers of x below the 256th: (1 + x) (1 + x^2) (1 + x^4) .. (1 + x^128).
fn sum_of_powers(dag: &mut Dag, one: ExprId, x: ExprId) -> Result<ExprId, DagFault>
    requires one { one.0 < length dag.old }
    requires base { x.0 < length dag.old }
    ensures there { IfOk result (λ y. y.0 < length dag.new) }
    ensures longer { length dag.old ≤ length dag.new }
{
    let mut last = one;
    for k in 0..8 {
        let power = squared(dag, x, k)?;
        let factor = dag.add(Node::Add(one, power))?;
        last = dag.add(Node::Mul(last, factor))?;
    }
    Ok(last)
}

fn terms(rt: &(impl AllocGlobal + Abort), dag: &mut Dag) -> Result<(), Fail> {
    let one = dag.add(Node::Lit(read("1")?))?;
    let x = dag.add(Node::Var(0))?;
    let all = sum_of_powers(dag, one, x)?;
    let next = squared(dag, x, 8)?;
    let past = dag.add(Node::Add(all, next))?;
    compares(rt, &*dag, all, all, Sameness::Same)?;
    compares(rt, &*dag, past, past, Sameness::TooLarge)
}

#[test]
fn terms_end_at_256(rt: HostRuntime) -> Result<(), Fail> {
    let mut dag = Dag::new(rt.alloc());
    terms(&rt, &mut dag)
}
