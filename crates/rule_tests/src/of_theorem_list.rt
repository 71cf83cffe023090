// The numbers that aren't in the list, and one that is.
use crate::conclusions::concludes;
use dyadic::Dyadic;
use expr_dag::Dag;
use facts::{Fact, HintRow, Slot};
use fx_edge::Items;
use fx_model::{ExprId, Node};
use interval::Interval;
use std::process::Abort;
use std::test::Fail;
use theorem_list::{
    conclude, conclusions_are_isotone, conclusions_are_sound, conclusions_stay_on_target,
};

// A whole number alone.
fn point(rt: &impl Abort, whole: i64) -> Interval {
    Interval::point(Dyadic::new(whole, 0).expect(rt, "a number of the grid"))
}

// A number, its arg, and whether it concludes that 1 + 1 is 2.
const NUMBERS: &[(u8, u16, bool)] = &[
    (3, 0, true),
    (3, 1, false),
    (4, 0, false),
    (0, 0, false),
    (20, 0, false),
    (23, 0, false),
    (28, 0, false),
    (37, 0, false),
    (62, 0, false),
    (80, 0, false),
    (200, 0, false),
];

fn try_numbers(rt: &impl Abort, dag: &Dag, one: Fact, sum: ExprId, two: Fact) {
    for (number, arg, is_shown) in NUMBERS {
        let target = Slot::Bnd(sum);
        let found = conclude(dag, &[], *number, *arg, &[one, one], target);
        let wanted = if *is_shown { Some(two) } else { None };
        concludes(rt, *number, target, found, wanted);
    }
}

fn only_numbers(rt: &impl Abort, dag: &mut Dag) -> Result<(), Fail> {
    let x = dag.add(Node::Var(0))?;
    let sum = dag.add(Node::Add(x, x))?;
    let one = Fact::Bnd(x, point(rt, 1));
    let two = Fact::Bnd(sum, point(rt, 2));
    try_numbers(rt, &*dag, one, sum, two);
    Ok(())
}

#[test]
fn only_numbers_of_the_list_conclude(rt: HostRuntime) -> Result<(), Fail> {
    let mut dag = Dag::new(rt.alloc());
    only_numbers(&rt, &mut dag)
}

// The hint `x -> y`, with no divisors and no constraints.
fn hint(rt: &impl AllocGlobal, x: ExprId, y: ExprId) -> HintRow {
    HintRow {
        left: x,
        right: y,
        divisors: Items::from_vec(Vec::new(rt.alloc())),
        needs: Items::from_vec(Vec::new(rt.alloc())),
    }
}

fn try_args(rt: &impl Abort, dag: &Dag, hints: &[HintRow], x: ExprId, y: ExprId) {
    for (arg, is_shown) in &[(0, false), (1, true), (2, false)] {
        let target = Slot::Nzr(x);
        let found = conclude(dag, hints, 80, *arg, &[Fact::Nzr(y)], target);
        let wanted = if *is_shown { Some(Fact::Nzr(x)) } else { None };
        concludes(rt, 80, target, found, wanted);
    }
}

fn args(rt: &(impl AllocGlobal + Abort), dag: &mut Dag) -> Result<(), Fail> {
    let x = dag.add(Node::Var(0))?;
    let y = dag.add(Node::Var(1))?;
    let z = dag.add(Node::Var(2))?;
    let hints = [hint(rt, z, y), hint(rt, x, y)];
    try_args(rt, &*dag, &hints, x, y);
    Ok(())
}

#[test]
fn arg_is_the_number_of_a_hint(rt: HostRuntime) -> Result<(), Fail> {
    conclusions_are_sound();
    conclusions_are_isotone();
    conclusions_stay_on_target();
    let mut dag = Dag::new(rt.alloc());
    args(&rt, &mut dag)
}
