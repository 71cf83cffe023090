// Each rule, at values that were worked out by hand.
use crate::conclusions::concludes;
use dyadic::{Dyadic, End};
use expr_dag::Dag;
use facts::{Fact, Size};
use fx_model::{ExprId, Node};
use interval::Interval;
use literal::read;
use std::process::Abort;
use std::test::Fail;
use theorem_arith::{
    rule_1, rule_2, rule_3, rule_4, rule_5, rule_6, rule_7, rule_8, rule_9, rule_10, rule_11,
    rule_12, rule_13, rule_14, rule_15, rule_16, rule_17, rule_18, rule_19,
};

// The expressions of the list, in its order: x, y, 0.1, -x, x + y, x - y, x * y, x / y, |x|, x - x,
// x * x, x / x. There is no 12.
const X: u16 = 0;

const Y: u16 = 1;

const TENTH: u16 = 2;

const NEG: u16 = 3;

const SUM: u16 = 4;

const SUB: u16 = 5;

const MUL: u16 = 6;

const DIV: u16 = 7;

const SIZE: u16 = 8;

const NOTHING: u16 = 9;

const SQUARE: u16 = 10;

const UNIT: u16 = 11;

// Ends from here on, on both sides, are infinite.
const INF: i64 = 100;

use Given::{No, One, Two};
use Said::{A, B, N, Nil, Tenth, V};
use Slot::{Abs as abs, Bnd as bnd};

// A fact with whole ends, or nothing; `Tenth` is the bound of 0.1.
#[derive(Clone, Copy)]
enum Said {
    B(u16, i64, i64),
    A(u16, i64, i64),
    N(u16),
    V,
    Tenth,
    Nil,
}

// Premises.
#[derive(Clone, Copy)]
enum Given {
    No,
    One(Said),
    Two(Said, Said),
}

// What a row asks for.
#[derive(Clone, Copy)]
enum Slot {
    Bnd(u16),
    Abs(u16),
    Void,
}

fn slot_of(asked: Slot) -> facts::Slot {
    match asked {
        bnd(x) => facts::Slot::Bnd(ExprId(x)),
        abs(x) => facts::Slot::Abs(ExprId(x)),
        Slot::Void => facts::Slot::Void,
    }
}

fn fill(dag: &mut Dag) -> Result<(), Fail> {
    let x = dag.add(Node::Var(0))?;
    let y = dag.add(Node::Var(1))?;
    dag.add(Node::Lit(read("0.1")?))?;
    dag.add(Node::Neg(x))?;
    dag.add(Node::Add(x, y))?;
    dag.add(Node::Sub(x, y))?;
    dag.add(Node::Mul(x, y))?;
    dag.add(Node::Div(x, y))?;
    dag.add(Node::Abs(x))?;
    dag.add(Node::Sub(x, x))?;
    dag.add(Node::Mul(x, x))?;
    dag.add(Node::Div(x, x))?;
    Ok(())
}

fn list(rt: &impl AllocGlobal) -> Result<Dag, Fail> {
    let mut dag = Dag::new(rt.alloc());
    fill(&mut dag)?;
    Ok(dag)
}

fn number(rt: &impl Abort, m: i64, e: i32) -> End {
    End::At(Dyadic::new(m, e).expect(rt, "a number of the grid"))
}

fn end(rt: &impl Abort, whole: i64) -> End {
    if whole <= -INF {
        End::Low
    } else if whole >= INF {
        End::High
    } else {
        number(rt, whole, 0)
    }
}

fn range(rt: &impl Abort, lo: End, hi: End) -> Interval {
    Interval::new(lo, hi).expect(rt, "ends in order")
}

fn size(rt: &impl Abort, interval: Interval) -> Size {
    Size::new(interval).expect(rt, "at least 0")
}

// 0.1 * 2^63 is 922337203685477580.8.
fn tenth(rt: &impl Abort) -> Interval {
    let low = 922337203685477580;
    range(rt, number(rt, low, -63), number(rt, low + 1, -63))
}

fn fact_of(rt: &impl Abort, said: Said) -> Option<Fact> {
    Some(match said {
        B(x, lo, hi) => Fact::Bnd(ExprId(x), range(rt, end(rt, lo), end(rt, hi))),
        A(x, lo, hi) => Fact::Abs(ExprId(x), size(rt, range(rt, end(rt, lo), end(rt, hi)))),
        N(x) => Fact::Nzr(ExprId(x)),
        V => Fact::Void,
        Tenth => Fact::Bnd(ExprId(TENTH), tenth(rt)),
        Nil => return None,
    })
}

fn fact(rt: &impl Abort, premise: Said) -> Fact {
    fact_of(rt, premise).expect(rt, "a premise")
}

fn rule(dag: &Dag, number: u8, premises: &[Fact], target: facts::Slot) -> Option<Fact> {
    match number {
        1 => rule_1(dag, premises, target),
        2 => rule_2(dag, premises, target),
        3 => rule_3(dag, premises, target),
        4 => rule_4(dag, premises, target),
        5 => rule_5(dag, premises, target),
        6 => rule_6(dag, premises, target),
        7 => rule_7(dag, premises, target),
        8 => rule_8(dag, premises, target),
        9 => rule_9(dag, premises, target),
        10 => rule_10(dag, premises, target),
        11 => rule_11(dag, premises, target),
        12 => rule_12(dag, premises, target),
        13 => rule_13(dag, premises, target),
        14 => rule_14(dag, premises, target),
        15 => rule_15(dag, premises, target),
        16 => rule_16(dag, premises, target),
        17 => rule_17(dag, premises, target),
        18 => rule_18(dag, premises, target),
        _ => rule_19(dag, premises, target),
    }
}

fn found(
    rt: &impl Abort,
    dag: &Dag,
    number: u8,
    given: Given,
    target: facts::Slot,
) -> Option<Fact> {
    match given {
        No => rule(dag, number, &[], target),
        One(a) => rule(dag, number, &[fact(rt, a)], target),
        Two(a, b) => rule(dag, number, &[fact(rt, a), fact(rt, b)], target),
    }
}

fn try_rows(rt: &impl Abort, dag: &Dag, rows: &[(u8, Given, Slot, Said)]) {
    for (number, given, target, wanted) in rows {
        let target = slot_of(*target);
        let found = found(rt, dag, *number, *given, target);
        concludes(rt, *number, target, found, fact_of(rt, *wanted));
    }
}

const BOUNDS: &[(u8, Given, Slot, Said)] = &[
    (1, No, bnd(TENTH), Tenth),
    (1, No, bnd(X), Nil),
    (1, No, bnd(12), Nil),
    (1, One(B(TENTH, 0, 1)), bnd(TENTH), Nil),
    (1, No, abs(TENTH), Nil),
    (2, One(B(X, 1, 2)), bnd(NEG), B(NEG, -2, -1)),
    (2, One(B(Y, 1, 2)), bnd(NEG), Nil),
    (2, One(A(X, 1, 2)), bnd(NEG), Nil),
    (2, One(B(X, 1, 2)), Slot::Void, Nil),
    (3, Two(B(X, 1, 2), B(Y, 3, 5)), bnd(SUM), B(SUM, 4, 7)),
    (3, Two(B(Y, 3, 5), B(X, 1, 2)), bnd(SUM), Nil),
    (4, Two(B(X, 1, 2), B(Y, 3, 5)), bnd(SUB), B(SUB, -4, -1)),
    (4, One(B(X, 1, 2)), bnd(SUB), Nil),
    (5, One(B(X, -1, INF)), bnd(NOTHING), B(NOTHING, 0, 0)),
    (5, One(B(X, -1, 1)), bnd(SUB), Nil),
    (6, Two(B(X, -1, 2), B(Y, 3, 5)), bnd(MUL), B(MUL, -5, 10)),
    (6, Two(B(X, -1, 2), B(Y, 3, 5)), bnd(SUM), Nil),
    (7, One(A(X, 2, 3)), bnd(SQUARE), B(SQUARE, 4, 9)),
    (7, One(B(X, 2, 3)), bnd(SQUARE), Nil),
    (8, Two(B(X, 4, 8), B(Y, 1, 2)), bnd(DIV), B(DIV, 2, 8)),
    (8, Two(B(X, 4, 8), B(Y, 0, 2)), bnd(DIV), Nil),
    (8, Two(B(X, 4, 8), B(Y, -1, 0)), bnd(DIV), Nil),
    (9, Two(B(X, 4, 8), N(Y)), bnd(DIV), B(DIV, -INF, INF)),
    (9, Two(B(X, 4, 8), N(X)), bnd(DIV), Nil),
    (10, One(N(X)), bnd(UNIT), B(UNIT, 1, 1)),
    (10, One(N(X)), bnd(DIV), Nil),
];

#[test]
fn bounds_are_those_of_the_rows(rt: HostRuntime) -> Result<(), Fail> {
    let dag = list(&rt)?;
    try_rows(&rt, &dag, BOUNDS);
    Ok(())
}

const ABSOLUTE_VALUES: &[(u8, Given, Slot, Said)] = &[
    (11, One(B(X, -3, 2)), abs(X), A(X, 0, 3)),
    (11, One(B(X, -3, 2)), abs(Y), Nil),
    (11, One(B(12, 1, 2)), abs(12), Nil),
    (12, One(A(X, 2, 3)), bnd(X), B(X, -3, 3)),
    (12, One(A(X, 2, 3)), bnd(Y), Nil),
    (13, Two(B(X, -1, 9), A(X, 2, 3)), bnd(X), B(X, 2, 3)),
    (13, Two(B(X, -9, 1), A(X, 2, 3)), bnd(X), B(X, -3, -2)),
    (13, Two(B(X, -1, 1), A(X, 2, 3)), bnd(X), V),
    (13, Two(B(X, -1, 1), A(X, 2, 3)), Slot::Void, V),
    (13, Two(B(X, -1, 9), A(X, 2, 3)), Slot::Void, Nil),
    (13, Two(B(X, -2, 2), A(X, 2, 3)), bnd(X), Nil),
    (13, Two(B(X, -1, 9), A(Y, 2, 3)), bnd(X), Nil),
    (14, One(A(X, 2, 3)), bnd(SIZE), B(SIZE, 2, 3)),
    (14, One(A(X, 2, 3)), bnd(NEG), Nil),
    (15, One(B(SIZE, -1, 3)), abs(X), A(X, 0, 3)),
    (15, One(B(SIZE, -3, -1)), abs(X), V),
    (15, One(B(SIZE, -3, -1)), Slot::Void, V),
    (15, One(B(SIZE, -3, 0)), Slot::Void, Nil),
    (15, One(B(NEG, -3, -1)), Slot::Void, Nil),
    (16, One(A(X, 2, 3)), abs(NEG), A(NEG, 2, 3)),
    (16, One(A(X, 2, 3)), abs(SUM), Nil),
    (17, Two(A(X, 2, 3), A(Y, 4, 5)), abs(MUL), A(MUL, 8, 15)),
    (17, Two(A(X, 2, 3), A(Y, 4, INF)), abs(MUL), A(MUL, 0, INF)),
    (17, Two(A(X, 2, 3), A(Y, 4, 5)), abs(DIV), Nil),
    (18, Two(A(X, 4, 8), A(Y, 1, 2)), abs(DIV), A(DIV, 2, 8)),
    (18, Two(A(X, 4, 8), A(Y, 0, 2)), abs(DIV), Nil),
    (19, Two(A(X, 1, 2), A(Y, 5, 9)), abs(SUM), A(SUM, 3, 11)),
    (19, Two(A(X, 1, 6), A(Y, 5, 9)), abs(SUB), A(SUB, 0, 15)),
    (19, Two(A(X, 12, 13), A(Y, 5, 9)), abs(SUB), A(SUB, 3, 22)),
    (19, Two(A(X, 1, 2), A(Y, 5, 9)), abs(MUL), Nil),
];

#[test]
fn absolute_values_are_those_of_the_rows(rt: HostRuntime) -> Result<(), Fail> {
    let dag = list(&rt)?;
    try_rows(&rt, &dag, ABSOLUTE_VALUES);
    Ok(())
}
