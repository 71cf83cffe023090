// Each rule, at values that were worked out by hand.
use crate::conclusions::concludes;
use dyadic::{Dyadic, End};
use expr_dag::Dag;
use facts::{Fact, RelativeError};
use fx_model::{ExprId, Node};
use interval::Interval;
use std::process::Abort;
use std::test::Fail;
use theorem_rel::{
    rule_51, rule_52, rule_53, rule_54, rule_55, rule_56, rule_57, rule_58, rule_59, rule_60,
    rule_61,
};

// The expressions of the list, in its order: a, b, c, d, a - c, a / c, a * b, c * d, a / b, c / d,
// -a, -c, a + b, c + d, c / (c + d). There is no 15.
const A: u16 = 0;

const B: u16 = 1;

const C: u16 = 2;

const D: u16 = 3;

const DIFFERENCE: u16 = 4;

const QUOTIENT: u16 = 5;

const PRODUCTS: (u16, u16) = (6, 7);

const QUOTIENTS: (u16, u16) = (8, 9);

const NEGATIONS: (u16, u16) = (10, 11);

const SUMS: (u16, u16) = (12, 13);

const SHARE: u16 = 14;

// Ends from here on, on both sides, are infinite.
const INF: i64 = 100;

use Said::{Bnd, Nil, Nzr, On as on, Rel, Void, Zero, ZeroOn as zero};
use Slot::{Bnd as bnd, Rel as rel};

// A fact whose ends are so many eighths, or nothing; `Zero` is that both are 0. `On` and `ZeroOn`
// are of a pair.
#[derive(Clone, Copy)]
enum Said {
    Bnd(u16, i64, i64),
    Rel(u16, u16, i64, i64),
    On((u16, u16), i64, i64),
    Zero(u16, u16),
    ZeroOn((u16, u16)),
    Nzr(u16),
    Void,
    Nil,
}

// What a row asks for.
#[derive(Clone, Copy)]
enum Slot {
    Bnd(u16),
    Rel((u16, u16)),
    Void,
}

fn slot_of(asked: Slot) -> facts::Slot {
    match asked {
        bnd(x) => facts::Slot::Bnd(ExprId(x)),
        rel(pair) => facts::Slot::Rel(ExprId(pair.0), ExprId(pair.1)),
        Slot::Void => facts::Slot::Void,
    }
}

fn fill(dag: &mut Dag) -> Result<(), Fail> {
    let a = dag.add(Node::Var(0))?;
    let b = dag.add(Node::Var(1))?;
    let c = dag.add(Node::Var(2))?;
    let d = dag.add(Node::Var(3))?;
    dag.add(Node::Sub(a, c))?;
    dag.add(Node::Div(a, c))?;
    dag.add(Node::Mul(a, b))?;
    dag.add(Node::Mul(c, d))?;
    dag.add(Node::Div(a, b))?;
    dag.add(Node::Div(c, d))?;
    dag.add(Node::Neg(a))?;
    dag.add(Node::Neg(c))?;
    dag.add(Node::Add(a, b))?;
    let sum = dag.add(Node::Add(c, d))?;
    dag.add(Node::Div(c, sum))?;
    Ok(())
}

fn list(rt: &impl AllocGlobal) -> Result<Dag, Fail> {
    let mut dag = Dag::new(rt.alloc());
    fill(&mut dag)?;
    Ok(dag)
}

fn end(rt: &impl Abort, eighths: i64) -> End {
    if eighths <= -INF {
        End::Low
    } else if eighths >= INF {
        End::High
    } else {
        End::At(Dyadic::new(eighths, -3).expect(rt, "a number of the grid"))
    }
}

fn range(rt: &impl Abort, lo: i64, hi: i64) -> Interval {
    Interval::new(end(rt, lo), end(rt, hi)).expect(rt, "ends in order")
}

fn error(rt: &impl Abort, lo: i64, hi: i64) -> RelativeError {
    RelativeError::new(range(rt, lo, hi)).expect(rt, "above -1")
}

fn fact_of(rt: &impl Abort, said: Said) -> Option<Fact> {
    Some(match said {
        Bnd(x, lo, hi) => Fact::Bnd(ExprId(x), range(rt, lo, hi)),
        Rel(x, y, lo, hi) => Fact::Rel(ExprId(x), ExprId(y), Some(error(rt, lo, hi))),
        on(pair, lo, hi) => Fact::Rel(ExprId(pair.0), ExprId(pair.1), Some(error(rt, lo, hi))),
        Zero(x, y) => Fact::Rel(ExprId(x), ExprId(y), None),
        zero(pair) => Fact::Rel(ExprId(pair.0), ExprId(pair.1), None),
        Nzr(x) => Fact::Nzr(ExprId(x)),
        Void => Fact::Void,
        Nil => return None,
    })
}

fn fact(rt: &impl Abort, premise: Said) -> Fact {
    fact_of(rt, premise).expect(rt, "a premise")
}

fn rule(dag: &Dag, number: u8, premises: &[Fact], target: facts::Slot) -> Option<Fact> {
    match number {
        51 => rule_51(dag, premises, target),
        52 => rule_52(dag, premises, target),
        53 => rule_53(dag, premises, target),
        54 => rule_54(dag, premises, target),
        55 => rule_55(dag, premises, target),
        56 => rule_56(dag, premises, target),
        57 => rule_57(dag, premises, target),
        58 => rule_58(dag, premises, target),
        59 => rule_59(dag, premises, target),
        60 => rule_60(dag, premises, target),
        _ => rule_61(dag, premises, target),
    }
}

// Premises in their order; `Nil` stands for none.
fn found(
    rt: &impl Abort,
    dag: &Dag,
    number: u8,
    given: (Said, Said, Said),
    target: facts::Slot,
) -> Option<Fact> {
    match given {
        (a, Nil, _) => rule(dag, number, &[fact(rt, a)], target),
        (a, b, Nil) => rule(dag, number, &[fact(rt, a), fact(rt, b)], target),
        (a, b, c) => rule(
            dag,
            number,
            &[fact(rt, a), fact(rt, b), fact(rt, c)],
            target,
        ),
    }
}

fn try_rows(rt: &impl Abort, dag: &Dag, rows: &[(u8, (Said, Said, Said), Slot, Said)]) {
    for (number, given, target, wanted) in rows {
        let target = slot_of(*target);
        let found = found(rt, dag, *number, *given, target);
        concludes(rt, *number, target, found, fact_of(rt, *wanted));
    }
}

const AC: (u16, u16) = (A, C);

const BD: (u16, u16) = (B, D);

const VOID: Slot = Slot::Void;

const HALF: Said = on(AC, 4, 4);

const ERRORS_AND_BOUNDS: &[(u8, (Said, Said, Said), Slot, Said)] = &[
    (51, (Bnd(A, 1, 2), Nil, Nil), rel((A, A)), on((A, A), 0, 0)),
    (51, (Bnd(A, 1, 2), Nil, Nil), rel(AC), Nil),
    (51, (Bnd(15, 1, 2), Nil, Nil), rel((15, 15)), Nil),
    (
        52,
        (Bnd(DIFFERENCE, 8, 16), Bnd(C, 8, 16), Nil),
        rel(AC),
        on(AC, 4, 16),
    ),
    (
        52,
        (Bnd(DIFFERENCE, -8, 2), Bnd(C, 8, 16), Nil),
        rel(AC),
        Nil,
    ),
    (52, (Bnd(DIFFERENCE, 1, 2), Bnd(C, 0, 8), Nil), rel(AC), Nil),
    (
        52,
        (Bnd(DIFFERENCE, 1, 2), Bnd(A, 8, 16), Nil),
        rel(AC),
        Nil,
    ),
    (
        53,
        (on(AC, 4, 8), Bnd(C, 16, 24), Nil),
        bnd(DIFFERENCE),
        Bnd(DIFFERENCE, 8, 24),
    ),
    (
        53,
        (zero(AC), Bnd(C, -8, 8), Nil),
        bnd(DIFFERENCE),
        Bnd(DIFFERENCE, 0, 0),
    ),
    (53, (zero(AC), Bnd(C, 1, 8), Nil), bnd(DIFFERENCE), Void),
    (53, (zero(AC), Bnd(C, 1, 8), Nil), VOID, Void),
    (53, (zero(AC), Bnd(C, 0, 8), Nil), VOID, Nil),
    (53, (on(AC, 4, 8), Bnd(C, 1, 8), Nil), VOID, Nil),
    (
        54,
        (on(AC, 0, 8), Bnd(C, 8, 16), Nil),
        bnd(A),
        Bnd(A, 8, 32),
    ),
    (54, (on(AC, 0, 8), Bnd(C, 8, 16), Nil), bnd(C), Nil),
    (54, (zero(AC), Bnd(C, 0, 8), Nil), bnd(A), Bnd(A, 0, 0)),
    (54, (zero(AC), Bnd(C, 1, 8), Nil), bnd(A), Void),
    (54, (zero(AC), Bnd(C, 1, 8), Nil), VOID, Void),
    (
        55,
        (on(AC, -4, 4), Nzr(C), Nil),
        bnd(QUOTIENT),
        Bnd(QUOTIENT, 4, 12),
    ),
    (55, (zero(AC), Nzr(C), Nil), bnd(QUOTIENT), Void),
    (55, (zero(AC), Nzr(C), Nil), VOID, Void),
    (55, (on(AC, -4, 4), Nzr(C), Nil), VOID, Nil),
    (55, (on(AC, -4, 4), Nzr(A), Nil), bnd(QUOTIENT), Nil),
];

#[test]
fn relative_errors_and_bounds(rt: HostRuntime) -> Result<(), Fail> {
    let dag = list(&rt)?;
    try_rows(&rt, &dag, ERRORS_AND_BOUNDS);
    Ok(())
}

const OPERATIONS: &[(u8, (Said, Said, Said), Slot, Said)] = &[
    (
        56,
        (HALF, on(BD, 4, 4), Nil),
        rel(PRODUCTS),
        on(PRODUCTS, 10, 10),
    ),
    (56, (on(AC, -7, 0), on(BD, -4, 0), Nil), rel(PRODUCTS), Nil),
    (
        56,
        (zero(AC), on(BD, 4, 4), Nil),
        rel(PRODUCTS),
        zero(PRODUCTS),
    ),
    (56, (HALF, zero(BD), Nil), rel(PRODUCTS), zero(PRODUCTS)),
    (56, (zero(AC), zero(BD), Nil), rel(PRODUCTS), zero(PRODUCTS)),
    (56, (on(BD, 4, 4), HALF, Nil), rel(PRODUCTS), Nil),
    (
        57,
        (on(AC, 8, 8), on(BD, 0, 0), Nzr(D)),
        rel(QUOTIENTS),
        on(QUOTIENTS, 8, 8),
    ),
    (
        57,
        (on(AC, 0, 0), on(BD, 8, 8), Nzr(D)),
        rel(QUOTIENTS),
        on(QUOTIENTS, -4, -4),
    ),
    (
        57,
        (zero(AC), on(BD, 8, 8), Nzr(D)),
        rel(QUOTIENTS),
        zero(QUOTIENTS),
    ),
    (57, (HALF, zero(BD), Nzr(D)), rel(QUOTIENTS), Void),
    (57, (zero(AC), zero(BD), Nzr(D)), rel(QUOTIENTS), Void),
    (57, (zero(AC), zero(BD), Nzr(D)), VOID, Void),
    (57, (HALF, on(BD, 8, 8), Nzr(D)), VOID, Nil),
    (57, (HALF, on(BD, 8, 8), Nzr(C)), rel(QUOTIENTS), Nil),
    (
        58,
        (HALF, Rel(C, D, 4, 4), Nil),
        rel((A, D)),
        Rel(A, D, 10, 10),
    ),
    (58, (HALF, Zero(C, D), Nil), rel((A, D)), Zero(A, D)),
    (
        58,
        (zero(AC), Rel(C, D, 4, 4), Nil),
        rel((A, D)),
        Zero(A, D),
    ),
    (58, (HALF, on(BD, 4, 4), Nil), rel((A, D)), Nil),
    (58, (HALF, Rel(C, D, 4, 4), Nil), rel((D, A)), Nil),
    (59, (on(AC, 8, 8), Nil, Nil), rel((C, A)), Rel(C, A, -4, -4)),
    (59, (zero(AC), Nil, Nil), rel((C, A)), Zero(C, A)),
    (59, (on(AC, 8, 8), Nil, Nil), rel(AC), Nil),
    (60, (HALF, Nil, Nil), rel(NEGATIONS), on(NEGATIONS, 4, 4)),
    (60, (zero(AC), Nil, Nil), rel(NEGATIONS), zero(NEGATIONS)),
    (60, (on(BD, 4, 4), Nil, Nil), rel(NEGATIONS), Nil),
    (
        61,
        (on(AC, 8, 8), on(BD, 0, 0), Bnd(SHARE, 4, 4)),
        rel(SUMS),
        on(SUMS, 4, 4),
    ),
    (
        61,
        (on(AC, 0, 0), on(BD, 8, 8), Bnd(SHARE, 2, 2)),
        rel(SUMS),
        on(SUMS, 6, 6),
    ),
    (61, (HALF, HALF, Bnd(SHARE, 4, 4)), rel(SUMS), Nil),
    (
        61,
        (zero(AC), on(BD, 4, 4), Bnd(SHARE, 0, 4)),
        rel(SUMS),
        on(SUMS, 4, 4),
    ),
    (
        61,
        (zero(AC), on(BD, 4, 4), Bnd(SHARE, 1, 8)),
        rel(SUMS),
        Void,
    ),
    (
        61,
        (HALF, zero(BD), Bnd(SHARE, 4, 8)),
        rel(SUMS),
        on(SUMS, 4, 4),
    ),
    (61, (HALF, zero(BD), Bnd(SHARE, 0, 4)), rel(SUMS), Void),
    (61, (HALF, zero(BD), Bnd(SHARE, 0, 4)), VOID, Void),
    (61, (HALF, zero(BD), Bnd(SHARE, 0, 8)), VOID, Nil),
    (61, (zero(AC), zero(BD), Bnd(SHARE, 0, 8)), rel(SUMS), Void),
    (61, (zero(AC), zero(BD), Bnd(SHARE, 0, 8)), VOID, Void),
    (61, (zero(AC), on(BD, 4, 4), Bnd(SHARE, 1, 8)), VOID, Void),
    (61, (zero(AC), zero(BD), Bnd(QUOTIENT, 0, 8)), VOID, Nil),
];

#[test]
fn relative_errors_of_operations(rt: HostRuntime) -> Result<(), Fail> {
    let dag = list(&rt)?;
    try_rows(&rt, &dag, OPERATIONS);
    Ok(())
}
