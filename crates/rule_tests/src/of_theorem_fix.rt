// The rules on multiples and on values other than 0, at values that were worked out by hand.
use crate::conclusions::concludes;
use dyadic::{Dyadic, End};
use expr_dag::Dag;
use facts::{Fact, FixPlace, RelativeError, Size};
use fx_model::{Direction, ExprId, Node, Rounding};
use interval::Interval;
use std::process::Abort;
use std::test::Fail;
use theorem_fix::{
    rule_21, rule_22, rule_23, rule_24, rule_25, rule_26, rule_27, rule_28, rule_31, rule_32,
    rule_33, rule_34, rule_35, rule_36, rule_41, rule_42, rule_43, rule_44, rule_90,
};

// The expressions of the list, in its order: x, y, -x, x + y, x - y, x * y, x / y, and x rounded to
// multiples of 2^-4. There is no 8.
const X: u16 = 0;

const Y: u16 = 1;

const NEG: u16 = 2;

const SUM: u16 = 3;

const SUB: u16 = 4;

const MUL: u16 = 5;

const DIV: u16 = 6;

const RND: u16 = 7;

/// Ends from here on, on both sides, are infinite.
pub const INF: i64 = 100;

pub use Given::{No, One, Two};
pub use Said::{A, B, Equal, F, N, Near, Nil, V};
pub use Slot::{Bnd as bnd, Fix as fix, Nzr as nzr};

/// A fact with whole ends, or nothing. `Near` is a relative error from 0 to 1, `Equal` that both
/// sides are 0.
#[derive(Clone, Copy)]
pub enum Said {
    B(u16, i64, i64),
    A(u16, i64, i64),
    F(u16, i16),
    N(u16),
    Near(u16, u16),
    Equal(u16, u16),
    V,
    Nil,
}

/// The premises of a row: none, one or two.
#[derive(Clone, Copy)]
pub enum Given {
    No,
    One(Said),
    Two(Said, Said),
}

/// What a row asks for: the bounds of an expression, what it is a multiple of, that it isn't 0, or
/// a contradiction.
#[derive(Clone, Copy)]
pub enum Slot {
    Bnd(u16),
    Fix(u16),
    Nzr(u16),
    Void,
}

fn slot_of(asked: Slot) -> facts::Slot {
    match asked {
        bnd(x) => facts::Slot::Bnd(ExprId(x)),
        fix(x) => facts::Slot::Fix(ExprId(x)),
        nzr(x) => facts::Slot::Nzr(ExprId(x)),
        Slot::Void => facts::Slot::Void,
    }
}

fn fill(dag: &mut Dag) -> Result<(), Fail> {
    let x = dag.add(Node::Var(0))?;
    let y = dag.add(Node::Var(1))?;
    dag.add(Node::Neg(x))?;
    dag.add(Node::Add(x, y))?;
    dag.add(Node::Sub(x, y))?;
    dag.add(Node::Mul(x, y))?;
    dag.add(Node::Div(x, y))?;
    dag.add(Node::Round(
        Rounding {
            lsb: -4,
            dir: Direction::Ne,
        },
        x,
    ))?;
    Ok(())
}

fn list(rt: &impl AllocGlobal) -> Result<Dag, Fail> {
    let mut dag = Dag::new(rt.alloc());
    fill(&mut dag)?;
    Ok(dag)
}

fn end(rt: &impl Abort, whole: i64) -> End {
    if whole <= -INF {
        End::Low
    } else if whole >= INF {
        End::High
    } else {
        End::At(Dyadic::new(whole, 0).expect(rt, "a number of the grid"))
    }
}

fn range(rt: &impl Abort, lo: i64, hi: i64) -> Interval {
    Interval::new(end(rt, lo), end(rt, hi)).expect(rt, "ends in order")
}

fn size(rt: &impl Abort, lo: i64, hi: i64) -> Size {
    Size::new(range(rt, lo, hi)).expect(rt, "at least 0")
}

fn error(rt: &impl Abort) -> RelativeError {
    RelativeError::new(range(rt, 0, 1)).expect(rt, "above -1")
}

fn fact_of(rt: &impl Abort, said: Said) -> Option<Fact> {
    Some(match said {
        B(x, lo, hi) => Fact::Bnd(ExprId(x), range(rt, lo, hi)),
        A(x, lo, hi) => Fact::Abs(ExprId(x), size(rt, lo, hi)),
        F(x, k) => Fact::Fix(ExprId(x), FixPlace::new(k).expect(rt, "a place")),
        N(x) => Fact::Nzr(ExprId(x)),
        Near(x, y) => Fact::Rel(ExprId(x), ExprId(y), Some(error(rt))),
        Equal(x, y) => Fact::Rel(ExprId(x), ExprId(y), None),
        V => Fact::Void,
        Nil => return None,
    })
}

fn fact(rt: &impl Abort, premise: Said) -> Fact {
    fact_of(rt, premise).expect(rt, "a premise")
}

fn rule(dag: &Dag, number: u8, premises: &[Fact], target: facts::Slot) -> Option<Fact> {
    match number {
        21 => rule_21(dag, premises, target),
        22 => rule_22(dag, premises, target),
        23 => rule_23(dag, premises, target),
        24 => rule_24(dag, premises, target),
        25 => rule_25(dag, premises, target),
        26 => rule_26(dag, premises, target),
        27 => rule_27(dag, premises, target),
        28 => rule_28(dag, premises, target),
        31 => rule_31(dag, premises, target),
        32 => rule_32(dag, premises, target),
        33 => rule_33(dag, premises, target),
        34 => rule_34(dag, premises, target),
        35 => rule_35(dag, premises, target),
        36 => rule_36(dag, premises, target),
        41 => rule_41(dag, premises, target),
        42 => rule_42(dag, premises, target),
        43 => rule_43(dag, premises, target),
        44 => rule_44(dag, premises, target),
        _ => rule_90(dag, premises, target),
    }
}

fn found(
    rt: &impl Abort,
    dag: &Dag,
    number: u8,
    given: Given,
    target: facts::Slot,
) -> Option<Fact> {
    match given {
        No => rule(dag, number, &[], target),
        One(a) => rule(dag, number, &[fact(rt, a)], target),
        Two(a, b) => rule(dag, number, &[fact(rt, a), fact(rt, b)], target),
    }
}

/// Tries each row: the rule with this number, from these premises and at this target, gives what is
/// said.
pub fn try_rows(rt: &impl Abort, dag: &Dag, rows: &[(u8, Given, Slot, Said)]) {
    for (number, given, target, wanted) in rows {
        let target = slot_of(*target);
        let found = found(rt, dag, *number, *given, target);
        concludes(rt, *number, target, found, fact_of(rt, *wanted));
    }
}

const MULTIPLES: &[(u8, Given, Slot, Said)] = &[
    (22, One(F(X, -3)), fix(NEG), F(NEG, -3)),
    (22, One(F(Y, -3)), fix(NEG), Nil),
    (22, One(F(X, -3)), fix(SUM), Nil),
    (22, One(F(X, -3)), Slot::Void, Nil),
    (23, Two(F(X, -3), F(Y, 5)), fix(SUM), F(SUM, -3)),
    (23, Two(F(X, 5), F(Y, -3)), fix(SUB), F(SUB, -3)),
    (23, Two(F(Y, 5), F(X, -3)), fix(SUM), Nil),
    (23, One(F(X, 5)), fix(SUM), Nil),
    (24, Two(F(X, -3), F(Y, 5)), fix(MUL), F(MUL, 2)),
    (24, Two(F(X, 300), F(Y, 300)), fix(MUL), F(MUL, 512)),
    (24, Two(F(X, -512), F(Y, -512)), fix(MUL), F(MUL, -1024)),
    (24, Two(F(X, -513), F(Y, -512)), fix(MUL), Nil),
    (24, Two(F(X, -3), F(Y, 5)), fix(SUM), Nil),
    (25, One(B(X, -1, INF)), fix(RND), F(RND, -4)),
    (25, One(B(Y, 1, 2)), fix(RND), Nil),
    (25, One(B(X, 1, 2)), fix(NEG), Nil),
    (26, One(F(X, -4)), fix(RND), F(RND, -4)),
    (26, One(F(X, 7)), fix(RND), F(RND, 7)),
    (26, One(F(X, -5)), fix(RND), Nil),
    (26, One(F(Y, 7)), fix(RND), Nil),
    (27, One(B(X, 12, 12)), fix(X), F(X, 2)),
    (27, One(B(X, -1, -1)), fix(X), F(X, 0)),
    (27, One(B(X, 0, 0)), fix(X), F(X, 512)),
    (27, One(B(X, 1, 2)), fix(X), Nil),
    (27, One(B(X, -INF, INF)), fix(X), Nil),
    (27, One(B(X, 12, 12)), fix(Y), Nil),
    (27, One(B(8, 12, 12)), fix(8), Nil),
];

#[test]
fn multiples_are_those_of_the_rows(rt: HostRuntime) -> Result<(), Fail> {
    let dag = list(&rt)?;
    try_rows(&rt, &dag, MULTIPLES);
    Ok(())
}

const NONZERO: &[(u8, Given, Slot, Said)] = &[
    (31, One(B(X, 1, 2)), nzr(X), N(X)),
    (31, One(B(X, -INF, -1)), nzr(X), N(X)),
    (31, One(B(X, 0, 1)), nzr(X), Nil),
    (31, One(B(X, -1, 0)), nzr(X), Nil),
    (31, One(B(X, 1, 2)), nzr(Y), Nil),
    (31, One(B(8, 1, 2)), nzr(8), Nil),
    (32, One(A(X, 1, INF)), nzr(X), N(X)),
    (32, One(A(X, 0, 3)), nzr(X), Nil),
    (32, One(A(X, 1, 2)), nzr(Y), Nil),
    (33, Two(N(X), N(Y)), nzr(MUL), N(MUL)),
    (33, Two(N(Y), N(X)), nzr(MUL), Nil),
    (33, Two(N(X), N(Y)), nzr(DIV), Nil),
    (34, Two(N(X), N(Y)), nzr(DIV), N(DIV)),
    (34, Two(N(X), N(Y)), nzr(SUM), Nil),
    (35, One(N(X)), nzr(NEG), N(NEG)),
    (35, One(N(NEG)), nzr(X), Nil),
    (36, Two(Near(X, Y), N(X)), nzr(Y), N(Y)),
    (36, Two(Near(X, Y), N(Y)), nzr(X), N(X)),
    (36, Two(Near(X, X), N(X)), nzr(X), N(X)),
    (36, Two(Near(X, Y), N(X)), nzr(X), Nil),
    (36, Two(Near(X, Y), N(Y)), Slot::Void, Nil),
    (36, Two(Equal(X, Y), N(X)), nzr(Y), V),
    (36, Two(Equal(X, Y), N(Y)), Slot::Void, V),
    (36, Two(Equal(X, Y), N(NEG)), Slot::Void, Nil),
    (36, Two(Equal(X, Y), N(NEG)), nzr(X), Nil),
    (36, Two(Equal(X, 8), N(X)), nzr(8), Nil),
];

#[test]
fn nonzero_values_are_those_of_the_rows(rt: HostRuntime) -> Result<(), Fail> {
    let dag = list(&rt)?;
    try_rows(&rt, &dag, NONZERO);
    Ok(())
}
