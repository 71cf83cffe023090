// The rules on literals, roundings and the multiples in an interval, at values that were worked out
// by hand.
use crate::conclusions::concludes;
use crate::of_theorem_fix::{
    B, F, Given, INF, Nil, No, One, Said, Slot, Two, V, bnd, fix, try_rows,
};
use dyadic::{Dyadic, End};
use expr_dag::Dag;
use facts::Fact;
use fx_model::{Direction, ExprId, Node, Rounding};
use interval::Interval;
use literal::read;
use std::process::Abort;
use std::test::Fail;
use theorem_fix::rule_42;

// The expressions of the list, in its order: x, y, x rounded to multiples of 8 in four directions,
// its four errors, those of the last against y and the other way round, and literals. There is no
// 16.
const X: u16 = 0;

const Y: u16 = 1;

const ZR: u16 = 2;

const AW: u16 = 3;

const DN: u16 = 4;

const NE: u16 = 5;

const ZR_ERROR: u16 = 6;

const AW_ERROR: u16 = 7;

const DN_ERROR: u16 = 8;

const NE_ERROR: u16 = 9;

const OF_ANOTHER: u16 = 10;

const TURNED: u16 = 11;

const TWELVE: u16 = 12;

const TENTH: u16 = 13;

const NOUGHT: u16 = 14;

const GREAT: u16 = 15;

fn fill(dag: &mut Dag) -> Result<(), Fail> {
    let x = dag.add(Node::Var(0))?;
    let y = dag.add(Node::Var(1))?;
    let zr = dag.add(Node::Round(
        Rounding {
            lsb: 3,
            dir: Direction::Zr,
        },
        x,
    ))?;
    let aw = dag.add(Node::Round(
        Rounding {
            lsb: 3,
            dir: Direction::Aw,
        },
        x,
    ))?;
    let dn = dag.add(Node::Round(
        Rounding {
            lsb: 3,
            dir: Direction::Dn,
        },
        x,
    ))?;
    let ne = dag.add(Node::Round(
        Rounding {
            lsb: 3,
            dir: Direction::Ne,
        },
        x,
    ))?;
    dag.add(Node::Sub(zr, x))?;
    dag.add(Node::Sub(aw, x))?;
    dag.add(Node::Sub(dn, x))?;
    dag.add(Node::Sub(ne, x))?;
    dag.add(Node::Sub(ne, y))?;
    dag.add(Node::Sub(x, ne))?;
    dag.add(Node::Lit(read("12")?))?;
    dag.add(Node::Lit(read("0.1")?))?;
    dag.add(Node::Lit(read("0")?))?;
    dag.add(Node::Lit(read("16b512")?))?;
    Ok(())
}

fn list(rt: &impl AllocGlobal) -> Result<Dag, Fail> {
    let mut dag = Dag::new(rt.alloc());
    fill(&mut dag)?;
    Ok(dag)
}

const LITERALS: &[(u8, Given, Slot, Said)] = &[
    (21, No, fix(TWELVE), F(TWELVE, 2)),
    (21, No, fix(TENTH), Nil),
    (21, No, fix(NOUGHT), F(NOUGHT, 512)),
    (21, No, fix(GREAT), F(GREAT, 512)),
    (21, No, fix(X), Nil),
    (21, No, fix(16), Nil),
    (21, No, bnd(TWELVE), Nil),
    (21, One(F(TWELVE, 2)), fix(TWELVE), Nil),
    (28, Two(B(X, 1, 9), F(X, 2)), bnd(X), B(X, 4, 8)),
    (28, Two(B(X, -INF, 9), F(X, 2)), bnd(X), B(X, -INF, 8)),
    (28, Two(B(X, -9, 3), F(X, 3)), bnd(X), B(X, -8, 0)),
    (28, Two(B(X, 1, 9), F(X, -600)), bnd(X), B(X, 1, 9)),
    (28, Two(B(X, 1, 3), F(X, 2)), bnd(X), Nil),
    (28, Two(B(X, 1, 3), F(X, 2)), Slot::Void, Nil),
    (28, Two(B(X, 1, 9), F(Y, 2)), bnd(X), Nil),
    (28, Two(B(X, 1, 9), F(X, 2)), bnd(Y), Nil),
    (28, Two(B(16, 1, 9), F(16, 2)), bnd(16), Nil),
    (90, Two(B(X, 1, 3), F(X, 2)), Slot::Void, V),
    (90, Two(B(X, 1, 4), F(X, 2)), Slot::Void, Nil),
    (90, Two(B(X, 1, INF), F(X, 2)), Slot::Void, Nil),
    (90, Two(B(X, 1, 3), F(Y, 2)), Slot::Void, Nil),
    (90, Two(B(X, 1, 3), F(X, 2)), bnd(X), Nil),
    (90, Two(B(16, 1, 3), F(16, 2)), Slot::Void, Nil),
];

#[test]
fn literals_and_shrunk_intervals_are_those_of_the_rows(rt: HostRuntime) -> Result<(), Fail> {
    let dag = list(&rt)?;
    try_rows(&rt, &dag, LITERALS);
    Ok(())
}

const ROUNDINGS: &[(u8, Given, Slot, Said)] = &[
    (41, One(B(X, 9, 15)), bnd(ZR), B(ZR, 8, 8)),
    (41, One(B(X, 9, 15)), bnd(AW), B(AW, 16, 16)),
    (41, One(B(X, -9, 12)), bnd(DN), B(DN, -16, 8)),
    (41, One(B(X, -12, 12)), bnd(NE), B(NE, -16, 16)),
    (41, One(B(X, -INF, 9)), bnd(ZR), B(ZR, -INF, 8)),
    (41, One(B(Y, 9, 15)), bnd(ZR), Nil),
    (41, One(B(X, 9, 15)), fix(ZR), Nil),
    (42, One(B(X, 1, 2)), bnd(ZR_ERROR), B(ZR_ERROR, -8, 8)),
    (42, One(B(X, 1, 2)), bnd(DN_ERROR), B(DN_ERROR, -8, 0)),
    (42, One(B(X, 1, 2)), bnd(NE_ERROR), B(NE_ERROR, -4, 4)),
    (42, One(B(X, 1, 2)), bnd(OF_ANOTHER), Nil),
    (42, One(B(Y, 1, 2)), bnd(OF_ANOTHER), Nil),
    (42, One(B(X, 1, 2)), bnd(TURNED), Nil),
    (43, One(B(X, 0, 5)), bnd(ZR_ERROR), B(ZR_ERROR, -8, 0)),
    (43, One(B(X, 0, 5)), bnd(AW_ERROR), B(AW_ERROR, 0, 8)),
    (43, One(B(X, -5, 0)), bnd(ZR_ERROR), B(ZR_ERROR, 0, 8)),
    (43, One(B(X, -5, 0)), bnd(AW_ERROR), B(AW_ERROR, -8, 0)),
    (43, One(B(X, 0, 0)), bnd(AW_ERROR), B(AW_ERROR, 0, 0)),
    (43, One(B(X, -1, 1)), bnd(ZR_ERROR), Nil),
    (43, One(B(X, 1, 5)), bnd(DN_ERROR), Nil),
    (44, One(F(X, 3)), bnd(DN_ERROR), B(DN_ERROR, 0, 0)),
    (44, One(F(X, 1)), bnd(DN_ERROR), B(DN_ERROR, -6, 0)),
    (44, One(F(X, 1)), bnd(AW_ERROR), B(AW_ERROR, -6, 6)),
    (44, One(F(X, 1)), bnd(NE_ERROR), B(NE_ERROR, -4, 4)),
    (44, One(F(X, -99)), bnd(DN_ERROR), B(DN_ERROR, -8, 0)),
    (44, One(F(Y, 1)), bnd(DN_ERROR), Nil),
];

#[test]
fn roundings_are_those_of_the_rows(rt: HostRuntime) -> Result<(), Fail> {
    let dag = list(&rt)?;
    try_rows(&rt, &dag, ROUNDINGS);
    Ok(())
}

fn half_of_the_last_place(rt: &impl Abort, dag: &mut Dag) -> Result<(), Fail> {
    let x = dag.add(Node::Var(0))?;
    let near = dag.add(Node::Round(
        Rounding {
            lsb: -512,
            dir: Direction::Nu,
        },
        x,
    ))?;
    let error = dag.add(Node::Sub(near, x))?;
    let last = Dyadic::new(1, -512).expect(rt, "the least number above 0");
    let wanted = Interval::new(End::At(last.neg()), End::At(last));
    let premise = Fact::Bnd(x, Interval::whole());
    let target = facts::Slot::Bnd(error);
    let found = rule_42(&*dag, &[premise], target);
    concludes(rt, 42, target, found, Fact::bnd(error, wanted));
    Ok(())
}

// The grid has no half of its last place.
#[test]
fn half_of_the_last_place_is_rounded_outward(rt: HostRuntime) -> Result<(), Fail> {
    let mut dag = Dag::new(rt.alloc());
    half_of_the_last_place(&rt, &mut dag)
}
