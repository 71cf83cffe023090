// Each rule, at values that were worked out by hand.
use crate::conclusions::concludes;
use dyadic::{Dyadic, End};
use expr_dag::Dag;
use facts::{Fact, FixPlace, HintRow, Need, RelativeError, Size, Slot};
use fx_edge::Items;
use fx_model::{ExprId, Node};
use interval::Interval;
use rewrite_rules::{
    rule_71, rule_72, rule_73, rule_74, rule_75, rule_76, rule_77, rule_78, rule_80, rule_91,
    rule_92,
};
use std::process::Abort;
use std::test::Fail;

// The expressions of the list, in its order: a, b, c, d, then a - c, b - d, a + b, c + d, a - b,
// c - d, a * b, c * d, -a, -c and differences of two. There is no 20.
const A: u16 = 0;

const B: u16 = 1;

const C: u16 = 2;

const D: u16 = 3;

const AC: u16 = 4;

const BD: u16 = 5;

const AB: u16 = 8;

const SUMS: u16 = 14;

const DIFFERENCES: u16 = 15;

const PRODUCTS: u16 = 16;

const NEGATIONS: u16 = 17;

const BC: u16 = 18;

const CB: u16 = 19;

// Ends from here on, on both sides, are infinite.
const INF: i64 = 100;

fn fill(dag: &mut Dag) -> Result<(), Fail> {
    let a = dag.add(Node::Var(0))?;
    let b = dag.add(Node::Var(1))?;
    let c = dag.add(Node::Var(2))?;
    let d = dag.add(Node::Var(3))?;
    dag.add(Node::Sub(a, c))?;
    dag.add(Node::Sub(b, d))?;
    let sum = dag.add(Node::Add(a, b))?;
    let other_sum = dag.add(Node::Add(c, d))?;
    let difference = dag.add(Node::Sub(a, b))?;
    let other_difference = dag.add(Node::Sub(c, d))?;
    let product = dag.add(Node::Mul(a, b))?;
    let other_product = dag.add(Node::Mul(c, d))?;
    let negation = dag.add(Node::Neg(a))?;
    let other_negation = dag.add(Node::Neg(c))?;
    dag.add(Node::Sub(sum, other_sum))?;
    dag.add(Node::Sub(difference, other_difference))?;
    dag.add(Node::Sub(product, other_product))?;
    dag.add(Node::Sub(negation, other_negation))?;
    dag.add(Node::Sub(b, c))?;
    dag.add(Node::Sub(c, b))?;
    Ok(())
}

fn list(rt: &impl AllocGlobal) -> Result<Dag, Fail> {
    let mut dag = Dag::new(rt.alloc());
    fill(&mut dag)?;
    Ok(dag)
}

fn end(rt: &impl Abort, whole: i64) -> End {
    if whole <= -INF {
        End::Low
    } else if whole >= INF {
        End::High
    } else {
        End::At(Dyadic::new(whole, 0).expect(rt, "a number of the grid"))
    }
}

// A bound, as expression and whole ends.
type Bound = (u16, i64, i64);

fn bnd(rt: &impl Abort, bound: Bound) -> Fact {
    let (x, lo, hi) = bound;
    let range = Interval::new(end(rt, lo), end(rt, hi)).expect(rt, "ends in order");
    Fact::Bnd(ExprId(x), range)
}

fn rule(dag: &Dag, number: u8, premises: &[Fact], target: Slot) -> Option<Fact> {
    match number {
        71 => rule_71(dag, premises, target),
        72 => rule_72(dag, premises, target),
        74 => rule_74(dag, premises, target),
        75 => rule_75(dag, premises, target),
        76 => rule_76(dag, premises, target),
        77 => rule_77(dag, premises, target),
        _ => rule_78(dag, premises, target),
    }
}

// A rule, two bounds, an expression, and the ends of its bounds.
type Row = (u8, Bound, Bound, u16, Option<(i64, i64)>);

const DIFFERENCES_AND_SUMS: &[Row] = &[
    (71, (AC, 1, 2), (BD, 3, 5), SUMS, Some((4, 7))),
    (71, (BD, 3, 5), (AC, 1, 2), SUMS, None),
    (71, (AC, 1, 2), (BD, 3, 5), DIFFERENCES, None),
    (72, (AC, 1, 2), (BD, 3, 5), DIFFERENCES, Some((-4, -1))),
    (72, (AC, 1, 2), (BD, 3, 5), 20, None),
    (75, (AB, 1, 2), (BC, 3, INF), AC, Some((4, INF))),
    (75, (AB, 1, 2), (CB, 3, 5), AC, None),
    (75, (AC, 1, 2), (CB, 3, 5), AB, Some((4, 7))),
    (76, (AB, 1, 2), (CB, 3, 5), AC, Some((-4, -1))),
    (76, (AB, 1, 2), (BC, 3, 5), AC, None),
    (77, (C, 1, 2), (AC, 3, 5), A, Some((4, 7))),
    (77, (A, 1, 2), (AC, 3, 5), C, None),
    (78, (A, 1, 2), (AC, 3, 5), C, Some((-4, -1))),
    (78, (C, 1, 2), (AC, 3, 5), A, None),
];

fn wanted_on(rt: &impl Abort, on: u16, wanted: Option<(i64, i64)>) -> Option<Fact> {
    match wanted {
        Some((lo, hi)) => Some(bnd(rt, (on, lo, hi))),
        None => None,
    }
}

fn try_differences(rt: &impl Abort, dag: &Dag) {
    for (number, first, second, x, wanted) in DIFFERENCES_AND_SUMS {
        let premises = [bnd(rt, *first), bnd(rt, *second)];
        let found = rule(dag, *number, &premises, on(*x));
        concludes(rt, *number, on(*x), found, wanted_on(rt, *x, *wanted));
    }
}

#[test]
fn differences_are_those_of_the_rows(rt: HostRuntime) -> Result<(), Fail> {
    let dag = list(&rt)?;
    try_differences(&rt, &dag);
    Ok(())
}

fn on(x: u16) -> Slot {
    Slot::Bnd(ExprId(x))
}

fn try_products(rt: &impl Abort, dag: &Dag) {
    let given = [
        bnd(rt, (A, 2, 3)),
        bnd(rt, (BD, 1, 1)),
        bnd(rt, (AC, -1, 1)),
        bnd(rt, (D, 0, 4)),
    ];
    let target = on(PRODUCTS);
    let wanted = Some(bnd(rt, (PRODUCTS, -2, 7)));
    concludes(rt, 73, target, rule_73(dag, &given, target), wanted);
    concludes(rt, 73, on(SUMS), rule_73(dag, &given, on(SUMS)), None);
    let turned = [given[0], given[2], given[1], given[3]];
    concludes(rt, 73, target, rule_73(dag, &turned, target), None);
}

fn try_negations(rt: &impl Abort, dag: &Dag) {
    let one = [bnd(rt, (AC, 1, 2))];
    let target = on(NEGATIONS);
    let wanted = Some(bnd(rt, (NEGATIONS, -2, -1)));
    concludes(rt, 74, target, rule_74(dag, &one, target), wanted);
    concludes(rt, 74, on(SUMS), rule_74(dag, &one, on(SUMS)), None);
}

// The ends of the bounds of a, what isn't 0, the slot, and whether it is a contradiction.
const NO_ZERO: &[(i64, i64, u16, Slot, bool)] = &[
    (0, 0, A, Slot::Void, true),
    (0, 0, B, Slot::Void, false),
    (0, 1, A, Slot::Void, false),
    (-1, 0, A, Slot::Void, false),
    (0, 0, A, Slot::Bnd(ExprId(A)), false),
];

fn try_no_zero(rt: &impl Abort, dag: &Dag) {
    for (lo, hi, other, target, is_void) in NO_ZERO {
        let given = [bnd(rt, (A, *lo, *hi)), Fact::Nzr(ExprId(*other))];
        let found = rule_91(dag, &given, *target);
        let wanted = if *is_void { Some(Fact::Void) } else { None };
        concludes(rt, 91, *target, found, wanted);
    }
}

fn try_no_error(
    rt: &impl Abort,
    dag: &Dag,
    error: Option<RelativeError>,
    other: u16,
    wanted: Option<Fact>,
) {
    let given = [
        Fact::Rel(ExprId(A), ExprId(C), error),
        Fact::Nzr(ExprId(other)),
    ];
    let found = rule_92(dag, &given, Slot::Void);
    concludes(rt, 92, Slot::Void, found, wanted);
}

fn try_contradictions(rt: &impl Abort, dag: &Dag) {
    try_no_zero(rt, dag);
    let exact = RelativeError::new(Interval::zero());
    try_no_error(rt, dag, None, C, Some(Fact::Void));
    try_no_error(rt, dag, None, A, None);
    try_no_error(rt, dag, exact, C, None);
}

#[test]
fn products_negations_and_contradictions(rt: HostRuntime) -> Result<(), Fail> {
    let dag = list(&rt)?;
    try_products(&rt, &dag);
    try_negations(&rt, &dag);
    try_contradictions(&rt, &dag);
    Ok(())
}

// The hint `a -> b`, where c isn't 0 and d is below 3.
fn hint(rt: &(impl AllocGlobal + Abort), apart: bool) -> Result<HintRow, Fail> {
    let mut divisors = Vec::new(rt.alloc());
    divisors.push(ExprId(C))?;
    let mut needs = Vec::new(rt.alloc());
    needs.push(Need::Below(ExprId(D), end(rt, 3), apart))?;
    needs.push(Need::Above(ExprId(D), end(rt, 1), apart))?;
    needs.push(Need::NotZero(ExprId(D)))?;
    Ok(HintRow {
        left: ExprId(A),
        right: ExprId(B),
        divisors: Items::from_vec(divisors),
        needs: Items::from_vec(needs),
    })
}

use Said::{Bounds, NoError, Nzr as nzr, Place, Sizes};

// A fact on an expression: bounds from 1 to 2, multiples of 8, the size 1, no error of it over
// itself, or that it isn't 0.
#[derive(Clone, Copy)]
enum Said {
    Bounds(u16),
    Place(u16),
    Sizes(u16),
    NoError(u16),
    Nzr(u16),
}

fn place(rt: &impl Abort) -> FixPlace {
    FixPlace::new(3).expect(rt, "a place")
}

fn size(rt: &impl Abort) -> Size {
    Size::new(Interval::one()).expect(rt, "a size")
}

fn fact(rt: &impl Abort, said: Said) -> Fact {
    match said {
        Bounds(x) => bnd(rt, (x, 1, 2)),
        Place(x) => Fact::Fix(ExprId(x), place(rt)),
        Sizes(x) => Fact::Abs(ExprId(x), size(rt)),
        NoError(x) => Fact::Rel(ExprId(x), ExprId(x), None),
        nzr(x) => Fact::Nzr(ExprId(x)),
    }
}

fn fact_of(rt: &impl Abort, said: Option<Said>) -> Option<Fact> {
    match said {
        Some(said) => Some(fact(rt, said)),
        None => None,
    }
}

fn target_of(first: Said) -> Slot {
    match first {
        Bounds(_) => Slot::Bnd(ExprId(A)),
        Sizes(_) => Slot::Abs(ExprId(A)),
        Place(_) => Slot::Fix(ExprId(A)),
        _ => Slot::Nzr(ExprId(A)),
    }
}

// Whether the constraints are strict, the first premise, a bound, the last premise, and what is
// shown.
const HINTS: &[(bool, Said, Bound, Said, Option<Said>)] = &[
    (false, Bounds(B), (D, 1, 3), nzr(D), Some(Bounds(A))),
    (false, Place(B), (D, 1, 3), nzr(D), Some(Place(A))),
    (false, Sizes(B), (D, 1, 3), nzr(D), Some(Sizes(A))),
    (false, nzr(B), (D, 1, 3), nzr(D), Some(nzr(A))),
    (false, nzr(C), (D, 1, 3), nzr(D), None),
    (false, NoError(B), (D, 1, 3), nzr(D), None),
    (true, nzr(B), (D, 1, 3), nzr(D), None),
    (true, nzr(B), (D, 2, 2), nzr(D), Some(nzr(A))),
    (false, nzr(B), (D, 1, INF), nzr(D), None),
    (false, nzr(B), (D, -INF, 3), nzr(D), None),
    (false, nzr(B), (C, 1, 3), nzr(D), None),
    (false, nzr(B), (D, 1, 3), nzr(C), None),
];

fn try_hint(
    rt: &impl Abort,
    dag: &Dag,
    row: &HintRow,
    premises: &[Fact; 5],
    target: Slot,
    wanted: Option<Fact>,
) {
    let found = rule_80(dag, row, premises, target);
    concludes(rt, 80, target, found, wanted);
    let cut = rule_80(dag, row, &premises[..4], target);
    concludes(rt, 80, target, cut, None);
    let void = rule_80(dag, row, premises, Slot::Void);
    concludes(rt, 80, Slot::Void, void, None);
}

fn try_hints(rt: &impl Abort, dag: &Dag, strict: &HintRow, weak: &HintRow) {
    for (apart, first, bound, last, wanted) in HINTS {
        let row = if *apart { strict } else { weak };
        let shown = bnd(rt, *bound);
        let not_zero = fact(rt, nzr(C));
        let premises = [fact(rt, *first), not_zero, shown, shown, fact(rt, *last)];
        let wanted = fact_of(rt, *wanted);
        try_hint(rt, dag, row, &premises, target_of(*first), wanted);
    }
}

#[test]
fn hints_are_used_where_all_is_shown(rt: HostRuntime) -> Result<(), Fail> {
    let dag = list(&rt)?;
    let strict = hint(&rt, true)?;
    let weak = hint(&rt, false)?;
    try_hints(&rt, &dag, &strict, &weak);
    Ok(())
}
