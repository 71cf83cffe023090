// Each public call, at values that were worked out by hand.
use crate::equals::holds;
use dyadic::{Dyadic, End};
use interval::{Interval, enclose, one_result};
use literal::read;
use std::process::Abort;

const LOW: i64 = -100;

const HIGH: i64 = 100;

// A whole number as an end, or infinite past -100 and 100.
fn end(rt: &impl Abort, number: i64) -> End {
    if number <= LOW {
        End::Low
    } else if number >= HIGH {
        End::High
    } else {
        End::At(Dyadic::new(number, 0).expect(rt, "a whole number"))
    }
}

fn range(rt: &impl Abort, lo: i64, hi: i64) -> Interval {
    Interval::new(end(rt, lo), end(rt, hi)).expect(rt, "ends in order")
}

const MADE: &[(i64, i64, bool)] = &[
    (1, 2, true),
    (2, 2, true),
    (2, 1, false),
    (LOW, HIGH, true),
    (LOW, LOW, false),
    (HIGH, HIGH, false),
    (HIGH, 3, false),
    (3, LOW, false),
];

fn try_made(rt: &impl Abort, lo: End, hi: End, made: bool) {
    let found = Interval::new(lo, hi);
    assert_eq!(rt; found.is_some(), made, "{lo:?} {hi:?}");
    if let Some(found) = found {
        assert_eq!(rt; found.lo(), lo);
        assert_eq!(rt; found.hi(), hi);
    }
}

#[test]
fn makes_intervals_of_ordered_ends(rt: HostRuntime) {
    for (lo, hi, made) in MADE {
        try_made(&rt, end(&rt, *lo), end(&rt, *hi), *made);
    }
}

fn equal(rt: &impl Abort, rows: &[(&str, Interval, Interval)]) {
    for (name, found, wanted) in rows {
        assert_eq!(rt; *found, *wanted, "{name}");
    }
}

#[test]
fn answers_the_rows(rt: HostRuntime) {
    let of = |lo: i64, hi: i64| range(&rt, lo, hi);
    one_result();
    let one = of(1, 2);
    let rows = [
        ("negation", of(-1, 2).neg(), of(-2, 1)),
        ("negation, infinite", of(LOW, 2).neg(), of(-2, HIGH)),
        ("sum", of(-1, 2).add(of(3, 5)), of(2, 7)),
        ("sum, infinite", of(-1, HIGH).add(of(3, 5)), of(2, HIGH)),
        ("sum with itself", one.add(one), of(2, 4)),
        ("product with itself", one.mul(one), of(1, 4)),
        ("difference", of(-1, 2).sub(of(3, 5)), of(-6, -1)),
        ("product of rising", of(1, 2).mul(of(3, 5)), of(3, 10)),
        ("product, first mixed", of(-1, 2).mul(of(3, 5)), of(-5, 10)),
        ("product, second mixed", of(1, 2).mul(of(-3, 5)), of(-6, 10)),
        ("product, both mixed", of(-1, 2).mul(of(-3, 5)), of(-6, 10)),
        ("product of falling", of(-2, -1).mul(of(-5, -3)), of(3, 10)),
        (
            "product, signs differ",
            of(-2, -1).mul(of(3, 5)),
            of(-10, -3),
        ),
        (
            "product, infinite",
            of(0, 0).mul(of(3, HIGH)),
            of(LOW, HIGH),
        ),
        ("sizes of rising", of(1, 2).abs(), of(1, 2)),
        ("sizes of falling", of(-2, -1).abs(), of(1, 2)),
        ("sizes, mixed", of(-3, 2).abs(), of(0, 3)),
        ("sizes, infinite", of(LOW, 2).abs(), of(0, HIGH)),
        ("square, mixed", of(-3, 2).square(), of(0, 9)),
        ("square, infinite", of(2, HIGH).square(), of(4, HIGH)),
        ("hull", of(-2, -1).hull(of(3, HIGH)), of(-2, HIGH)),
    ];
    equal(&rt, &rows);
}

#[test]
fn compares_intervals(rt: HostRuntime) {
    let of = |lo: i64, hi: i64| range(&rt, lo, hi);
    let three = Dyadic::new(3, 0).expect(&rt, "three");
    holds(&rt, "inside", of(1, 3).inside(of(1, HIGH)));
    holds(&rt, "not inside", !of(1, 3).inside(of(2, 5)));
    holds(&rt, "has three", of(LOW, 3).has(three));
    let (zero, one) = (Interval::zero(), Interval::one());
    holds(&rt, "zero", zero.has_zero() && !zero.has_one());
    holds(&rt, "one", one.has_one() && !one.has_zero());
    let signs = |i: Interval| (i.is_positive(), i.is_not_negative(), i.is_not_positive());
    holds(&rt, "positive", signs(one) == (true, true, false));
    holds(
        &rt,
        "not positive",
        signs(of(-1, 0)) == (false, false, true),
    );
    holds(&rt, "not three", !of(4, HIGH).has(three));
    holds(&rt, "meet", of(1, 3).meet(of(3, 5)) == Some(of(3, 3)));
    holds(&rt, "no meet", of(1, 2).meet(of(3, 5)).is_none());
}

// Whole ends.
type Whole = (i64, i64);

fn whole(rt: &impl Abort, ends: Whole) -> Interval {
    range(rt, ends.0, ends.1)
}

const QUOTIENTS: &[(Whole, Whole, Option<Whole>)] = &[
    ((4, 8), (1, 2), Some((2, 8))),
    ((-4, 8), (1, 2), Some((-4, 8))),
    ((4, 8), (-2, -1), Some((-8, -2))),
    ((-8, -4), (-2, -1), Some((2, 8))),
    ((4, 8), (0, 1), None),
    ((1, 1), (0, 2), None),
    ((4, 8), (-1, 0), None),
    ((0, 0), (LOW, HIGH), None),
    ((4, 8), (1, HIGH), Some((LOW, HIGH))),
];

fn try_quotient(rt: &impl Abort, x: Interval, y: Interval, wanted: Option<Whole>) {
    let found = x.div(y);
    match wanted {
        Some(wanted) => assert!(rt; found == Some(whole(rt, wanted))),
        None => assert!(rt; found.is_none()),
    }
}

#[test]
fn quotients_have_no_divisor_with_zero(rt: HostRuntime) {
    for (x, y, wanted) in QUOTIENTS {
        try_quotient(&rt, whole(&rt, *x), whole(&rt, *y), *wanted);
    }
}

const SHRUNK: &[(&str, Whole, i32, Option<Whole>)] = &[
    ("rising", (1, 7), 1, Some((2, 6))),
    ("falling", (-7, -1), 1, Some((-6, -2))),
    ("to 0", (-3, 5), 3, Some((0, 0))),
    ("multiples stay", (4, 8), 2, Some((4, 8))),
    ("one stays", (3, 3), 0, Some((3, 3))),
    ("none", (1, 7), 3, None),
    ("one is lost", (5, 5), 1, None),
    ("open below", (LOW, 5), 2, Some((LOW, 4))),
    ("open above", (-5, HIGH), 2, Some((-4, HIGH))),
    ("whole line", (LOW, HIGH), 512, Some((LOW, HIGH))),
    ("far to 0", (-7, 7), 512, Some((0, 0))),
    ("far to none", (1, 7), 512, None),
    ("small powers", (-1, 7), -1024, Some((-1, 7))),
];

fn try_shrunk(rt: &impl Abort, name: &str, x: Interval, k: i32, wanted: Option<Whole>) {
    assert!(rt; k >= -1024 && k <= 512, "{name}");
    let found = x.shrink(k);
    match wanted {
        Some(wanted) => assert!(rt; found == Some(whole(rt, wanted)), "{name}"),
        None => assert!(rt; found.is_none(), "{name}"),
    }
}

#[test]
fn shrinks_to_multiples(rt: HostRuntime) {
    for (name, x, k, wanted) in SHRUNK {
        try_shrunk(&rt, name, whole(&rt, *x), *k, *wanted);
    }
}

// m * 2^e as an end, or infinite where that is too large.
fn near(m: i64, e: i32) -> End {
    match Dyadic::new(m, e) {
        Some(number) => End::At(number),
        None => End::High,
    }
}

fn between(rt: &impl Abort, lo: End, hi: End) -> Interval {
    Interval::new(lo, hi).expect(rt, "ends in order")
}

fn around(rt: &impl Abort, text: &str, negative: bool) -> Interval {
    let lit = read(text).expect(rt, "a literal");
    enclose(&lit, negative)
}

#[test]
fn encloses_literals(rt: HostRuntime) {
    let plus = |text: &str| around(&rt, text, false);
    let minus = |text: &str| around(&rt, text, true);
    let of = |lo: End, hi: End| between(&rt, lo, hi);
    // 2^63 / 10 is 922337203685477580.8
    let tenth = of(near(922337203685477580, -63), near(922337203685477581, -63));
    let minus_tenth = of(
        near(-922337203685477581, -63),
        near(-922337203685477580, -63),
    );
    let rows = [
        ("zero", plus("0"), of(near(0, 0), near(0, 0))),
        ("minus zero", minus("0"), of(near(0, 0), near(0, 0))),
        ("five", plus("5"), of(near(5, 0), near(5, 0))),
        ("minus five", minus("5"), of(near(-5, 0), near(-5, 0))),
        ("with tens", plus("5e1"), of(near(50, 0), near(50, 0))),
        ("with twos", plus("3b1"), of(near(6, 0), near(6, 0))),
        (
            "parts of ten",
            minus("0.75"),
            of(near(-3, -2), near(-3, -2)),
        ),
        ("tenth", plus("0.1"), tenth),
        ("minus a tenth", minus("0.1"), minus_tenth),
        // 2^60 + 1 has a digit too many
        (
            "61 digits",
            plus("1152921504606846977"),
            of(near(1, 60), near(576460752303423489, 1)),
        ),
        // past the greatest number of the grid
        (
            "too large",
            plus("0xfffffffffffffffffffffffffp512"),
            of(near(1152921504606846975, 512), near(1, 600)),
        ),
    ];
    equal(&rt, &rows);
}
