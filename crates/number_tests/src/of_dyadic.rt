// Each public call once, at values that were worked out by hand.
use crate::equals::{equal, holds};
use dyadic::{
    Dyadic, End, Points, add_down, add_up, div_down, div_up, greater, halve_between, lesser,
    mul_down, mul_up, part_down, ratio_down, ratio_up,
};
use std::process::Abort;

const TOP: i64 = 1152921504606846975;

fn ends_are(rt: &impl Abort, rows: &[(&str, End, End)]) {
    for (name, found, wanted) in rows {
        assert_eq!(rt; *found, *wanted, "{name}");
    }
}

#[test]
fn answers_the_rows(rt: HostRuntime) {
    let number = |m: i64, e: i32| Dyadic::new(m, e).expect(&rt, "a grid number");
    let at = |m: i64, e: i32| End::At(number(m, e));
    let one = number(1, 0);
    let three = number(3, 0);
    let top = number(TOP, 512);
    assert!(rt; !three.is_zero());
    let ends = [
        ("1 + 2^-70 down", add_down(one, number(1, -70)), at(1, 0)),
        (
            "1 + 2^-70 up",
            add_up(one, number(1, -70)),
            at(576460752303423489, -59),
        ),
        (
            "1 - 2^-70 down",
            add_down(one, number(-1, -70)),
            at(TOP, -60),
        ),
        ("past the top, down", add_down(top, top), at(TOP, 512)),
        ("past the top, up", add_up(top, top), End::High),
        (
            "product down",
            mul_down(number(TOP, 0), number(TOP, 0)),
            at(576460752303423487, 61),
        ),
        (
            "product up",
            mul_up(number(TOP, 0), number(TOP, 0)),
            at(TOP, 60),
        ),
        (
            "below the last place",
            mul_up(number(1, -512), number(1, -512)),
            at(1, -512),
        ),
        (
            "a third down",
            div_down(one, three),
            at(384307168202282325, -60),
        ),
        (
            "a third up",
            div_up(one, three),
            at(768614336404564651, -61),
        ),
        (
            "minus a third down",
            ratio_down(-1, 3, 0),
            at(-768614336404564651, -61),
        ),
        ("ten quarters up", ratio_up(10, 4, 0), at(5, -1)),
        (
            "few digits",
            mul_down(number(-3, 5), number(5, -7)),
            at(-15, -2),
        ),
        ("nine thirds", div_up(number(9, 0), three), at(3, 0)),
        ("lesser", lesser(End::Low, End::At(one)), End::Low),
        ("greater", greater(at(-3, 0), End::At(one)), End::At(one)),
    ];
    ends_are(&rt, &ends);
}

fn halved(a: Dyadic, b: Dyadic) -> Option<Dyadic> {
    if a.is_at_most(b) {
        halve_between(a, b)
    } else {
        None
    }
}

fn a_third(a: Dyadic, b: Dyadic) -> Option<Dyadic> {
    if a.is_at_most(b) {
        Some(part_down(a, b, 1, 3))
    } else {
        None
    }
}

fn try_halved(rt: &impl Abort, rows: &[(Dyadic, Dyadic, Option<Dyadic>)]) {
    for (a, b, wanted) in rows {
        assert_eq!(rt; halved(*a, *b), *wanted, "{a} to {b}");
    }
}

fn in_order(rt: &impl Abort, eight: Dyadic, one: Dyadic) {
    holds(
        rt,
        "minus eight and one",
        eight < one && eight.is_at_most(one) && eight.is_below(one) && !eight.is_same(one),
    );
    holds(rt, "itself", End::High.is_at_most(End::High));
    holds(
        rt,
        "signs",
        one.is_from_zero() && !one.is_up_to_zero() && End::At(eight).is_up_to_zero(),
    );
    holds(
        rt,
        "signs of ends",
        !End::Low.is_from_zero() && End::At(Dyadic::zero()).is_from_zero(),
    );
}

fn are_points(rt: &impl Abort, eight: Dyadic, one: Dyadic) {
    let first = Points::new().with_last(eight).expect(rt, "room");
    let points = first.with_last(one).expect(rt, "room");
    points.rising();
    assert_eq!(rt; points.len(), 2);
    equal(rt, "the last", points.point(1), one);
    holds(rt, "no more", points.with_last(one).is_none());
}

#[test]
fn keeps_numbers_in_order(rt: HostRuntime) {
    let number = |m: i64, e: i32| Dyadic::new(m, e).expect(&rt, "a grid number");
    let one = Dyadic::one();
    let eight = number(-8, 3);
    for &(m, e) in &[(1, 572), (3, 571), (1, -513)] {
        assert!(rt; Dyadic::new(m, e).is_none(), "{m} at {e}");
    }
    let parts = (eight.mantissa(), eight.exponent());
    equal(&rt, "parts", parts, (-1, 6));
    equal(&rt, "negation", eight.neg(), number(64, 0));
    in_order(&rt, eight, one);
    let least = number(1, -512);
    let halves = [
        (one, number(2, 0), Some(number(3, -1))),
        (number(-1, 0), number(2, 0), Some(number(1, -1))),
        (one, number(576460752303423489, -59), None),
        (Dyadic::zero(), least, None),
        (least, number(1, -511), None),
    ];
    try_halved(&rt, &halves);
    let third = a_third(Dyadic::zero(), one);
    equal(&rt, "a third", third, Some(number(384307168202282325, -60)));
    are_points(&rt, eight, one);
}
