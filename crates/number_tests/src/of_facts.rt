// Each public call, at values that were worked out by hand.
use dyadic::{Dyadic, End};
use facts::{
    Fact, FixPlace, RelativeError, Size, Slot, held_facts, meet,
    meet_is_the_weakest_as_strong_as_both, sizes_within_an_interval, slot, stronger,
    stronger_is_an_order, void_and_none_are_strongest,
};
use fx_model::ExprId;
use interval::Interval;
use std::process::Abort;

const LOW: i64 = -100;

const HIGH: i64 = 100;

const X: ExprId = ExprId(4);

const Y: ExprId = ExprId(1023);

// A whole number as an end, or infinite past -100 and 100.
fn end(rt: &impl Abort, number: i64) -> End {
    if number <= LOW {
        End::Low
    } else if number >= HIGH {
        End::High
    } else {
        End::At(Dyadic::new(number, 0).expect(rt, "a whole number"))
    }
}

fn range(rt: &impl Abort, lo: i64, hi: i64) -> Interval {
    Interval::new(end(rt, lo), end(rt, hi)).expect(rt, "ends in order")
}

use Said::{Abs as abs, Bnd as bnd, Fix as fix, Near as rel};

// A fact on X: an interval or a size with whole ends, an error over Y with whole ends, multiples.
// Or an interval of Y, no error at all of the first over the second, and the facts with no numbers.
#[derive(Clone, Copy)]
enum Said {
    Bnd(i64, i64),
    Abs(i64, i64),
    Near(i64, i64),
    Fix(i16),
    OfY(i64, i64),
    Rel(ExprId, ExprId),
    Nzr(ExprId),
    Void,
}

fn size(rt: &impl Abort, lo: i64, hi: i64) -> Size {
    Size::new(range(rt, lo, hi)).expect(rt, "a size")
}

fn error(rt: &impl Abort, lo: i64, hi: i64) -> RelativeError {
    RelativeError::new(range(rt, lo, hi)).expect(rt, "a relative error")
}

fn place(rt: &impl Abort, exponent: i16) -> FixPlace {
    FixPlace::new(exponent).expect(rt, "a place")
}

fn fact(rt: &impl Abort, said: Said) -> Fact {
    match said {
        bnd(lo, hi) => Fact::Bnd(X, range(rt, lo, hi)),
        abs(lo, hi) => Fact::Abs(X, size(rt, lo, hi)),
        rel(lo, hi) => Fact::Rel(X, Y, Some(error(rt, lo, hi))),
        fix(exponent) => Fact::Fix(X, place(rt, exponent)),
        Said::OfY(lo, hi) => Fact::Bnd(Y, range(rt, lo, hi)),
        Said::Rel(x, y) => Fact::Rel(x, y, None),
        Said::Nzr(x) => Fact::Nzr(x),
        Said::Void => Fact::Void,
    }
}

const NONE: Said = Said::Rel(X, Y);

const MEETS: &[(&str, Said, Said, Option<Said>)] = &[
    ("bounds apart", bnd(0, 1), bnd(2, 3), Some(Said::Void)),
    (
        "bounds that touch",
        bnd(0, 1),
        bnd(1, HIGH),
        Some(bnd(1, 1)),
    ),
    (
        "infinite bounds",
        bnd(LOW, 2),
        bnd(1, HIGH),
        Some(bnd(1, 2)),
    ),
    ("sizes apart", abs(0, 1), abs(2, HIGH), Some(Said::Void)),
    ("sizes", abs(0, 2), abs(1, HIGH), Some(abs(1, 2))),
    ("errors apart", rel(0, 1), rel(2, 3), Some(NONE)),
    ("errors", rel(0, 2), rel(1, HIGH), Some(rel(1, 2))),
    ("none and an error", NONE, rel(0, 1), Some(NONE)),
    ("an error and none", rel(0, 1), NONE, Some(NONE)),
    ("multiples", fix(-1024), fix(512), Some(fix(512))),
    ("not zero", Said::Nzr(X), Said::Nzr(X), Some(Said::Nzr(X))),
    ("not zero, of two", Said::Nzr(X), Said::Nzr(Y), None),
    ("pairs exchanged", NONE, Said::Rel(Y, X), None),
    ("a bound and a size", bnd(0, 1), abs(0, 1), None),
    ("nothing left", Said::Void, bnd(0, 1), Some(Said::Void)),
    ("nothing left, second", fix(0), Said::Void, Some(Said::Void)),
];

fn try_meet(rt: &impl Abort, name: &str, a: Fact, b: Fact, wanted: Option<Said>) {
    let found = meet(&a, &b);
    match wanted {
        Some(said) => assert_eq!(rt; found, Some(fact(rt, said)), "{name}"),
        None => assert_eq!(rt; found, None, "{name}"),
    }
}

#[test]
fn two_facts_of_one_slot_have_their_meet(rt: HostRuntime) {
    meet_is_the_weakest_as_strong_as_both();
    for (name, a, b, wanted) in MEETS {
        try_meet(&rt, name, fact(&rt, *a), fact(&rt, *b), *wanted);
    }
}

const STRONGER: &[(&str, Said, Said, bool, bool)] = &[
    ("bounds", bnd(1, 2), bnd(LOW, HIGH), true, false),
    ("bounds that overlap", bnd(0, 2), bnd(1, 3), false, false),
    ("bounds of two", bnd(1, 1), Said::OfY(0, 2), false, false),
    ("sizes", abs(1, 2), abs(0, HIGH), true, false),
    ("errors", rel(1, 2), rel(0, HIGH), true, false),
    ("none and an error", NONE, rel(0, 0), true, false),
    ("none twice", NONE, NONE, true, true),
    ("multiples", fix(512), fix(-1024), true, false),
    ("not zero", Said::Nzr(X), Said::Nzr(X), true, true),
    ("nothing left", Said::Void, NONE, true, false),
    ("nothing left twice", Said::Void, Said::Void, true, true),
];

fn try_stronger(rt: &impl Abort, name: &str, a: Fact, b: Fact, first: bool, second: bool) {
    assert_eq!(rt; stronger(&a, &b), first, "{name}");
    assert_eq!(rt; stronger(&b, &a), second, "{name}, exchanged");
}

#[test]
fn the_stronger_of_two_facts_is_told(rt: HostRuntime) {
    stronger_is_an_order();
    void_and_none_are_strongest();
    held_facts();
    for (name, a, b, first, second) in STRONGER {
        try_stronger(&rt, name, fact(&rt, *a), fact(&rt, *b), *first, *second);
    }
}

fn try_place(rt: &impl Abort, exponent: i16, made: bool) {
    let found = FixPlace::new(exponent).map(|place| place.exponent());
    assert!(rt;
        found == if made { Some(exponent) } else { None },
        "{exponent}"
    );
}

#[test]
fn keeps_the_places(rt: HostRuntime) {
    for (exponent, made) in &[(512, true), (513, false), (-1024, true), (-1025, false)] {
        try_place(&rt, *exponent, *made);
    }
    assert_eq!(rt; place(&rt, -3).greater(place(&rt, 5)), place(&rt, 5));
}

fn try_parts(rt: &impl Abort, of: Interval, size: bool, error: bool) {
    assert!(rt;
        Size::new(of).map(|s| s.interval()) == if size { Some(of) } else { None },
        "{of:?}"
    );
    assert!(rt;
        RelativeError::new(of).map(|e| e.interval()) == if error { Some(of) } else { None },
        "{of:?}"
    );
}

#[test]
fn keeps_the_ranges(rt: HostRuntime) {
    sizes_within_an_interval();
    for (lo, hi, size, error) in &[
        (0, 1, true, true),
        (-1, 1, false, false),
        (LOW, 1, false, false),
        (5, HIGH, true, true),
    ] {
        try_parts(&rt, range(&rt, *lo, *hi), *size, *error);
    }
    let half = End::At(Dyadic::new(-1, -1).expect(&rt, "minus one half"));
    let above = Interval::new(half, End::High).expect(&rt, "ends in order");
    assert!(rt; RelativeError::new(above).is_some());
    assert!(rt; Size::new(above).is_none());
}

fn try_within(rt: &impl Abort, of: Interval, wanted: Option<(i64, i64)>) {
    let found = Size::within(of).map(|s| s.interval());
    match wanted {
        Some((lo, hi)) => assert!(rt; found == Some(range(rt, lo, hi)), "{of:?}"),
        None => assert!(rt; found.is_none(), "{of:?}"),
    }
}

#[test]
fn sizes_are_cut_at_zero(rt: HostRuntime) {
    for (lo, hi, wanted) in &[
        (-2, -1, None),
        (-1, 2, Some((0, 2))),
        (LOW, 0, Some((0, 0))),
        (3, HIGH, Some((3, HIGH))),
    ] {
        try_within(&rt, range(&rt, *lo, *hi), *wanted);
    }
}

const SLOTS: &[(Said, Slot)] = &[
    (bnd(0, 1), Slot::Bnd(X)),
    (abs(0, 1), Slot::Abs(X)),
    (rel(0, 1), Slot::Rel(X, Y)),
    (fix(3), Slot::Fix(X)),
    (Said::Nzr(Y), Slot::Nzr(Y)),
    (Said::Void, Slot::Void),
];

#[test]
fn names_the_slots(rt: HostRuntime) {
    for (said, wanted) in SLOTS {
        assert_eq!(rt; slot(&fact(&rt, *said)), *wanted);
    }
}
