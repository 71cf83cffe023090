// Each public call, at values that were worked out by hand.
use dyadic::{Dyadic, End};
use fx_model::{Direction, Rounding};
use interval::Interval;
use rounding::{Sign, error_interval, errors, floors, round_grid, roundings};
use std::process::Abort;

const DIRECTIONS: [Direction; 11] = [
    Direction::Zr,
    Direction::Aw,
    Direction::Dn,
    Direction::Up,
    Direction::Od,
    Direction::Ne,
    Direction::No,
    Direction::Nz,
    Direction::Na,
    Direction::Nd,
    Direction::Nu,
];

fn number(rt: &impl Abort, m: i64, e: i32) -> Dyadic {
    Dyadic::new(m, e).expect(rt, "a number of the grid")
}

fn from_to(rt: &impl Abort, lo: Dyadic, hi: Dyadic) -> Interval {
    Interval::new(End::At(lo), End::At(hi)).expect(rt, "ends in order")
}

// Quarters, and what each direction makes of them at lsb 0.
const QUARTERS: &[(i64, [i64; 11])] = &[
    (10, [2, 3, 2, 3, 3, 2, 3, 2, 3, 2, 3]),
    (-10, [-2, -3, -3, -2, -3, -2, -3, -2, -3, -3, -2]),
    (8, [2, 2, 2, 2, 2, 2, 2, 2, 2, 2, 2]),
    (14, [3, 4, 3, 4, 3, 4, 3, 3, 4, 3, 4]),
    (-14, [-3, -4, -4, -3, -3, -4, -3, -3, -4, -4, -3]),
    (11, [2, 3, 2, 3, 3, 3, 3, 3, 3, 3, 3]),
    (-1, [0, -1, -1, 0, -1, 0, 0, 0, 0, 0, 0]),
    (-2, [0, -1, -1, 0, -1, 0, -1, 0, -1, -1, 0]),
];

fn try_quarters(rt: &impl Abort, quarters: Dyadic, wholes: &[i64; 11]) {
    for (dir, whole) in DIRECTIONS.iter().zip(wholes.iter()) {
        let found = round_grid(Rounding { lsb: 0, dir: *dir }, quarters);
        assert_eq!(rt; found, number(rt, *whole, 0), "{quarters} {dir:?}");
    }
}

#[test]
fn rounds_the_rows(rt: HostRuntime) {
    floors();
    roundings();
    for (quarters, wholes) in QUARTERS {
        try_quarters(&rt, number(&rt, *quarters, -2), wholes);
    }
}

// Numbers, as mantissa and exponent.
const ZERO: (i64, i32) = (0, 0);

const ONE: (i64, i32) = (1, 0);

const MINUS_ONE: (i64, i32) = (-1, 0);

const HALF: (i64, i32) = (1, -1);

const MINUS_HALF: (i64, i32) = (-1, -1);

const LAST: (i64, i32) = (1, -512);

const MINUS_LAST: (i64, i32) = (-1, -512);

type Errors = (i16, Direction, Sign, Option<i16>, (i64, i32), (i64, i32));

const ERRORS: &[Errors] = &[
    (0, Direction::Dn, Sign::Unknown, None, MINUS_ONE, ZERO),
    (0, Direction::Ne, Sign::Zero, Some(-3), MINUS_HALF, HALF),
    (
        0,
        Direction::Zr,
        Sign::NotNegative,
        Some(-1),
        MINUS_HALF,
        ZERO,
    ),
    (0, Direction::Aw, Sign::NotNegative, None, ZERO, ONE),
    (0, Direction::Zr, Sign::Zero, None, ZERO, ZERO),
    (0, Direction::Od, Sign::Zero, Some(0), ZERO, ZERO),
    (0, Direction::Up, Sign::Unknown, Some(-61), ZERO, ONE),
    (-512, Direction::Nu, Sign::Unknown, None, MINUS_LAST, LAST),
    (
        -512,
        Direction::Od,
        Sign::Unknown,
        Some(-513),
        MINUS_LAST,
        LAST,
    ),
];

fn try_errors(rt: &impl Abort, rounding: Rounding, sign: Sign, fix: Option<i16>, wanted: Interval) {
    let lsb = rounding.lsb;
    assert!(rt; lsb >= -512 && lsb <= 512, "{lsb}");
    let found = error_interval(rounding, sign, fix);
    assert_eq!(rt; found, wanted, "{lsb} {sign:?}");
}

#[test]
fn encloses_errors(rt: HostRuntime) {
    errors();
    for (lsb, dir, sign, fix, lo, hi) in ERRORS {
        let lo = number(&rt, lo.0, lo.1);
        let hi = number(&rt, hi.0, hi.1);
        let rounding = Rounding {
            lsb: *lsb,
            dir: *dir,
        };
        try_errors(&rt, rounding, *sign, *fix, from_to(&rt, lo, hi));
    }
}
