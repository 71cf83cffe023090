// Written bounds at values that were worked out by hand.
ghost use Rattle.std.specs.Prelude.{◌<◌};
ghost use Rattle.literal_order.specs.Values.{IsWritten};

use dyadic::{Dyadic, End};
use interval::Interval;
use literal::read;
use literal_order::Written;
use script_bounds::{above, below, inward, is_too_low, outward, read_number};
use std::process::Abort;

// The bound that is written with this text, a minus perhaps before its literal. None for no text.
fn written(rt: &impl Abort, text: &str) -> Option<Written>
    ensures { IsWritten result }
{
    match text.strip_prefix("-") {
        Some(rest) => Some(Written {
            literal: read(rest).expect(rt, "a literal"),
            negative: true,
        }),
        None if text.is_empty() => None,
        None => Some(Written {
            literal: read(text).expect(rt, "a literal"),
            negative: false,
        }),
    }
}

use Between::{Nothing, Of as of};
use Ends::{At as at, High, Low};

// An end, as mantissa and exponent, or infinite.
#[derive(Clone, Copy)]
enum Ends {
    At(i64, i32),
    Low,
    High,
}

// An interval, or none.
#[derive(Clone, Copy)]
enum Between {
    Of(Ends, Ends),
    Nothing,
}

fn end(rt: &impl Abort, end: Ends) -> End {
    match end {
        at(mantissa, exponent) => {
            End::At(Dyadic::new(mantissa, exponent).expect(rt, "a number of the grid"))
        }
        Low => End::Low,
        High => End::High,
    }
}

fn interval(rt: &impl Abort, between: Between) -> Option<Interval> {
    match between {
        of(lo, hi) => Interval::new(end(rt, lo), end(rt, hi)),
        Nothing => None,
    }
}

// The greatest literal, which lies above the grid.
const TOO_LARGE: &str = "0xfffffffffffffffffffffffffp512";

// 2^63 / 10 is 922337203685477580.8
const BELOW_TENTH: Ends = at(922337203685477580, -63);

const ABOVE_TENTH: Ends = at(922337203685477581, -63);

const TOP: Ends = at(1152921504606846975, 512);

const BOUNDS: &[(&str, &str, Between, Between)] = &[
    ("1", "2", of(at(1, 0), at(2, 0)), of(at(1, 0), at(2, 0))),
    (
        "0.1",
        "3",
        of(BELOW_TENTH, at(3, 0)),
        of(ABOVE_TENTH, at(3, 0)),
    ),
    (
        "-2",
        "0.1",
        of(at(-2, 0), ABOVE_TENTH),
        of(at(-2, 0), BELOW_TENTH),
    ),
    ("0.1", "0.1", of(BELOW_TENTH, ABOVE_TENTH), Nothing),
    ("5", "5", of(at(5, 0), at(5, 0)), of(at(5, 0), at(5, 0))),
    ("", "2", of(Low, at(2, 0)), of(Low, at(2, 0))),
    ("0.1", "", of(BELOW_TENTH, High), of(ABOVE_TENTH, High)),
    ("", "", of(Low, High), of(Low, High)),
    ("0", TOO_LARGE, of(at(0, 0), High), of(at(0, 0), TOP)),
    (TOO_LARGE, "", of(TOP, High), Nothing),
    ("3", "2", Nothing, Nothing),
];

fn try_bounds(rt: &impl Abort, lower: &str, upper: &str, outer: Between, inner: Between) {
    let low = written(rt, lower);
    let high = written(rt, upper);
    let outer = interval(rt, outer);
    let inner = interval(rt, inner);
    assert_eq!(rt; outward(low, high), outer, "outward {lower} {upper}");
    assert_eq!(rt; inward(low, high), inner, "inward {lower} {upper}");
}

#[test]
fn bounds_are_rounded_to_the_grid(rt: HostRuntime) {
    for (lower, upper, outer, inner) in BOUNDS {
        try_bounds(&rt, lower, upper, *outer, *inner);
    }
}

const NEEDS: &[(&str, bool, (Ends, bool), (Ends, bool))] = &[
    ("5", true, (at(5, 0), true), (at(5, 0), true)),
    ("5", false, (at(5, 0), false), (at(5, 0), false)),
    ("0.1", true, (BELOW_TENTH, false), (ABOVE_TENTH, false)),
    ("0.1", false, (BELOW_TENTH, false), (ABOVE_TENTH, false)),
    ("-3b1", true, (at(-3, 1), true), (at(-3, 1), true)),
];

fn try_needs(rt: &impl Abort, text: &str, strict: bool, under: (End, bool), over: (End, bool)) {
    let bound = written(rt, text).expect(rt, "a bound");
    assert_eq!(rt; below(bound, strict), under, "below {text}");
    assert_eq!(rt; above(bound, strict), over, "above {text}");
}

#[test]
fn needs_leave_out_a_number_of_the_grid(rt: HostRuntime) {
    for (text, strict, under, over) in NEEDS {
        let under = (end(&rt, under.0), under.1);
        let over = (end(&rt, over.0), over.1);
        try_needs(&rt, text, *strict, under, over);
    }
}

const TOO_LOW: &[(bool, &[u8], Option<bool>)] = &[
    (true, b"1", Some(true)),
    (true, b"0.999999999999999999999999999999", Some(true)),
    (true, b"0.9999999999999999", Some(false)),
    (true, b"1b512", Some(true)),
    (false, b"1b-512", Some(false)),
    (false, b"0", Some(false)),
    (true, b"1e-31", None),
];

fn too_low(negative: bool, text: &[u8]) -> Option<bool> {
    match read_number(negative, text) {
        Some(number) => Some(is_too_low(number)),
        None => None,
    }
}

#[test]
fn a_number_is_too_low_where_it_rounds_to_minus_one(rt: HostRuntime) {
    for (negative, text, want) in TOO_LOW {
        assert_eq!(rt; too_low(*negative, text), *want, "{text:?}");
    }
}
