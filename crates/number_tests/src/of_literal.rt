//! Rows worked out by hand.
use Wanted::{Err, Number as number};
use fx_model::Literal;
use literal::{LiteralFault, fix_of, read};
use std::process::Abort;

// What a text is read as: a number of these parts, or a fault.
#[derive(Clone, Copy)]
enum Wanted {
    Number(u128, i32, i32),
    Err(LiteralFault),
}

fn literal_of(wanted: Wanted) -> Result<Literal, LiteralFault> {
    match wanted {
        number(num, two, ten) => Ok(Literal { num, two, ten }),
        Err(fault) => Result::Err(fault),
    }
}

fn try_rows(rt: &impl Abort, rows: &[(&str, Wanted)]) {
    for (text, want) in rows {
        assert_eq!(rt; read(text), literal_of(*want), "{text}");
    }
}

const MOST: u128 = 999_999_999_999_999_999_999_999_999_999;

const DECIMAL: &[(&str, Wanted)] = &[
    ("0.50", number(5, 0, -1)),
    ("10", number(1, 0, 1)),
    ("2.5e1", number(25, 0, 0)),
    ("00012", number(12, 0, 0)),
    ("0", number(0, 0, 0)),
    ("0.000e3", number(0, 0, 0)),
    ("1e8", number(1, 0, 8)),
    ("1e+8", number(1, 0, 8)),
    ("1e9", Err(LiteralFault::LiteralLimit)),
    ("10e8", number(1, 0, 9)),
    ("1e-30", number(1, 0, -30)),
    ("1.0e-30", Err(LiteralFault::LiteralLimit)),
    ("0e-99", Err(LiteralFault::LiteralLimit)),
    (
        "1e00000000000000000000000000000000000000001",
        number(1, 0, 1),
    ),
    (
        "1e340282366920938463463374607431768211457",
        Err(LiteralFault::LiteralLimit),
    ),
    ("999999999999999999999999999999", number(MOST, 0, 0)),
    ("00999999999999999999999999999999", number(MOST, 0, 0)),
    ("0.999999999999999999999999999999", number(MOST, 0, -30)),
    (
        "1000000000000000000000000000000",
        Err(LiteralFault::LiteralLimit),
    ),
    (
        "0.0000000000000000000000000000000000000001e40",
        number(1, 0, 0),
    ),
];

#[test]
fn reads_decimal_rows(rt: HostRuntime) {
    try_rows(&rt, DECIMAL);
}

const OF_TWO: &[(&str, Wanted)] = &[
    ("1b-1", number(1, -1, 0)),
    ("1b-53", number(1, -53, 0)),
    ("10b0", number(5, 1, 0)),
    ("1b512", number(1, 512, 0)),
    ("2b512", number(1, 513, 0)),
    ("1b513", Err(LiteralFault::LiteralLimit)),
    ("1b-512", number(1, -512, 0)),
    ("1b-513", Err(LiteralFault::LiteralLimit)),
    ("0b600", Err(LiteralFault::LiteralLimit)),
    ("0b+5", number(0, 0, 0)),
    ("000000000000000000000000000001b0", number(1, 0, 0)),
    (
        "0000000000000000000000000000001b0",
        Err(LiteralFault::LiteralLimit),
    ),
    ("0x1.8p1", number(3, 0, 0)),
    ("0x1p-3", number(1, -3, 0)),
    ("0xAbF", number(2751, 0, 0)),
    ("0x0.e", number(7, -3, 0)),
    (
        "0xfffffffffffffffffffffffff",
        number(0xf_ffff_ffff_ffff_ffff_ffff_ffff, 0, 0),
    ),
    (
        "0x00fffffffffffffffffffffffff",
        number(0xf_ffff_ffff_ffff_ffff_ffff_ffff, 0, 0),
    ),
    (
        "0x10000000000000000000000000",
        Err(LiteralFault::LiteralLimit),
    ),
    ("0x8000000000000000000000000p512", number(1, 611, 0)),
    ("0x0.1p516", number(1, 512, 0)),
    ("0x0.1p-509", Err(LiteralFault::LiteralLimit)),
];

#[test]
fn reads_rows_of_two(rt: HostRuntime) {
    try_rows(&rt, OF_TWO);
}

const NO_LITERALS: &[&str] = &[
    "", "1.", ".5", "1e", "1e+", "e1", "0x", "0x.8", "0x1.", "0x1p", "0xp1", "0X1", "1E5", "1B5",
    "0x1P1", "1b", "1b3.5", "1.5b3", "12x", "0b0x", "0x1e+5", "-1", "+1", " 1", "1 ", "1e1e1",
    "1..2", "1b--1", "1_0", "x",
];

#[test]
fn refuses_what_is_no_literal(rt: HostRuntime) {
    for text in NO_LITERALS {
        let found = read(text);
        assert_eq!(rt; found, Result::Err(LiteralFault::BadLiteral), "{text}");
    }
}

fn fix_of_text(text: &str) -> Result<Option<i32>, LiteralFault> {
    let lit = read(text)?;
    Ok(fix_of(&lit))
}

const POWERS: &[(&str, Option<i32>)] = &[
    ("0.75", Some(-2)),
    ("0.1", None),
    ("12", Some(2)),
    ("0", Some(512)),
    ("1b512", Some(512)),
    ("4b512", Some(512)),
    ("1b-512", Some(-512)),
    ("100", Some(2)),
    ("0.5", Some(-1)),
    ("0.2", None),
    ("0.000000000931322574615478515625", Some(-30)),
    ("0x1.8p1", Some(0)),
];

#[test]
fn gives_the_greatest_power(rt: HostRuntime) {
    for (text, want) in POWERS {
        assert_eq!(rt; fix_of_text(text), Ok(*want), "{text}");
    }
}
