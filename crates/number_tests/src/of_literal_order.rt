//! Rows worked out by hand.

ghost use Rattle.std.specs.Prelude.{IfOk, Some};
ghost use Rattle.literal_order.specs.Values.{IsWritten};

use literal::{LiteralFault, read};
use literal_order::Written;
use std::test::Fail;

fn written(text: &str, negative: bool) -> Result<Written, LiteralFault>
    ensures { IfOk result (λ w. IsWritten (Some w)) }
{
    let literal = read(text)?;
    Ok(Written { literal, negative })
}

fn below(a: &str, a_negative: bool, b: &str, b_negative: bool) -> Result<bool, LiteralFault> {
    let first = written(a, a_negative)?;
    let second = written(b, b_negative)?;
    Ok(first.is_below(second))
}

const BY_VALUES: &[(&str, &str, bool)] = &[
    ("0", "1", true),
    ("1", "0", false),
    ("0", "0", false),
    ("0.5", "1b-1", false),
    ("1b-1", "0.50", false),
    ("0.1", "0x0.2p0", true),
    ("0x0.1999999999999999999999999p0", "0.1", true),
    ("0.1", "0x0.199999999999999999999999ap0", true),
    ("1e8", "99999999.9", false),
    ("999999999999999999999999999999e8", "1b512", true),
    ("1b512", "999999999999999999999999999999e8", false),
    ("1b-512", "1e-30", true),
    ("1e-30", "1b-99", true),
    ("1b-100", "1e-30", true),
    ("1e-30", "1b-100", false),
    ("0", "1b-512", true),
    ("1b-512", "0", false),
    ("3b-1", "1b0", false),
    ("999999999999999999999999999999b512", "1b511", false),
];

#[test]
fn literals_are_compared_by_their_values(rt: HostRuntime) {
    for (a, b, want) in BY_VALUES {
        assert_eq!(rt; below(a, false, b, false), Ok(*want), "{a} {b}");
        assert_eq!(rt; below(b, true, a, true), Ok(*want), "-{b} -{a}");
    }
}

const WITH_SIGNS: &[(&str, bool, &str, bool, bool)] = &[
    ("1", true, "1", false, true),
    ("1", false, "1", true, false),
    ("0", true, "0", false, false),
    ("0", true, "1b-512", false, true),
    ("1b-512", true, "0", false, true),
    ("0", false, "0", true, false),
    ("1", true, "0.5", true, true),
    ("0.5", true, "1", true, false),
];

#[test]
fn literals_are_compared_with_their_signs(rt: HostRuntime) {
    for (a, a_negative, b, b_negative, want) in WITH_SIGNS {
        assert_eq!(rt; below(a, *a_negative, b, *b_negative), Ok(*want), "{a} {b}");
    }
}

#[test]
fn two_spellings_have_one_enclosure(rt: HostRuntime) -> Result<(), Fail> {
    let half = written("0.5", true)?.enclosed();
    assert!(rt; half == written("1b-1", true)?.enclosed());
    assert!(rt; half != half.neg());
    assert!(rt; half.neg() == written("0.5", false)?.enclosed());
    Ok(())
}
