// Literals at their limits and one past them. Expected lines were worked out by hand.
use crate::runs::texts_end;
use command_runs::Status;
use std::test::Fail;

const ZERO: &str = "0 in [0, 0]\n";

const WITHIN: &[(&str, &str)] = &[
    (
        "{ x in [0,1.00000000000000000000000000000] -> x in ? }",
        "x in [0, 1]\n",
    ),
    // decimal: 30 digits without leading zeros, and an exponent from -30 to 8 once the point is
    // removed
    ("{ 0 <= 999999999999999999999999999999 }", ZERO),
    ("{ 0 <= 000999999999999999999999999999999 }", ZERO),
    ("{ 0 <= 0.999999999999999999999999999999 }", ZERO),
    ("{ 0 <= 999999999999999999999999999999e8 }", ZERO),
    ("{ 0 <= 1e-30 }", ZERO),
    // with `b`: 30 digits, leading zeros among them, and an exponent from -512 to 512
    ("{ 0 <= 999999999999999999999999999999b512 }", ZERO),
    ("{ 0 <= 000000000000000000000000000001b-512 }", ZERO),
    // hexadecimal: 25 digits without leading zeros, and an exponent from -512 to 512 once the point
    // is removed
    ("{ 0 <= 0xfffffffffffffffffffffffffp512 }", ZERO),
    ("{ 0 <= 0x00fffffffffffffffffffffffffp-512 }", ZERO),
    ("{ 0 <= 0x0.1p516 }", ZERO),
    ("{ 0 <= 0x0.1p-508 }", ZERO),
];

#[test]
fn literals_within_their_limits(rt: HostRuntime) -> Result<(), Fail> {
    texts_end(&rt, rt.alloc(), Status::Answered, WITHIN)
}

const PAST: &str = "script: LiteralLimit at 7\n";

const BEYOND: &[(&str, &str)] = &[
    (
        "{ x in [0,1.000000000000000000000000000000] -> x in ? }",
        "script: LiteralLimit at 10\n",
    ),
    ("{ 0 <= 1000000000000000000000000000000 }", PAST),
    ("{ 0 <= 0.0000000000000000000000000000001 }", PAST),
    ("{ 0 <= 1e9 }", PAST),
    ("{ 0 <= 0e9 }", PAST),
    ("{ 0 <= 1e-31 }", PAST),
    ("{ 0 <= 1.0e-30 }", PAST),
    ("{ 0 <= 1b513 }", PAST),
    ("{ 0 <= 1b-513 }", PAST),
    ("{ 0 <= 0000000000000000000000000000001b0 }", PAST),
    ("{ 0 <= 0x10000000000000000000000000 }", PAST),
    ("{ 0 <= 0x1p513 }", PAST),
    ("{ 0 <= 0x0.1p517 }", PAST),
    ("{ 0 <= 0x0.1p-509 }", PAST),
];

#[test]
fn literals_past_their_limits(rt: HostRuntime) -> Result<(), Fail> {
    texts_end(&rt, rt.alloc(), Status::Script, BEYOND)
}
