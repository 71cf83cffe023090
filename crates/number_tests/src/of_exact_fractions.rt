//! Rows with numbers of an independent program.

ghost use Rattle.std.specs.Prelude.{Some, IfOk};
ghost use Rattle.literal_order.specs.Values.{IsWritten};

use exact_fractions::Exact;
use fx_model::{Direction, Rounding};
use literal::read;
use literal_order::Written;
use std::alloc::Global;
use std::test::Fail;

fn written(text: &str, negative: bool) -> Result<Written, Fail>
    ensures { IfOk result (λ w. IsWritten (Some w)) }
{
    let literal = read(text)?;
    Ok(Written { literal, negative })
}

fn shown(alloc: Global, x: Option<Exact>) -> Result<String, Fail> {
    match x {
        Some(x) => {
            let n = x.numerator();
            let d = x.denominator();
            Ok(format!(in alloc; "{n}/{d}")?)
        }
        None => Ok(format!(in alloc; "wide")?),
    }
}

// The sum, the difference, the product and the quotient.
fn results(alloc: Global, a: &str, b: &str) -> Result<String, Fail> {
    let Some(x) = Exact::of_written(written(a, false)?) else {
        return Ok(format!(in alloc; "wide")?);
    };
    let Some(y) = Exact::of_written(written(b, false)?) else {
        return Ok(format!(in alloc; "wide")?);
    };
    if y.is_zero() {
        return Ok(format!(in alloc; "zero")?);
    }
    let sum = shown(alloc, x.sum(y))?;
    let difference = shown(alloc, x.difference(y))?;
    let product = shown(alloc, x.product(y))?;
    let quotient = shown(alloc, x.quotient(y))?;
    Ok(format!(in alloc; "{sum} {difference} {product} {quotient}")?)
}

const OPERATIONS: &[(&str, &str, &str)] = &[
    ("0.75", "1b-2", "1/1 1/2 3/16 3/1"),
    ("0.1", "7e-3", "107/1000 93/1000 7/10000 100/7"),
    ("1b126", "1b126", "wide 0/1 wide 1/1"),
    ("1b126", "1b-126", "wide wide 1/1 wide"),
    ("3", "12.25", "61/4 -37/4 147/4 12/49"),
    ("0", "0.1", "1/10 -1/10 0/1 0/1"),
    (
        "1b-126",
        "0.1",
        "wide wide wide 5/42535295865117307932921825928971026432",
    ),
];

#[test]
fn operations_have_their_numbers(rt: HostRuntime) -> Result<(), Fail> {
    for (a, b, wanted) in OPERATIONS {
        let line = results(rt.alloc(), a, b)?;
        assert_eq!(rt; line.as_str(), *wanted, "{a} {b}");
    }
    Ok(())
}

// The number rounded in the eleven directions.
fn roundings(alloc: Global, a: &str, negative: bool, lsb: i16) -> Result<String, Fail> {
    let mut line = String::new(alloc);
    let Some(x) = Exact::of_written(written(a, negative)?) else {
        return Ok(line);
    };
    let directions = [
        Direction::Zr,
        Direction::Aw,
        Direction::Dn,
        Direction::Up,
        Direction::Od,
        Direction::Ne,
        Direction::No,
        Direction::Nz,
        Direction::Na,
        Direction::Nd,
        Direction::Nu,
    ];
    for dir in directions {
        if !line.is_empty() {
            line.push_str(" ")?;
        }
        let rounded = shown(alloc, x.rounded(Rounding { lsb, dir }))?;
        line.push_str(rounded.as_str())?;
    }
    Ok(line)
}

const ROUNDED: &[(&str, bool, i16, &str)] = &[
    (
        "0.75",
        false,
        -1,
        "1/2 1/1 1/2 1/1 1/2 1/1 1/2 1/2 1/1 1/2 1/1",
    ),
    (
        "0.75",
        true,
        -1,
        "-1/2 -1/1 -1/1 -1/2 -1/2 -1/1 -1/2 -1/2 -1/1 -1/1 -1/2",
    ),
    (
        "12.25",
        false,
        0,
        "12/1 13/1 12/1 13/1 13/1 12/1 12/1 12/1 12/1 12/1 12/1",
    ),
    (
        "12.25",
        true,
        0,
        "-12/1 -13/1 -13/1 -12/1 -13/1 -12/1 -12/1 -12/1 -12/1 -12/1 -12/1",
    ),
    (
        "0.1",
        false,
        -4,
        "1/16 1/8 1/16 1/8 1/16 1/8 1/8 1/8 1/8 1/8 1/8",
    ),
    (
        "0.1",
        true,
        -4,
        "-1/16 -1/8 -1/8 -1/16 -1/16 -1/8 -1/8 -1/8 -1/8 -1/8 -1/8",
    ),
    (
        "7e-3",
        false,
        -8,
        "1/256 1/128 1/256 1/128 1/256 1/128 1/128 1/128 1/128 1/128 1/128",
    ),
    (
        "7e-3",
        true,
        -8,
        "-1/256 -1/128 -1/128 -1/256 -1/256 -1/128 -1/128 -1/128 -1/128 -1/128 -1/128",
    ),
    ("3", false, 1, "2/1 4/1 2/1 4/1 2/1 4/1 2/1 2/1 4/1 2/1 4/1"),
    (
        "3",
        true,
        1,
        "-2/1 -4/1 -4/1 -2/1 -2/1 -4/1 -2/1 -2/1 -4/1 -4/1 -2/1",
    ),
];

#[test]
fn directions_have_their_numbers(rt: HostRuntime) -> Result<(), Fail> {
    for (a, negative, lsb, wanted) in ROUNDED {
        let line = roundings(rt.alloc(), a, *negative, *lsb)?;
        assert_eq!(rt; line.as_str(), *wanted, "{a} {lsb}");
    }
    Ok(())
}
