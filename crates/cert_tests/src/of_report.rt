//! Lines that were worked out by hand.
ghost use Rattle.std.specs.Prelude.{◌<◌, ◌^◌, length};

use crate::equals::bytes_are;
use cert_bytes::{CertFault, CertKind};
use cert_checker::CheckFault;
use dyadic::{Dyadic, End};
use facts::HintMark;
use goal_spans::Span;
use goals::Line;
use interval::Interval;
use report::certificates::{cert_fault_line, check_fault_line};
use report::parts::part;
use report::proved::{answer_text, put_goal_line};
use report::refusals::refusal_line;
use report::runs::{boxes_text, expressions_text};
use script_judge::{LimitKind, Refusal, RefusalKind};
use script_words::words::read_words;
use std::alloc::{AllocError, Global};
use std::process::Abort;
use std::test::Fail;

fn at(rt: &impl Abort, m: i64, e: i32) -> End {
    End::At(Dyadic::new(m, e).expect(rt, "a number of the grid"))
}

fn range(rt: &impl Abort, lo: End, hi: End) -> Interval {
    Interval::new(lo, hi).expect(rt, "ends in order")
}

// The line of the tokens from `first` up to `end`, behind a line that stands already.
fn goal_line(
    alloc: Global,
    text: &[u8],
    first: usize,
    end: usize,
    range: Interval,
) -> Result<Vec<u8>, AllocError>
    requires { length text.now < 2 ^ 32 }
{
    let read = read_words(alloc, text)?;
    let tokens = read.list().tokens(alloc)?;
    let mut line = "before\n".as_bytes().to_vec(alloc)?;
    put_goal_line(
        &mut line,
        text,
        part(tokens.as_slice(), first, end),
        Line::In(range),
    )?;
    Ok(line)
}

#[test]
fn each_goal_has_its_line(rt: HostRuntime) -> Result<(), Fail> {
    let product = range(&rt, at(&rt, 3, 0), at(&rt, 5, 1));
    let half = range(&rt, End::Low, at(&rt, 1, -4));
    let above = range(&rt, at(&rt, 1, 0), End::High);
    let both = range(&rt, End::Low, End::High);
    let below = range(&rt, at(&rt, -8, -3), at(&rt, 0, 7));
    let rows: [(&[u8], usize, usize, Interval, &[u8]); 8] = [
        (
            b"{ x*y in ? }",
            1,
            4,
            product,
            b"before\nx * y in [3, 5b1]\n",
        ),
        (b"{ x in ? }", 1, 2, above, b"before\nx in [1, +inf]\n"),
        (b"x", 0, 1, half, b"before\nx in [-inf, 1b-4]\n"),
        (
            b"int<zr> # a comment\n(x)",
            0,
            7,
            below,
            b"before\nint < zr > ( x ) in [-1, 0]\n",
        ),
        (
            b"a-/b + 1.50",
            0,
            99,
            both,
            b"before\na -/ b + 1.50 in [-inf, +inf]\n",
        ),
        (b"x", 0, 0, above, b"before\n in [1, +inf]\n"),
        (b"x y", 2, 1, above, b"before\n in [1, +inf]\n"),
        (b"", 0, 9, above, b"before\n in [1, +inf]\n"),
    ];
    lines_are(&rt, rt.alloc(), &rows)
}

// A text, its tokens from one up to another, a range, and the line.
fn lines_are(
    rt: &impl Abort,
    alloc: Global,
    rows: &[(&[u8], usize, usize, Interval, &[u8])],
) -> Result<(), Fail> {
    for (text, first, end, range, wanted) in rows {
        assert!(rt; text.len() < 1000);
        let line = goal_line(alloc, *text, *first, *end, *range)?;
        bytes_are(rt, *end, line.as_slice(), *wanted);
    }
    Ok(())
}

#[test]
fn an_answer_has_its_goals_and_then_its_hints(rt: HostRuntime) -> Result<(), Fail> {
    let text: &[u8] = b"{ x*y in ? /\\ x-/y in ? /\\ x in ? }";
    assert!(rt; text.len() < 1000);
    let read = read_words(rt.alloc(), text)?;
    let tokens = read.list().tokens(rt.alloc())?;
    let spans = [
        Span { first: 1, end: 4 },
        Span { first: 7, end: 10 },
        Span { first: 13, end: 14 },
    ];
    let product = range(&rt, at(&rt, 3, 0), at(&rt, 5, 1));
    let answer = answer_text(
        rt.alloc(),
        text,
        tokens.as_slice(),
        &spans,
        &[Line::In(product), Line::None, Line::Empty],
        &[HintMark::Assumed, HintMark::Checked, HintMark::Assumed],
    )?;
    let wanted = "x * y in [3, 5b1]\nx -/ y in none\nx in empty\nhint 1 assumed\nhint 3 assumed\n";
    bytes_are(&rt, 0, answer.as_slice(), wanted.as_bytes());
    Ok(())
}

// The kind of a refusal, its byte, and its line.
const REFUSALS: &[(RefusalKind, u32, &str)] = &[
    (RefusalKind::Unexpected, 0, "script: Unexpected at 0\n"),
    (RefusalKind::BadBound, 10, "script: BadBound at 10\n"),
    (RefusalKind::NameUsed, 7, "script: NameUsed at 7\n"),
    (RefusalKind::FormulaForm, 13, "script: FormulaForm at 13\n"),
    (
        RefusalKind::UnsupportedOperator,
        2,
        "script: UnsupportedOperator at 2\n",
    ),
    (
        RefusalKind::NotText,
        u32::MAX,
        "script: NotText at 4294967295\n",
    ),
    (
        RefusalKind::Limit(LimitKind::Nesting),
        66,
        "script: Limit(Nesting) at 66\n",
    ),
    (
        RefusalKind::Limit(LimitKind::Lsb),
        11,
        "script: Limit(Lsb) at 11\n",
    ),
];

fn refusal_is(rt: &impl Abort, alloc: Global, refusal: Refusal, wanted: &str) -> Result<(), Fail> {
    let line = refusal_line(alloc, refusal)?;
    bytes_are(rt, 0, line.as_slice(), wanted.as_bytes());
    Ok(())
}

#[test]
fn each_refusal_has_its_line(rt: HostRuntime) -> Result<(), Fail> {
    for (kind, at, wanted) in REFUSALS {
        let refusal = Refusal {
            kind: *kind,
            at: *at,
        };
        refusal_is(&rt, rt.alloc(), refusal, wanted)?;
    }
    Ok(())
}

// The kind of what is no certificate, its byte, and its line.
const FAULTS: &[(CertKind, u64, &str)] = &[
    (CertKind::BadMagic, 0, "certificate: BadMagic at 0\n"),
    (CertKind::Truncated, 142, "certificate: Truncated at 142\n"),
    (
        CertKind::TooLong,
        17592186044416,
        "certificate: TooLong at 17592186044416\n",
    ),
];

fn cert_fault_is(
    rt: &impl Abort,
    alloc: Global,
    fault: CertFault,
    wanted: &str,
) -> Result<(), Fail> {
    let line = cert_fault_line(alloc, fault)?;
    bytes_are(rt, 0, line.as_slice(), wanted.as_bytes());
    Ok(())
}

// What is wrong with one, and its line.
const CHECK_FAULTS: &[(CheckFault, &str)] = &[
    (CheckFault::BadStep(2), "certificate: BadStep 2\n"),
    (
        CheckFault::BadPremise(u64::MAX),
        "certificate: BadPremise 18446744073709551615\n",
    ),
    (
        CheckFault::GoalMissing(0, 1),
        "certificate: GoalMissing 0 1\n",
    ),
    (CheckFault::WrongScript(1), "certificate: WrongScript 1\n"),
    (CheckFault::BadCases(2), "certificate: BadCases 2\n"),
];

fn check_fault_is(
    rt: &impl Abort,
    alloc: Global,
    fault: CheckFault,
    wanted: &str,
) -> Result<(), Fail> {
    let line = check_fault_line(alloc, fault)?;
    bytes_are(rt, 0, line.as_slice(), wanted.as_bytes());
    Ok(())
}

#[test]
fn each_fault_of_a_certificate_has_its_line(rt: HostRuntime) -> Result<(), Fail> {
    for (kind, at, wanted) in FAULTS {
        let fault = CertFault {
            kind: *kind,
            at: *at,
        };
        cert_fault_is(&rt, rt.alloc(), fault, wanted)?;
    }
    for (fault, wanted) in CHECK_FAULTS {
        check_fault_is(&rt, rt.alloc(), *fault, wanted)?;
    }
    Ok(())
}

#[test]
fn each_limit_has_its_line(rt: HostRuntime) -> Result<(), Fail> {
    let wanted = "limit: more than 1024 expressions\n";
    bytes_are(&rt, 0, expressions_text(), wanted.as_bytes());
    let line = boxes_text(rt.alloc(), 14)?;
    let wanted = "limit: more than 14 boxes\n";
    bytes_are(&rt, 0, line.as_slice(), wanted.as_bytes());
    Ok(())
}

#[test]
fn a_part_ends_where_its_list_ends(rt: HostRuntime) {
    let items = [4, 5, 6];
    const ROWS: &[(usize, usize, &[u8])] = &[
        (0, 3, &[4, 5, 6]),
        (1, 2, &[5]),
        (1, 9, &[5, 6]),
        (3, 3, &[]),
        (7, 9, &[]),
        (2, 1, &[]),
    ];
    for (first, end, wanted) in ROWS {
        bytes_are(&rt, *first, part(&items, *first, *end), *wanted);
    }
}
