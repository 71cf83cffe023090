//! Refusals of texts, worked out by hand.

ghost use Rattle.std.specs.Prelude.{◌<◌};

use crate::equals::equal;
use script_grammar::first_refusal;
use script_judge::{LimitKind, Refusal, RefusalKind};
use std::alloc::{AllocError, Global};
use std::process::Abort;
use std::test::Fail;

fn refusal_is(
    rt: &impl Abort,
    alloc: Global,
    text: &[u8],
    wanted: Option<Refusal>,
) -> Result<(), Fail> {
    equal(rt, text, first_refusal(alloc, text)?, wanted);
    Ok(())
}

#[test]
fn each_text_has_its_first_refusal(rt: HostRuntime) -> Result<(), Fail> {
    const ROWS: &[(&[u8], RefusalKind, u32)] = &[
        (b"", RefusalKind::Unexpected, 0),
        (b"{ x in [1,2", RefusalKind::Unexpected, 11),
        (b"{ x in [0,1] \\/ x in ? }", RefusalKind::FormulaForm, 13),
        (b"{ not x <= 1 }", RefusalKind::FormulaForm, 2),
        // of the forms that only hypotheses have
        (b"{ not x in [0,1] -> x in ? }", RefusalKind::FormulaForm, 2),
        (b"{ not", RefusalKind::FormulaForm, 2),
        (b"{ not not x <= 1 -> x in ? }", RefusalKind::FormulaForm, 2),
        (b"{ x in [0,1] \\/", RefusalKind::FormulaForm, 13),
        (b"{ x in [0,1] \\/ } $ x;", RefusalKind::FormulaForm, 13),
        (
            b"{ (x \\/ y) in [0,1] -> x in ? }",
            RefusalKind::Unexpected,
            5,
        ),
        (b"{ not @FIX(x,0) -> x in ? }", RefusalKind::FormulaForm, 2),
        (
            b"{ not x -/ y in [0,1] -> x in ? }",
            RefusalKind::FormulaForm,
            2,
        ),
        (
            b"{ x <= 1 -> not x >= 2 -> not x <= 0 }",
            RefusalKind::FormulaForm,
            26,
        ),
        (
            b"{ x <= 1 -> x >= 0 \\/ x in ? }",
            RefusalKind::FormulaForm,
            19,
        ),
        (
            b"{ x in [0,1] \\/ x in ? -> x in ? }",
            RefusalKind::FormulaForm,
            21,
        ),
        (b"{ x <= not 1 -> x in ? }", RefusalKind::Unexpected, 7),
        (b"{ x in [0,1] not -> x in ? }", RefusalKind::Unexpected, 13),
        (
            b"{ x <= 1 -> x in ? } a -> b { not a <> 0 };",
            RefusalKind::Unexpected,
            30,
        ),
        // of split ranges of cases
        (
            b"{ x in [0,1] \\/ y in [0,1] -> x in ? } $ x;",
            RefusalKind::SplitRange,
            41,
        ),
        (
            b"{ x in [0,1] \\/ not x >= 1 -> x in ? } $ x;",
            RefusalKind::SplitRange,
            41,
        ),
        (
            b"{ x in [0,1] \\/ x in [2,3] -> y in [0,1] \\/ y <= 1 -> x in ? } $ x; $ y;",
            RefusalKind::SplitRange,
            70,
        ),
        (
            b"{ x in [0,1] \\/ x in [2,3] -> x in ? } $ x in (0.5, 1.5);",
            RefusalKind::BadSplit,
            52,
        ),
        (
            b"{ x in [0,1] \\/ x in [2,3] -> x in ? } $ x in (2.5, 0.5);",
            RefusalKind::BadSplit,
            52,
        ),
        (
            b"{ x in [0,1] \\/ x in [2,3] -> x in ? } $ x in (1);",
            RefusalKind::BadSplit,
            47,
        ),
        (b"{ sqrt(x) in ? }", RefusalKind::UnsupportedOperator, 2),
        (b"{ x in [0,1] -> x in ? } !", RefusalKind::BadToken, 25),
        (b"{ x\xff", RefusalKind::NotText, 3),
        (b"foo(x) = 3;", RefusalKind::UnsupportedOperator, 0),
        (b"y q 3", RefusalKind::Unexpected, 2),
        (b"y q= 3", RefusalKind::UnsupportedOperator, 2),
        (b"a = 1; b a= 2;", RefusalKind::Unexpected, 9),
        (b"@ name = in ;", RefusalKind::UnsupportedOperator, 9),
        (b"@q = int<not>;", RefusalKind::UnsupportedOperator, 9),
        (b"x = 1; x = 2; { x in ? }", RefusalKind::NameUsed, 7),
        (b"x = x + 1;", RefusalKind::NameUsed, 0),
        (b"x = x +", RefusalKind::NameUsed, 0),
        (b"y = y(1);", RefusalKind::NameUsed, 0),
        (b"y y= 1;", RefusalKind::UnsupportedOperator, 2),
        (b"{ @", RefusalKind::Unexpected, 3),
        (b"{ @FIX(x,0) /\\ x in [1,2", RefusalKind::FormulaForm, 2),
        (b"{ x in ? -> x in ? }", RefusalKind::FormulaForm, 7),
        (
            b"{ x in ? /\\ sqrt(y) in [0,1] -> z in ? }",
            RefusalKind::UnsupportedOperator,
            12,
        ),
        (
            b"{ x in [5,1e-99] -> x in ? }",
            RefusalKind::LiteralLimit,
            10,
        ),
        (
            b"{ x in [0,-1e99] -> x in ? }",
            RefusalKind::LiteralLimit,
            11,
        ),
        (
            b"{ x in [0,1] -> x in ? } $ x in 0;",
            RefusalKind::BadSplit,
            32,
        ),
        (b"y = 1; { y in ? } $ y;", RefusalKind::BadSplit, 20),
        (
            b"@q = fixed<513,dn>;",
            RefusalKind::Limit(LimitKind::Lsb),
            11,
        ),
        (
            b"{ x in [0,1] -> x in ? } $ x in 65;",
            RefusalKind::Limit(LimitKind::Pieces),
            32,
        ),
        (
            b"{ a in [0,1] /\\ b in [0,1] /\\ c in [0,1] /\\ d in [0,1] /\\ e in [0,1] -> a in ? } a $ a,b,c,d,e;",
            RefusalKind::Limit(LimitKind::Splits),
            93,
        ),
        (b"{ x in [2,1] -> x in ? }", RefusalKind::BadBound, 10),
        (b"{ x in [2,+1] -> x in ? }", RefusalKind::BadBound, 10),
        (b"{ x in [-1,-2", RefusalKind::BadBound, 11),
        (b"{ x in [-1,-", RefusalKind::Unexpected, 12),
        (b"{ x in [1b-1,0.4] }", RefusalKind::BadBound, 13),
        (b"{ x -/ y in [-1,2] }", RefusalKind::BadBound, 13),
        (
            b"{ x -/ y in [-0.9999999999999999999999,1] }",
            RefusalKind::BadBound,
            13,
        ),
        (b"{ x -/ y in [0,-0.5] }", RefusalKind::BadBound, 15),
        (b"{ x in ? } $ x;", RefusalKind::SplitRange, 13),
        (b"{ x in [0,1] } $ x;", RefusalKind::SplitRange, 17),
        (b"{ x in ? } x $ y;", RefusalKind::SplitRange, 15),
        (
            b"{ -x in [0,1] /\\ x -/ x in [0,1] /\\ x <= 1 -> x in ? } $ x;",
            RefusalKind::SplitRange,
            57,
        ),
        (
            b"{ x in [0,999999999999999999999999999999b512] -> x in ? } $ x;",
            RefusalKind::SplitRange,
            60,
        ),
        (
            b"y = x; { y in [0,1] -> y in ? } $ y;",
            RefusalKind::BadSplit,
            34,
        ),
        (
            b"y = x + 0; { y in [0,1] -> y in ? } $ x;",
            RefusalKind::SplitRange,
            38,
        ),
        (
            b"{ x in [0,1] -> x in ? } $ x in (0);",
            RefusalKind::BadSplit,
            33,
        ),
        (
            b"{ x in [0,1] -> x in ? } $ x in (0.5, -0.6);",
            RefusalKind::BadSplit,
            38,
        ),
        (
            b"{ x in [0,1] -> x in ? } $ x in (0.5, 1b-1);",
            RefusalKind::BadSplit,
            38,
        ),
        (
            b"{ x in [0,1] -> x in ? } $ x in (0.3, 0.3000000000000000000000001);",
            RefusalKind::BadSplit,
            38,
        ),
        (
            b"{ x in [0,1] /\\ x in [0,2] -> x in ? } $ x in (1);",
            RefusalKind::BadSplit,
            47,
        ),
    ];
    for (text, kind, at) in ROWS {
        let wanted = Refusal {
            kind: *kind,
            at: *at,
        };
        refusal_is(&rt, rt.alloc(), *text, Some(wanted))?;
    }
    Ok(())
}

#[test]
fn scripts_have_no_refusal(rt: HostRuntime) -> Result<(), Fail> {
    const ROWS: &[&[u8]] = &[
        b"{ x in ? }",
        b"@q = fixed<-15,dn>; x = q(xx); y q= x * x; My = x * x; { xx in [0,1] -> y - My in ? }",
        b"{ @FIX(a,-15) /\\ a in [0,1] -> |a| -/ 2 in ? } a -> b { b <> 0, a < 1 }; $ a in (0.5, 0.75);",
        b"y fixed<-4,dn>= x + 1; { x in [0,1] -> fma(x, -y, int<zr>(x)) in ? } x, y + 1 $ x; x ~ y;",
        b"@FIX = int<up>; y = FIX(x); { @FIX(y,3) -> y in ? }",
        b"{ x in [0.5,1b-1] /\\ y -/ x in [-0.99,-0.5] /\\ x in [-1,1] -> x in [-2,-1] /\\ x <= -1 /\\ x <= -2 }",
        b"@q = int<dn>; y q= (x); { ((y)) in [0,1] -> x in ? } $ x in (1b-3, +0.5); x $ x;",
        b"{ x in [0,999999999999999999999999999999b512] /\\ (x) in [0,1] -> x in [0,1] -> x in ? } x, x $ x, x;",
        b"{ x in [0,1] \\/ x in [3,4] -> x * x in ? }",
        b"{ x in [0,1] /\\ x in [2,3] \\/ x in [4,5] -> x in ? } $ x in (0.5, 4.5);",
        b"{ x in [-1,1] /\\ not x >= 0 -> not x - y <= 1 \\/ @FIX(x,0) -> x in ? }",
        b"{ x in [0,1] -> y <= 1 \\/ not y >= 2 -> x in ? } $ x; x $ x;",
        b"{ x in [0,1] \\/ x in [0,1] -> x in ? } $ x in (0.25, 0.5);",
    ];
    for text in ROWS {
        refusal_is(&rt, rt.alloc(), *text, None)?;
    }
    Ok(())
}

/// `{ `, so many opening parentheses, `x`, so many closing ones, ` in ? }`.
fn nested(alloc: Global, depth: usize) -> Result<Vec<u8>, AllocError> {
    let mut text = Vec::new(alloc);
    text.extend_from_slice(b"{ ".as_slice())?;
    for _ in 0..depth {
        text.push(b'(')?;
    }
    text.push(b'x')?;
    for _ in 0..depth {
        text.push(b')')?;
    }
    text.extend_from_slice(b" in ? }".as_slice())?;
    Ok(text)
}

const NESTED: Refusal = Refusal {
    kind: RefusalKind::Limit(LimitKind::Nesting),
    at: 66,
};

// The refusal of a text that is nested so deep.
fn nested_is(
    rt: &impl Abort,
    alloc: Global,
    depth: usize,
    wanted: Option<Refusal>,
) -> Result<(), Fail> {
    let text = nested(alloc, depth)?;
    equal(rt, b"nested", first_refusal(alloc, &text)?, wanted);
    Ok(())
}

// `{ `, and so many opening parentheses.
fn opened(alloc: Global, depth: usize) -> Result<Vec<u8>, AllocError> {
    let mut text = Vec::new(alloc);
    text.extend_from_slice(b"{ ".as_slice())?;
    for _ in 0..depth {
        text.push(b'(')?;
    }
    Ok(text)
}

// The refusal of a text of so many parentheses.
fn opened_is(rt: &impl Abort, alloc: Global, depth: usize, wanted: Refusal) -> Result<(), Fail> {
    let text = opened(alloc, depth)?;
    equal(rt, b"opened", first_refusal(alloc, &text)?, Some(wanted));
    Ok(())
}

#[test]
fn nesting_and_bytes_past_their_limits_are_refused(rt: HostRuntime) -> Result<(), Fail> {
    nested_is(&rt, rt.alloc(), 64, None)?;
    nested_is(&rt, rt.alloc(), 65, Some(NESTED))?;
    opened_is(&rt, rt.alloc(), 1_048_574, NESTED)?;
    let longer = Refusal {
        kind: RefusalKind::Limit(LimitKind::Bytes),
        at: 1_048_576,
    };
    opened_is(&rt, rt.alloc(), 1_048_575, longer)
}

/// `{ x<=1`, so often `\\/x<=1`, and ` -> x<=1 \\/ x<=1 -> x in ? }`.
fn disjoined(alloc: Global, more: usize) -> Result<Vec<u8>, AllocError> {
    let mut text = Vec::new(alloc);
    text.extend_from_slice(b"{ x<=1".as_slice())?;
    for _ in 0..more {
        text.extend_from_slice(b"\\/x<=1".as_slice())?;
    }
    text.extend_from_slice(b" -> x<=1 \\/ x<=1 -> x in ? }".as_slice())?;
    Ok(text)
}

// The refusal of a text with so many more cases, or the byte at which it has too many.
fn cases_are(rt: &impl Abort, alloc: Global, more: usize, past: Option<u32>) -> Result<(), Fail> {
    let text = disjoined(alloc, more)?;
    let kind = RefusalKind::Limit(LimitKind::Cases);
    let wanted = match past {
        Some(at) => Some(Refusal { kind, at }),
        None => None,
    };
    equal(rt, b"cases", first_refusal(alloc, &text)?, wanted);
    Ok(())
}

#[test]
fn more_than_64_cases_are_refused(rt: HostRuntime) -> Result<(), Fail> {
    cases_are(&rt, rt.alloc(), 31, None)?;
    cases_are(&rt, rt.alloc(), 32, Some(207))?;
    cases_are(&rt, rt.alloc(), 80, Some(384))
}
