//! Claims at values that were worked out by hand.

ghost use Rattle.std.specs.Prelude.{◌<◌, length, Some};
ghost use Rattle.literal_order.specs.Values.{IsWritten};
ghost use Rattle.script_claims.specs.Facts.{HasNormalBounds};

use crate::equals::{all_equal, holds};
use dyadic::{Dyadic, End};
use facts::{Fact, FixPlace, RelativeError, Slot};
use fx_model::ExprId;
use goals::Want;
use interval::Interval;
use literal::read;
use literal_order::Written;
use script_claims::{Claim, ClaimReader, formulas_are_read, goals_are_enough, hypotheses_hold};
use script_nodes::reader::NodeReader;
use script_shape::shape::shape_of;
use script_words::words::read_words;
use std::alloc::Global;
use std::process::Abort;
use std::test::Fail;

const X: ExprId = ExprId(0);

const Y: ExprId = ExprId(1);

const THIRD: ExprId = ExprId(2);

const FOURTH: ExprId = ExprId(3);

// The bound that is written with this text, a minus perhaps before its literal.
fn written(rt: &impl Abort, text: &str) -> Written
    ensures { IsWritten (Some result) }
{
    match text.strip_prefix("-") {
        Some(rest) => Written {
            literal: read(rest).expect(rt, "a literal"),
            negative: true,
        },
        None => Written {
            literal: read(text).expect(rt, "a literal"),
            negative: false,
        },
    }
}

fn range(rt: &impl Abort, lo: (i64, i32), hi: (i64, i32)) -> Option<Interval> {
    let end = |at: (i64, i32)| End::At(Dyadic::new(at.0, at.1).expect(rt, "a number of the grid"));
    Interval::new(end(lo), end(hi))
}

// Whether these are the claim's fact, what it wants, and what it is about.
fn is_used_as(claim: Claim, fact: Option<Fact>, want: Want, slot: Slot) -> bool
    requires { HasNormalBounds claim }
{
    claim.hypothesis() == fact && claim.want() == want && claim.slot() == slot
}

// The claim's fact is this, what it wants, and what it is about.
fn used_as(rt: &impl Abort, claim: Claim, fact: Option<Fact>, want: Want, slot: Slot)
    requires { HasNormalBounds claim }
{
    holds(rt, b"a claim", is_used_as(claim, fact, want, slot));
}

#[test]
fn bounds_are_rounded_outward_for_hypotheses(rt: HostRuntime) {
    hypotheses_hold();
    goals_are_enough();
    formulas_are_read();
    // 2^63 / 10 is 922337203685477580.8
    let below_tenth = (922337203685477580, -63);
    let above_tenth = (922337203685477581, -63);
    let tenth = written(&rt, "0.1");
    let two = written(&rt, "2");
    let x = Slot::Bnd(X);
    let outer = Fact::bnd(X, range(&rt, below_tenth, (2, 0)));
    let inner = Want::Inside(range(&rt, above_tenth, (2, 0)));
    used_as(
        &rt,
        Claim::Bounded(X, Some(tenth), Some(two)),
        outer,
        inner,
        x,
    );
    let around = Fact::bnd(X, range(&rt, below_tenth, above_tenth));
    let nothing = Want::Inside(None);
    let at_tenth = Claim::Bounded(X, Some(tenth), Some(tenth));
    used_as(&rt, at_tenth, around, nothing, x);
    used_as(
        &rt,
        Claim::Bounded(X, Some(two), Some(tenth)),
        None,
        nothing,
        x,
    );
    let at_most = Interval::new(End::Low, End::At(Dyadic::new(2, 0).expect(&rt, "2")));
    let above_nothing = Claim::Bounded(X, None, Some(two));
    let fact = Fact::bnd(X, at_most);
    used_as(&rt, above_nothing, fact, Want::Inside(at_most), x);
    used_as(&rt, Claim::Asked(X), None, Want::Ask, x);
}

#[test]
fn relative_errors_and_multiples(rt: HostRuntime) {
    let two = written(&rt, "2");
    let pair = Slot::Rel(X, Y);
    let half_up = range(&rt, (-1, -1), (2, 0));
    let error = RelativeError::new(half_up.expect(&rt, "an interval"));
    let related = Some(Fact::Rel(X, Y, error));
    let from_half = Claim::Relative(X, Y, written(&rt, "-1b-1"), two);
    used_as(&rt, from_half, related, Want::Inside(half_up), pair);
    let from_one = Claim::Relative(X, Y, written(&rt, "-1"), two);
    let one_up = Want::Inside(range(&rt, (-1, 0), (2, 0)));
    used_as(&rt, from_one, None, one_up, pair);
    used_as(&rt, Claim::RelativeAsked(X, Y), None, Want::Ask, pair);
    let least = Fact::fix(X, FixPlace::new(-1024));
    let nothing = Want::Inside(None);
    used_as(&rt, Claim::Multiple(X, -1024), least, nothing, Slot::Fix(X));
    used_as(&rt, Claim::Multiple(X, 513), None, nothing, Slot::Fix(X));
}

// What the formula of a text in braces claims.
fn claimed<'a>(alloc: Global, text: &'a [u8]) -> Result<ClaimReader<'a>, Fail>
    requires { length text.now < 1000 }
{
    let read = read_words(alloc, text)?;
    let words = read.list();
    let shape = shape_of(alloc, words)?;
    let mut reader = ClaimReader::new(alloc, NodeReader::new(alloc));
    for (number, role) in shape.roles.iter().enumerate().skip(1) {
        if let Some(word) = words.get(number) {
            reader.token(*role, word)?;
        }
    }
    Ok(reader)
}

fn claims_are(
    rt: &impl Abort,
    alloc: Global,
    text: &[u8],
    hypotheses: &[Claim],
    goals: &[Claim],
) -> Result<(), Fail> {
    assert!(rt; text.len() < 1000);
    let reader = claimed(alloc, text)?;
    all_equal(rt, text, reader.hypotheses(), hypotheses);
    all_equal(rt, text, reader.goals(), goals);
    Ok(())
}

#[test]
fn formulas_have_their_claims(rt: HostRuntime) -> Result<(), Fail> {
    let one = Some(written(&rt, "1"));
    let two = Some(written(&rt, "2"));
    let three = Some(written(&rt, "3"));
    let tenth = written(&rt, "0.1");
    let minus_tenth = written(&rt, "-0.1");
    let rows: [(&[u8], &[Claim], &[Claim]); 7] = [
        (
            b"{ x in [1,2] /\\ y <= 3 -> x*y in ? /\\ x >= 0.1 }",
            &[Claim::Bounded(X, one, two), Claim::Bounded(Y, None, three)],
            &[Claim::Asked(THIRD), Claim::Bounded(X, Some(tenth), None)],
        ),
        (
            b"{ x -/ y in [-0.1, +0.1] -> x + 0 -/ y in ? }",
            &[Claim::Relative(X, Y, minus_tenth, tenth)],
            &[Claim::RelativeAsked(FOURTH, Y)],
        ),
        (
            b"{ @FIX(fixed<-4,dn>(x) + 1, -5) -> x in ? }",
            &[Claim::Multiple(FOURTH, -5)],
            &[Claim::Asked(X)],
        ),
        (
            b"{ x in [-0.1, 1] }",
            &[],
            &[Claim::Bounded(X, Some(minus_tenth), one)],
        ),
        (
            b"{ x >= 1 -> y <= 2 -> x - y in ? }",
            &[Claim::Bounded(X, one, None), Claim::Bounded(Y, None, two)],
            &[Claim::Asked(THIRD)],
        ),
        (
            b"{ @FIX(x, 000000000000000000000512) /\\ @FIX(y, -99999999999999999999) -> fma(x, y, x) in ? }",
            &[Claim::Multiple(X, 512), Claim::Multiple(Y, -1025)],
            &[Claim::Asked(FOURTH)],
        ),
        (
            b"{ @FIX(x, 3) /\\ int<zr>(y) -/ x in [-0.1,2] }",
            &[],
            &[
                Claim::Multiple(X, 3),
                Claim::Relative(THIRD, X, minus_tenth, written(&rt, "2")),
            ],
        ),
    ];
    for (text, hypotheses, goals) in &rows {
        claims_are(&rt, rt.alloc(), *text, *hypotheses, *goals)?;
    }
    Ok(())
}

#[test]
fn a_denied_bound_is_a_strict_one(rt: HostRuntime) -> Result<(), Fail> {
    let one = written(&rt, "1");
    let two = written(&rt, "2");
    let hypotheses = [
        Claim::Above(X, one),
        Claim::Bounded(X, None, Some(two)),
        Claim::Below(Y, one),
    ];
    let text = b"{ not x <= 1 /\\ x <= 2 \\/ not y >= 1 -> x in ? }";
    claims_are(&rt, rt.alloc(), text, &hypotheses, &[Claim::Asked(X)])
}
