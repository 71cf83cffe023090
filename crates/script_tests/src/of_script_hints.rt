//! Hints with what they say, worked out by hand.
ghost use Rattle.std.specs.Prelude.{◌<◌, length, Some};
ghost use Rattle.literal_order.specs.Values.{IsWritten};

use crate::equals::{all_equal, equal};
use dyadic::{Dyadic, End};
use facts::Need;
use fx_model::ExprId;
use literal::read;
use literal_order::Written;
use script_hints::hint::{Constraint, Cutting, Hint, HintList, Split};
use script_hints::reader::HintReader;
use script_nodes::reader::NodeReader;
use script_shape::shape::shape_of;
use script_words::words::read_words;
use std::alloc::Global;
use std::process::Abort;
use std::test::Fail;

// What the hints of a text say. The formula `{ x in ? }` isn't read, so that the hints' own nodes
// come first.
fn said(alloc: Global, text: &[u8]) -> Result<HintList, Fail>
    requires { length text.now < 1000 }
{
    let read = read_words(alloc, text)?;
    let words = read.list();
    let shape = shape_of(alloc, words)?;
    let mut reader = HintReader::new(alloc, NodeReader::new(alloc));
    for (number, role) in shape.roles.iter().enumerate().skip(5) {
        if let Some(word) = words.get(number) {
            reader.token(*role, word)?;
        }
    }
    let (_, list) = reader.into_parts();
    Ok(list)
}

fn number(rt: &impl Abort, mantissa: i64, exponent: i32) -> Dyadic {
    Dyadic::new(mantissa, exponent).expect(rt, "a number of the grid")
}

// The number of a literal's text, or its negative.
fn written(rt: &impl Abort, text: &str, negative: bool) -> Written
    ensures { IsWritten (Some result) }
{
    Written {
        literal: read(text).expect(rt, "a literal"),
        negative,
    }
}

const REWRITING: &[u8] = b"{ x in ? } x -> y { y <> 0, x - y < 0.1, x >= -5 }; y -> x; \
    x -> x { x < 5, y > -5b1, y <= +0.1 };";

// The sides of the rewriting, and its constraints.
fn rewrite_is(
    rt: &impl Abort,
    rewrites: &[Hint],
    number: usize,
    sides: (ExprId, ExprId),
    constraints: &[Constraint],
) {
    let Some(rewrite) = rewrites.get(number) else {
        panic!(rt; "no rewriting {number}");
    };
    equal(rt, REWRITING, (rewrite.left, rewrite.right), sides);
    all_equal(rt, REWRITING, rewrite.constraints.as_slice(), constraints);
}

#[test]
fn rewritings_have_their_constraints(rt: HostRuntime) -> Result<(), Fail> {
    let list = said(rt.alloc(), REWRITING)?;
    let (x, y, difference) = (ExprId(0), ExprId(1), ExprId(2));
    let rewrites = list.rewrites.as_slice();
    equal(&rt, REWRITING, rewrites.len(), 3);
    let constraints = [
        Constraint::NotZero(y),
        Constraint::Below(difference, written(&rt, "0.1", false), true),
        Constraint::Above(x, written(&rt, "5", true), false),
    ];
    rewrite_is(&rt, rewrites, 0, (x, y), &constraints);
    rewrite_is(&rt, rewrites, 1, (y, x), &[]);
    let constraints = [
        Constraint::Below(x, written(&rt, "5", false), true),
        Constraint::Above(y, written(&rt, "5b1", true), true),
        Constraint::Below(y, written(&rt, "0.1", false), false),
    ];
    rewrite_is(&rt, rewrites, 2, (x, x), &constraints);
    Ok(())
}

#[test]
fn needs_are_rounded_inward(rt: HostRuntime) {
    let at = |mantissa: i64, exponent: i32| End::At(number(&rt, mantissa, exponent));
    let x = ExprId(0);
    // 2^63 / 10 is 922337203685477580.8
    let tenth = written(&rt, "0.1", false);
    let five = written(&rt, "5", true);
    let need = Constraint::NotZero(x).need();
    equal(&rt, b"not zero", need, Need::NotZero(x));
    let need = Constraint::Below(x, tenth, true).need();
    let wanted = Need::Below(x, at(922337203685477580, -63), false);
    equal(&rt, b"below a tenth", need, wanted);
    let need = Constraint::Above(x, tenth, false).need();
    let wanted = Need::Above(x, at(922337203685477581, -63), false);
    equal(&rt, b"above a tenth", need, wanted);
    let need = Constraint::Below(x, five, true).need();
    equal(&rt, b"below -5", need, Need::Below(x, at(-5, 0), true));
}

const CUTTING: &[u8] = b"{ x in ? } $ x; $ y in 007; x ~ y; $ z in (-1, 0.1, +2);";

// The cut is along this variable, into so many pieces.
fn pieces_are(rt: &impl Abort, cut: &Split, var: ExprId, wanted: u8) {
    equal(rt, CUTTING, cut.var, var);
    match &cut.cut {
        Cutting::Pieces(found) => equal(rt, CUTTING, *found, wanted),
        Cutting::Points(_) => panic!(rt; "no pieces"),
    }
}

// The cut is along this variable, at these points.
fn points_are(rt: &impl Abort, cut: &Split, var: ExprId, wanted: &[Dyadic]) {
    equal(rt, CUTTING, cut.var, var);
    match &cut.cut {
        Cutting::Points(found) => all_equal(rt, CUTTING, found.as_slice(), wanted),
        Cutting::Pieces(_) => panic!(rt; "no points"),
    }
}

fn cuts_are(rt: &impl Abort, cuts: &[Split]) {
    let [first, second, third] = cuts else {
        panic!(rt; "three cuts");
    };
    pieces_are(rt, first, ExprId(0), 4);
    pieces_are(rt, second, ExprId(1), 7);
    let below_tenth = number(rt, 922337203685477580, -63);
    let points = [number(rt, -1, 0), below_tenth, number(rt, 2, 0)];
    points_are(rt, third, ExprId(2), &points);
}

#[test]
fn cuts_have_their_pieces(rt: HostRuntime) -> Result<(), Fail> {
    let list = said(rt.alloc(), CUTTING)?;
    cuts_are(&rt, list.cuts.as_slice());
    let (x, y, z) = (ExprId(0), ExprId(1), ExprId(2));
    all_equal(&rt, CUTTING, list.likes.as_slice(), &[(x, y)]);
    all_equal(&rt, CUTTING, list.order.as_slice(), &[x, y, z]);
    equal(&rt, CUTTING, list.halves.as_slice().len(), 0);
    Ok(())
}

const HALVING: &[u8] = b"{ x in ? } x + y, x $ y; $ z in 2; x $ x, y, z; $ x in 3;";

#[test]
fn variables_are_halved_once(rt: HostRuntime) -> Result<(), Fail> {
    // the nodes are x, y, x + y, z
    let list = said(rt.alloc(), HALVING)?;
    let (x, y, z) = (ExprId(0), ExprId(1), ExprId(3));
    all_equal(&rt, HALVING, list.halves.as_slice(), &[y, x, z]);
    all_equal(&rt, HALVING, list.order.as_slice(), &[y, z, x]);
    equal(&rt, HALVING, list.cuts.as_slice().len(), 2);
    Ok(())
}
