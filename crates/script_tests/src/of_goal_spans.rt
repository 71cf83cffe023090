//! Spans of texts, counted by hand.

ghost use Rattle.std.specs.Prelude.{◌<◌, ◌^◌, length};

use crate::equals::holds;
use goal_spans::{Span, goal_spans, spans_are_read};
use script_shape::shape::shape_of;
use script_words::words::read_words;
use std::alloc::{AllocError, Global};
use std::process::Abort;
use std::test::Fail;

// Whether the text is a script whose goals have these spans.
fn has_spans(alloc: Global, text: &[u8], spans: &[Span]) -> Result<bool, AllocError>
    requires { length text.now < 2 ^ 32 }
{
    let read = read_words(alloc, text)?;
    let shape = shape_of(alloc, read.list())?;
    let found = goal_spans(alloc, read.list(), shape.roles.as_slice())?;
    Ok(shape.whole && found.as_slice() == spans)
}

fn words(first: usize, end: usize) -> Span {
    Span { first, end }
}

fn spans_are(rt: &impl Abort, alloc: Global, text: &[u8], spans: &[Span]) -> Result<(), Fail> {
    assert!(rt; text.len() < 1000);
    holds(rt, text, has_spans(alloc, text, spans)?);
    Ok(())
}

#[test]
fn each_goal_has_its_span(rt: HostRuntime) -> Result<(), Fail> {
    spans_are_read();
    let rows: [(&[u8], &[Span]); 9] = [
        (b"{ x in ? }", &[words(1, 2)]),
        (
            b"{ x in [1,2] -> x*x in ? /\\ x - y -/ y in ? }",
            &[words(9, 12), words(15, 20)],
        ),
        (
            b"{ x in [1,2] /\\ y <= 3 -> x*y in ? /\\ x >= 0.1 }",
            &[words(13, 16), words(19, 20)],
        ),
        (b"{ x >= 1 -> y <= 2 -> |x - y| in [0,2] }", &[words(9, 14)]),
        (
            b"{ x in [-1,1] -> x + 0 -/ fma(x,x,1) in ? }",
            &[words(10, 22)],
        ),
        (
            b"@f = fixed<-4,ne>; z f= x + y; { f(z) - (x+y) in ? }",
            &[words(19, 29)],
        ),
        (
            b"{ x in ? /\\ y >= 1 } x -> y { y <> 0, x <= 2 }; x $ y; $ x in 4;",
            &[words(1, 2), words(5, 6)],
        ),
        (b"{ @FIX(x, 3) /\\ y in ? }", &[words(1, 1), words(9, 10)]),
        (b"# nothing\nx = 1; { x <= 1 -> x <= 2 }", &[words(9, 10)]),
    ];
    for (text, spans) in &rows {
        spans_are(&rt, rt.alloc(), *text, *spans)?;
    }
    Ok(())
}

// Where words are only the front of a script, a proposition that hasn't ended has no span.
#[test]
fn a_goal_without_its_end_has_no_span(rt: HostRuntime) -> Result<(), Fail> {
    let read = read_words(rt.alloc(), b"{ x in ? /\\ y in ?")?;
    let words = read.list();
    let shape = shape_of(rt.alloc(), words)?;
    let found = goal_spans(rt.alloc(), words, shape.roles.as_slice())?;
    assert!(rt; found.as_slice() == [Span { first: 1, end: 2 }].as_slice());
    Ok(())
}
