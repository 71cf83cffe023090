//! Where texts leave the grammar, worked out by hand.

ghost use Rattle.std.specs.Prelude.{◌<◌, ◌^◌, length};

use crate::equals::equal;
use script_shape::shape::shape_of;
use script_words::words::read_words;
use std::alloc::{AllocError, Global};
use std::process::Abort;
use std::test::Fail;

/// The place of the first word that is not taken, of a byte that begins no token, or of an end that
/// comes too early.
fn fault(alloc: Global, text: &[u8]) -> Result<Option<usize>, AllocError>
    requires { length text.now < 2 ^ 32 }
{
    let read = read_words(alloc, text)?;
    let words = read.list();
    let shape = shape_of(alloc, words)?;
    if let Some(token) = words.token(shape.roles.len()) {
        return Ok(Some(token.start as usize));
    }
    if let Some(at) = read.bad {
        return Ok(Some(at as usize));
    }
    Ok(if shape.whole { None } else { Some(text.len()) })
}

fn fault_is(
    rt: &impl Abort,
    alloc: Global,
    text: &[u8],
    wanted: Option<usize>,
) -> Result<(), Fail> {
    assert!(rt; text.len() < 1000);
    equal(rt, text, fault(alloc, text)?, wanted);
    Ok(())
}

#[test]
fn scripts_have_no_fault(rt: HostRuntime) -> Result<(), Fail> {
    const ROWS: &[&[u8]] = &[
        b"{ x in [0,1] \\/ not x <= 3 -> x in ? }",
        b"@q = fixed<0,dn>; a q= x * 1; { q(x) in ? } x -> y { x <> 0 }; $ x in (1,2);",
    ];
    for text in ROWS {
        fault_is(&rt, rt.alloc(), *text, None)?;
    }
    Ok(())
}

#[test]
fn each_text_has_its_first_fault(rt: HostRuntime) -> Result<(), Fail> {
    const ROWS: &[(&[u8], usize)] = &[
        (b"", 0),
        (b"{ x in [1,2", 11),
        (b"{ x in [0,1] \\/ \\/ x in ? }", 16),
        (b"{ sqrt(x) in ? }", 2),
        (b"{ x in [0,1] -> x in ? } !", 25),
        (b"{ x in [1.,2] }", 9),
        (b"{ x in [1e+,2] }", 8),
        (b"{ f(x) in ? }", 3),
        (b"@q = fixed<0,dn>; { q in ? }", 22),
        (b"{ x - / y in ? }", 6),
        (b"{ x -/ y }", 9),
        (b"{ (x| in ? }", 4),
        (b"{ |x in ? }", 5),
        (b"{ x in [1/2,1] }", 9),
        (b"{ x in ? } x -> y { x <> 1 };", 25),
        (b"{ x < 1 }", 4),
        (b"{ x in ? } $ x in 0.5;", 18),
        (b"{ x in ? -> y in ? } ; ", 21),
        (b"foo(x) = 3;", 3),
        (b"y q 3", 2),
        (b"a = 1; b a= 2;", 9),
        (b"@q = in ;", 5),
        (b"{ @", 3),
        (b"@q = fixed<00,up> ; { x in ? } x -> y { x <> 00 };", 45),
        (b"{ x in ? } $ x in ();", 19),
        (b"{ @FIX(x) in ? }", 8),
    ];
    for (text, at) in ROWS {
        fault_is(&rt, rt.alloc(), *text, Some(*at))?;
    }
    Ok(())
}
