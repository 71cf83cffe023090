//! Tokens and words of texts, worked out by hand.

ghost use Rattle.std.specs.Prelude.{◌<◌, ◌^◌, length};

use crate::equals::{all_equal, equal};
use script_words::class::{Number, Spelled, Symbol};
use script_words::words::{Word, read_words};
use std::alloc::{AllocError, Global};
use std::process::Abort;
use std::test::Fail;

/// The texts of the tokens, each with a line feed behind it, and the first byte that begins none.
fn lexed(alloc: Global, text: &[u8]) -> Result<(Vec<u8>, Option<u32>), AllocError>
    requires { length text.now < 2 ^ 32 }
{
    let read = read_words(alloc, text)?;
    let mut joined = Vec::new(alloc);
    let tokens = read.list().tokens(alloc)?;
    for token in &tokens {
        let spelled = text.get(token.start as usize..token.end as usize);
        joined.extend_from_slice(spelled.unwrap_or(&[]))?;
        joined.push(b'\n')?;
    }
    Ok((joined, read.bad))
}

fn tokens_are(
    rt: &impl Abort,
    alloc: Global,
    text: &[u8],
    tokens: &[u8],
    bad: Option<u32>,
) -> Result<(), Fail> {
    assert!(rt; text.len() < 1000);
    let (joined, at) = lexed(alloc, text)?;
    all_equal(rt, text, joined.as_slice(), tokens);
    equal(rt, text, at, bad);
    Ok(())
}

#[test]
fn tokens_of_texts(rt: HostRuntime) -> Result<(), Fail> {
    const ROWS: &[(&[u8], &[u8], Option<u32>)] = &[
        (b"", b"", None),
        (b" \t\r\n", b"", None),
        (b"# no line feed", b"", None),
        (b"x # a b\n y", b"x\ny\n", None),
        (b"x#y", b"x\n", None),
        (b"#a\n#b\nz", b"z\n", None),
        (b"1.", b"1\n", Some(1)),
        (b"1.5", b"1.5\n", None),
        (b"1.5.2", b"1.5\n", Some(3)),
        (b".5", b"", Some(0)),
        (b"1e+", b"", Some(0)),
        (b"1e5", b"1e5\n", None),
        (b"1e-05+", b"1e-05\n+\n", None),
        (b"1E5", b"", Some(0)),
        (b"2.5e1 2.5e", b"2.5e1\n", Some(6)),
        (b"0x", b"", Some(0)),
        (b"0xg", b"", Some(0)),
        (b"0x1.8p1", b"0x1.8p1\n", None),
        (b"0xAf.p1", b"0xAf\n", Some(4)),
        (b"0x1p-", b"", Some(0)),
        (b"0X1", b"", Some(0)),
        (b"12x", b"", Some(0)),
        (b"1b-", b"", Some(0)),
        (b"1b-53", b"1b-53\n", None),
        (b"1b3.5", b"1b3\n", Some(3)),
        (b"1.5b3", b"", Some(0)),
        (b"10b0x", b"", Some(0)),
        (b"1_0", b"", Some(0)),
        (b"_1 a_b X9", b"_1\na_b\nX9\n", None),
        (b"1-2", b"1\n-\n2\n", None),
        (b"a<-b", b"a\n<\n-\nb\n", None),
        (b"a-/b - /c", b"a\n-/\nb\n-\n/\nc\n", None),
        (
            b"a->b <> c >= d <= e",
            b"a\n->\nb\n<>\nc\n>=\nd\n<=\ne\n",
            None,
        ),
        (b"/\\ \\/ /", b"/\\\n\\/\n/\n", None),
        (b"\\", b"", Some(0)),
        (b"a \\ b", b"a\n", Some(2)),
        (
            b"{}()[],;=+-*/|><?$~@",
            b"{\n}\n(\n)\n[\n]\n,\n;\n=\n+\n-\n*\n/\n|\n>\n<\n?\n$\n~\n@\n",
            None,
        ),
        (b"---/", b"-\n-\n-/\n", None),
        (b"a\x00b", b"a\n", Some(1)),
        (b"a\xc3\xa9", b"a\n", Some(1)),
        (b"7\xff", b"7\n", Some(1)),
        (b"!", b"", Some(0)),
    ];
    for (text, tokens, bad) in ROWS {
        tokens_are(&rt, rt.alloc(), *text, *tokens, *bad)?;
    }
    Ok(())
}

/// A letter for each word: its class, with capitals for names of operators.
fn letter(word: Word<'_>) -> u8 {
    match word {
        Word::Name(Spelled::Plain, _) => b'n',
        Word::Name(Spelled::Direction, _) => b'd',
        Word::Name(Spelled::Fix, _) => b'f',
        Word::Rounding(Spelled::Plain, _) => b'N',
        Word::Rounding(Spelled::Direction, _) => b'D',
        Word::Rounding(Spelled::Fix, _) => b'F',
        Word::Literal(Number::Zero, _) => b'0',
        Word::Literal(Number::Digits, _) => b'1',
        Word::Literal(Number::Other, _) => b'.',
        Word::Sign(Symbol::In) => b'i',
        Word::Sign(Symbol::Semicolon) => b';',
        Word::Sign(Symbol::At) => b'@',
        Word::Sign(Symbol::Equal) => b'=',
        Word::Sign(_) => b's',
    }
}

fn letters(alloc: Global, text: &[u8]) -> Result<Vec<u8>, AllocError>
    requires { length text.now < 2 ^ 32 }
{
    let read = read_words(alloc, text)?;
    let mut found = Vec::new(alloc);
    let words = read.list();
    for number in 0..words.len() {
        found.push(letter(words.at(number)))?;
    }
    Ok(found)
}

fn letters_are(rt: &impl Abort, alloc: Global, text: &[u8], wanted: &[u8]) -> Result<(), Fail> {
    assert!(rt; text.len() < 1000);
    let found = letters(alloc, text)?;
    all_equal(rt, text, found.as_slice(), wanted);
    Ok(())
}

#[test]
fn words_of_texts(rt: HostRuntime) -> Result<(), Fail> {
    const ROWS: &[(&[u8], &[u8])] = &[
        (
            b"x FIX FIXx dn dna zr aw up od ne no nz na nd nu",
            b"nfndndddddddddd",
        ),
        (b"0 00 12 0.0 0x1 1b2 1e3", b"011...."),
        (b"in not fixed int fma float sqrt inn", b"issssssn"),
        (b"@q = int<dn>; q(x)", b"@n=ssds;Nsns"),
        // an operator only behind its `;`, and a value never
        (b"@q = q q; q Q", b"@n=nn;Nn"),
        (b"q = 1; q", b"n=1;n"),
        (b"@q + 1; q", b"@ns1;n"),
        (b"@q; q", b"@n;n"),
        (b"@ @ q = 1 ; q", b"@@n=1;N"),
        (b"@q = 1 @ r = 2; q r", b"@n=1@n=1;Nn"),
        (b"@in = int<up>; in", b"@i=ssds;i"),
        (b"@q = 1; @r = 2; q r q", b"@n=1;@n=1;NNN"),
        (b"@q = 1; @q = 2; q", b"@n=1;@N=1;N"),
        (b"@dn = 1; @FIX = 2; dn FIX up", b"@d=1;@f=1;DFd"),
    ];
    for (text, wanted) in ROWS {
        letters_are(&rt, rt.alloc(), *text, *wanted)?;
    }
    Ok(())
}
