// Texts at each limit and one past it. Expected lines were worked out by hand.
use crate::runs::{text_of, words_end};
use command_runs::Status;
use std::alloc::{AllocError, Global};
use std::process::Abort;
use std::sync::Wait;
use std::test::Fail;
use std::thread::Threads;

// The pieces of a text, each with how often it stands there.
type Pieces = &'static [(&'static str, usize)];

const ANSWERED: Status = Status::Answered;

const UNPROVED: Status = Status::Unproved;

const REFUSED: Status = Status::Script;

const FIRST: &str = "unproved: goal 1 at the whole box\n";

fn rows_end(
    rt: &(impl Abort + Threads + Wait + Sync),
    alloc: Global,
    rows: &[(Pieces, Status, &str)],
) -> Result<(), Fail> {
    for (pieces, status, line) in rows {
        let text = text_of(alloc, *pieces)?;
        words_end(rt, alloc, &["prove", "a"], &text, *status, line)?;
    }
    Ok(())
}

const PRODUCT: &str = "{ x in [1,2] /\\ y in [3,5] -> x * y in ? }";

// The product has 42 bytes, and 2^20 is 1,048,576.
const BYTES: &[(Pieces, Status, &str)] = &[
    (
        &[(PRODUCT, 1), (" ", 1_048_534)],
        ANSWERED,
        "x * y in [3, 5b1]\n",
    ),
    (
        &[(PRODUCT, 1), (" ", 1_048_535)],
        REFUSED,
        "script: Limit(Bytes) at 1048576\n",
    ),
    (
        &[(" ", 1_048_577)],
        REFUSED,
        "script: Limit(Bytes) at 1048576\n",
    ),
    (
        &[("!", 1_050_000)],
        REFUSED,
        "script: Limit(Bytes) at 1048576\n",
    ),
    (
        &[("{ ", 1), ("(", 1_048_574)],
        REFUSED,
        "script: Limit(Nesting) at 66\n",
    ),
];

#[test]
fn bytes_of_a_text(rt: HostRuntime) -> Result<(), Fail> {
    rows_end(&rt, rt.alloc(), BYTES)
}

// Parentheses, bars and minus signs that are open count together, and those of a call.
const NESTING: &[(Pieces, Status, &str)] = &[
    (
        &[("{ ", 1), ("(", 64), ("x", 1), (")", 64), (" in ? }", 1)],
        UNPROVED,
        FIRST,
    ),
    (
        &[("{ ", 1), ("(", 65), ("x", 1), (")", 65), (" in ? }", 1)],
        REFUSED,
        "script: Limit(Nesting) at 66\n",
    ),
    (
        &[("{ ", 1), ("|", 64), ("x", 1), ("|", 64), (" in ? }", 1)],
        UNPROVED,
        FIRST,
    ),
    (
        &[("{ ", 1), ("|", 65), ("x", 1), ("|", 65), (" in ? }", 1)],
        REFUSED,
        "script: Limit(Nesting) at 66\n",
    ),
    (&[("{ ", 1), ("-", 64), ("x in ? }", 1)], UNPROVED, FIRST),
    (
        &[("{ ", 1), ("-", 65), ("x in ? }", 1)],
        REFUSED,
        "script: Limit(Nesting) at 66\n",
    ),
    (
        &[("{ ", 1), ("-(", 32), ("x", 1), (")", 32), (" in ? }", 1)],
        UNPROVED,
        FIRST,
    ),
    (
        &[("{ ", 1), ("-(", 32), ("|x|", 1), (")", 32), (" in ? }", 1)],
        REFUSED,
        "script: Limit(Nesting) at 66\n",
    ),
    (
        &[
            ("{ fma(", 1),
            ("(", 64),
            ("x", 1),
            (")", 64),
            (",1,2) in ? }", 1),
        ],
        REFUSED,
        "script: Limit(Nesting) at 69\n",
    ),
];

#[test]
fn nesting_of_an_expression(rt: HostRuntime) -> Result<(), Fail> {
    rows_end(&rt, rt.alloc(), NESTING)
}

const COUNTS: &[(Pieces, Status, &str)] = &[
    // propositions: the 128th is the one that isn't proved
    (
        &[("{", 1), ("1 in?/\\", 127), ("x in?}", 1)],
        UNPROVED,
        "unproved: goal 128 at the whole box\n",
    ),
    (
        &[("{", 1), ("1 in?/\\", 128), ("x in?}", 1)],
        REFUSED,
        "script: Limit(Propositions) at 897\n",
    ),
    (
        &[("{", 1), ("1 in?/\\", 128), ("@FIX(x,1)}", 1)],
        REFUSED,
        "script: FormulaForm at 897\n",
    ),
    // cases: of one part, and the product over parts
    (
        &[("{", 1), ("x in[1,2]\\/", 63), ("x in[3,4]->x in?}", 1)],
        ANSWERED,
        "x in [1, 1b2]\n",
    ),
    (
        &[("{", 1), ("x in[1,2]\\/", 64), ("x in[3,4]->x in?}", 1)],
        REFUSED,
        "script: Limit(Cases) at 703\n",
    ),
    (
        &[("{", 1), ("x in[1,2]\\/x in[2,3]->", 6), ("x in?}", 1)],
        ANSWERED,
        "x in [1, 3]\n",
    ),
    (
        &[("{", 1), ("x in[1,2]\\/x in[2,3]->", 7), ("x in?}", 1)],
        REFUSED,
        "script: Limit(Cases) at 142\n",
    ),
    // hints
    (&[("{x in?}", 1), ("x~x;", 64)], UNPROVED, FIRST),
    (
        &[("{x in?}", 1), ("x~x;", 65)],
        REFUSED,
        "script: Limit(Hints) at 263\n",
    ),
    // nodes: x and a sum for each sign; a chain of so many sums needs more rounds than there are
    (
        &[("y=x", 1), ("+x", 511), (";{x in[0,0]->y in?}", 1)],
        UNPROVED,
        FIRST,
    ),
    (
        &[("y=x", 1), ("+x", 512), (";{x in[0,0]->y in?}", 1)],
        REFUSED,
        "script: Limit(Nodes) at 1025\n",
    ),
    // |x| and two for each sum that is rounded
    (
        &[("y int<dn>=|x|", 1), ("+x", 255), (";{y in?}", 1)],
        UNPROVED,
        FIRST,
    ),
    (
        &[("y int<dn>=|x|", 1), ("+x", 256), (";{y in?}", 1)],
        REFUSED,
        "script: Limit(Nodes) at 523\n",
    ),
    // three literals, a sum and two for each `fma`
    (
        &[
            ("y=", 1),
            ("fma(0,0,1)+", 85),
            ("x+x;{x in[1,1]->y in?}", 1),
        ],
        UNPROVED,
        FIRST,
    ),
    (
        &[("y=", 1), ("fma(0,0,1)+", 85), ("-fma(x,x,x);{y in?}", 1)],
        REFUSED,
        "script: Limit(Nodes) at 938\n",
    ),
];

#[test]
fn counts_of_a_text(rt: HostRuntime) -> Result<(), Fail> {
    rows_end(&rt, rt.alloc(), COUNTS)
}

// The definitions `a100=1;` to the one before `end`, of 7 bytes each, and a goal.
fn definitions(alloc: Global, end: usize) -> Result<Vec<u8>, AllocError> {
    let mut text = Vec::new(alloc);
    for number in 100..end {
        let definition = format!(in alloc; "a{number}=1;")?;
        text.extend_from_slice(definition.as_bytes())?;
    }
    text.extend_from_slice(b"{x in?}".as_slice())?;
    Ok(text)
}

// The end of the definitions, and how the run ends.
const DEFINITIONS: &[(usize, Status, &str)] = &[
    (356, UNPROVED, FIRST),
    (357, REFUSED, "script: Limit(Definitions) at 1792\n"),
];

fn definitions_end(
    rt: &(impl Abort + Threads + Wait + Sync),
    alloc: Global,
    end: usize,
    status: Status,
    line: &str,
) -> Result<(), Fail> {
    let text = definitions(alloc, end)?;
    words_end(rt, alloc, &["prove", "a"], &text, status, line)
}

#[test]
fn definitions_of_a_text(rt: HostRuntime) -> Result<(), Fail> {
    for (end, status, line) in DEFINITIONS {
        definitions_end(&rt, rt.alloc(), *end, *status, line)?;
    }
    Ok(())
}

const FOUR: &str = "{a in[0,1]/\\b in[0,1]/\\c in[0,1]/\\d in[0,1]/\\e in[0,1]->a in?}a$a,b,c,d";

const POINTS: &str = "{x in[0,99]->x in?}$x in(\
    01,02,03,04,05,06,07,08,09,10,11,12,13,14,15,16,17,18,19,20,21,22,23,24,25,26,27,28,29,30,31,32,\
    33,34,35,36,37,38,39,40,41,42,43,44,45,46,47,48,49,50,51,52,53,54,55,56,57,58,59,60,61,62,63";

const SPLITS: &[(Pieces, Status, &str)] = &[
    // places of the last bit, and of multiples
    (&[("@q = fixed<512,dn>; { x in ? }", 1)], UNPROVED, FIRST),
    (
        &[("@q = fixed<513,dn>; { x in ? }", 1)],
        REFUSED,
        "script: Limit(Lsb) at 11\n",
    ),
    (&[("@q = fixed<-512,dn>; { x in ? }", 1)], UNPROVED, FIRST),
    (
        &[("@q = fixed<-513,dn>; { x in ? }", 1)],
        REFUSED,
        "script: Limit(Lsb) at 12\n",
    ),
    (&[("{ @FIX(x,0512) -> x in ? }", 1)], UNPROVED, FIRST),
    (
        &[("{ @FIX(x,0513) -> x in ? }", 1)],
        REFUSED,
        "script: Limit(Lsb) at 9\n",
    ),
    // cuts, and variables that are halved, each counted once
    (
        &[("{x in[0,1]->x in?}", 1), ("$x;", 4)],
        ANSWERED,
        "x in [0, 1]\n",
    ),
    (
        &[("{x in[0,1]->x in?}", 1), ("$x;", 5)],
        REFUSED,
        "script: Limit(Splits) at 30\n",
    ),
    (&[(FOUR, 1), (",a;e$b;", 1)], ANSWERED, "a in [0, 1]\n"),
    (
        &[(FOUR, 1), (",e;", 1)],
        REFUSED,
        "script: Limit(Splits) at 72\n",
    ),
    // pieces
    (
        &[("{ x in [0,1] -> x in ? } $ x in 64;", 1)],
        ANSWERED,
        "x in [0, 1]\n",
    ),
    (
        &[("{ x in [0,1] -> x in ? } $ x in 65;", 1)],
        REFUSED,
        "script: Limit(Pieces) at 32\n",
    ),
    (&[(POINTS, 1), (");", 1)], ANSWERED, "x in [0, 99]\n"),
];

#[test]
fn splits_of_a_text(rt: HostRuntime) -> Result<(), Fail> {
    rows_end(&rt, rt.alloc(), SPLITS)
}

const MORE_POINTS: &[(Pieces, Status, &str)] = &[
    (
        &[(POINTS, 1), (",64);", 1)],
        REFUSED,
        "script: Limit(Pieces) at 214\n",
    ),
    // at one byte the kind of the lower number
    (
        &[(POINTS, 1), (",63);", 1)],
        REFUSED,
        "script: BadSplit at 214\n",
    ),
];

#[test]
fn points_of_a_cut(rt: HostRuntime) -> Result<(), Fail> {
    rows_end(&rt, rt.alloc(), MORE_POINTS)
}
