// Texts that are no script, by the kind of their refusal. Expected lines were worked out by hand.
use crate::runs::{texts_end, words_end};
use command_runs::Status;
use std::test::Fail;

const NO_TEXTS: &[(&[u8], &str)] = &[
    (b"{ x\xff", "script: NotText at 3\n"),
    (b"\xff\xfe\x00", "script: NotText at 0\n"),
    // it is judged before all that follows, and in comments too
    (b"! { x in [2,1] -> x\x80 in ? }", "script: NotText at 19\n"),
    (b"# \xe2\x82\n", "script: NotText at 2\n"),
];

#[test]
fn bytes_that_are_no_text(rt: HostRuntime) -> Result<(), Fail> {
    for (text, line) in NO_TEXTS {
        words_end(
            &rt,
            rt.alloc(),
            &["prove", "a"],
            *text,
            Status::Script,
            line,
        )?;
    }
    Ok(())
}

const READING: &[(&str, &str)] = &[
    // BadToken
    ("{ x in [0,1] -> x in ? } !", "script: BadToken at 25\n"),
    ("{ x in [1.,2] -> x in ? }", "script: BadToken at 9\n"),
    ("{ x in [1,12x] -> x in ? }", "script: BadToken at 10\n"),
    ("{ x in [0,1] -> x \\ 2 in ? }", "script: BadToken at 18\n"),
    ("\0", "script: BadToken at 0\n"),
    // Unexpected
    ("", "script: Unexpected at 0\n"),
    ("# nothing", "script: Unexpected at 9\n"),
    ("{ x in [1,2", "script: Unexpected at 11\n"),
    ("{ x in ? } x", "script: Unexpected at 12\n"),
    ("{ x in ? } { x in ? }", "script: Unexpected at 11\n"),
    ("{ x in [1/2,1] -> x in ? }", "script: Unexpected at 9\n"),
    ("{ x < 1 }", "script: Unexpected at 4\n"),
    ("{ x in [0,1] -> x in ? /\\ }", "script: Unexpected at 26\n"),
    ("{ (x in [0,1]) -> x in ? }", "script: Unexpected at 5\n"),
    ("{ in in [1,2] -> in in ? }", "script: Unexpected at 2\n"),
    ("y q 3", "script: Unexpected at 2\n"),
    ("@q = int<dn>; { q in ? }", "script: Unexpected at 18\n"),
    (
        "{ x in ? } x -> x { x <> 1 };",
        "script: Unexpected at 25\n",
    ),
    (
        "{ x in [0,1] -> x in ? } $ x in 0.5;",
        "script: Unexpected at 32\n",
    ),
    // FormulaForm
    ("{ x in [0,1] \\/ x in ? }", "script: FormulaForm at 13\n"),
    ("{ x <= 1 -> not x <= 2 }", "script: FormulaForm at 12\n"),
    ("{ x in ? -> x in ? }", "script: FormulaForm at 7\n"),
    (
        "{ x in [0,1] -> x in ? /\\ @FIX(x,3) }",
        "script: FormulaForm at 26\n",
    ),
    ("{ @FIX(x,0) /\\ x in [1,2", "script: FormulaForm at 2\n"),
    // UnsupportedOperator
    ("{ sqrt(x) in ? }", "script: UnsupportedOperator at 2\n"),
    (
        "@q = float<ieee_32,ne>; { x in ? }",
        "script: UnsupportedOperator at 5\n",
    ),
    (
        "@q = relative<24,-100,ne>; { x in ? }",
        "script: UnsupportedOperator at 5\n",
    ),
    ("{ foo(x) in ? }", "script: UnsupportedOperator at 2\n"),
    ("foo(x) = 3;", "script: UnsupportedOperator at 0\n"),
    (
        "y q= x + 1; { y in ? }",
        "script: UnsupportedOperator at 2\n",
    ),
    ("y = 2; z y= x; { z in ? }", "script: Unexpected at 9\n"),
    (
        "@q = fixed<0,ra>; { x in ? }",
        "script: UnsupportedOperator at 13\n",
    ),
    ("{ int<not>(x) in ? }", "script: UnsupportedOperator at 6\n"),
];

#[test]
fn words_without_a_place(rt: HostRuntime) -> Result<(), Fail> {
    texts_end(&rt, rt.alloc(), Status::Script, READING)
}

const JUDGING: &[(&str, &str)] = &[
    // NameUsed
    ("x = 1; x = 2; { x in ? }", "script: NameUsed at 7\n"),
    ("x = x + 1; { x in ? }", "script: NameUsed at 0\n"),
    ("y = x + 1; x = 2; { y in ? }", "script: NameUsed at 11\n"),
    (
        "@q = int<dn>; q = 1; { q in ? }",
        "script: NameUsed at 14\n",
    ),
    (
        "@q = int<dn>; @q = int<up>; { x in ? }",
        "script: NameUsed at 15\n",
    ),
    // BadBound
    ("{ x in [2,1] -> x in ? }", "script: BadBound at 10\n"),
    ("{ x in [-1,-2] -> x in ? }", "script: BadBound at 11\n"),
    ("{ x in [1b-1,0.4] -> x in ? }", "script: BadBound at 13\n"),
    ("{ x in [0,1] -> x in [3,2] }", "script: BadBound at 24\n"),
    ("{ x -/ y in [-1,2] -> x in ? }", "script: BadBound at 13\n"),
    (
        "{ x -/ y in [-0.9999999999999999999,0] }",
        "script: BadBound at 13\n",
    ),
    // SplitRange
    ("{ x in ? } $ x;", "script: SplitRange at 13\n"),
    ("{ x <= 1 -> x in ? } $ x;", "script: SplitRange at 23\n"),
    ("{ x in [0,1] } $ x;", "script: SplitRange at 17\n"),
    (
        "{ x in [0,1] -> x in ? } x $ y;",
        "script: SplitRange at 29\n",
    ),
    // BadSplit
    (
        "{ x in [0,1] -> x in ? } $ x in 0;",
        "script: BadSplit at 32\n",
    ),
    (
        "y = x; { y in [0,1] -> y in ? } $ y;",
        "script: BadSplit at 34\n",
    ),
    (
        "{ x in [0,1] -> x in ? } $ x in (0);",
        "script: BadSplit at 33\n",
    ),
    (
        "{ x in [0,1] -> x in ? } $ x in (0.5, 1b-1);",
        "script: BadSplit at 38\n",
    ),
    (
        "{ x in [0,1] -> x in ? } $ x in (0.5, -0.6);",
        "script: BadSplit at 38\n",
    ),
    // LiteralLimit; such a literal is compared with nothing
    (
        "{ x in [0,1] -> x * 1e9 in ? }",
        "script: LiteralLimit at 20\n",
    ),
    (
        "{ x in [5,1e-99] -> x in ? }",
        "script: LiteralLimit at 10\n",
    ),
    (
        "{ x in [0,-1e99] -> x in ? }",
        "script: LiteralLimit at 11\n",
    ),
    (
        "{ x in [0,1] -> x in ? } $ x in (1e9);",
        "script: LiteralLimit at 33\n",
    ),
    // the lowest byte goes first
    ("{ x in [2,1] -> x in ? } !", "script: BadBound at 10\n"),
    ("{ x in [2,1] -> x in [1e9,2] }", "script: BadBound at 10\n"),
    (
        "{ x in [1e9,1] /\\ x in [2,1] -> x in ? }",
        "script: LiteralLimit at 8\n",
    ),
    ("x = 1; x = y(2); { x in ? }", "script: NameUsed at 7\n"),
];

#[test]
fn words_that_are_judged(rt: HostRuntime) -> Result<(), Fail> {
    texts_end(&rt, rt.alloc(), Status::Script, JUDGING)
}
