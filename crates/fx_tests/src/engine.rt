// Scripts for the whole engine. Expected lines were worked out by hand, or by a plain program of
// the definitions.
use crate::runs::{Row, rows_end, texts_end};
use command_runs::Status;
use std::test::Fail;

const BOX: &str = "unproved: goal 1 at the whole box\n";

// roundings, multiples, relative errors, rewriting and its hints
const ANSWERED: &[(&str, &str)] = &[
    (
        "@rnd = fixed<-4,dn>; y = rnd(x); { x in [0,1] -> y - x in ? }",
        "y - x in [-1b-4, 0]\n",
    ),
    (
        "{ x in [2.5,2.5] -> int<zr>(x) in ? }",
        "int < zr > ( x ) in [1b1, 1b1]\n",
    ),
    (
        "@q = fixed<-15,dn>; x = q(xx); y q= x * x; My = x * x; { xx in [0,1] -> y - My in ? }",
        "y - My in [-32767b-30, 0]\n",
    ),
    (
        "@q = fixed<-4,dn>; { x in [0,1] -> q(x) in ? }",
        "q ( x ) in [0, 1]\n",
    ),
    (
        "@q = int<ne>; y q= x + x; { x in [0,1] -> y in ? }",
        "y in [0, 1b1]\n",
    ),
    (
        "y fixed<-4,dn>= x * x; { x in [0,1] -> y in ? }",
        "y in [0, 1]\n",
    ),
    (
        "{ @FIX(x,0) /\\ x in [0.5,2.5] -> x in ? }",
        "x in [1, 1b1]\n",
    ),
    ("{ x in [1,2] -> x / x in ? }", "x / x in [1, 1]\n"),
    (
        "{ x in [-2,3] -> x * x - x in ? }",
        "x * x - x in [-3, 11]\n",
    ),
    ("{ x in [-3,1] -> |x| in ? }", "| x | in [0, 3]\n"),
    ("{ |x| <= 1 -> x in ? }", "x in [-1, 1]\n"),
    (
        "{ x - y in [0,1] /\\ x in [5,6] -> y in ? }",
        "y in [1b2, 3b1]\n",
    ),
    // relative errors
    (
        "{ x -/ y in [-0.5,0.5] /\\ y in [2,4] -> x in ? }",
        "x in [1, 3b1]\n",
    ),
    (
        "@rnd = fixed<-10,ne>; { x in [1,2] -> rnd(x) -/ x in ? }",
        "rnd ( x ) -/ x in [-1b-11, 1b-11]\n",
    ),
    (
        "{ x in [0,1] -> x in ? /\\ x -/ x in [0,0] }",
        "x in [0, 1]\nx -/ x in [0, 0]\n",
    ),
    (
        "{ x -/ y in [-0.5,-0.25] /\\ x -/ y in [0.25,0.5] -> x -/ y in ? /\\ y in ? }",
        "x -/ y in none\ny in [0, 0]\n",
    ),
    // hypotheses that leave no assignment
    ("{ x in [0,1] /\\ x in [2,3] -> x in ? }", "x in empty\n"),
    (
        "{ a -/ c in [-0.5,-0.25] /\\ a -/ c in [0.25,0.5] /\\ b -/ d in [-0.5,0.5] /\\ c / (c + d) in [1,2] -> b in ? } a + b ~ c + d;",
        "b in empty\n",
    ),
    // an interpolation with 15 bits of fraction
    (
        "@q = fixed<-15,dn>; d q= b - a; p q= d * t; r q= a + p; Mr = a + (b - a) * t; \
         { @FIX(a,-15) /\\ @FIX(b,-15) /\\ @FIX(t,-15) /\\ a in [0,1] /\\ b in [0,1] /\\ t in [0,1] -> r in ? /\\ r - Mr in ? }",
        "r in [-1, 1b1]\nr - Mr in [-32767b-30, 0]\n",
    ),
    // hints that are checked, and assumed ones
    (
        "{ x in [0,1] -> x * x - x in ? } x * x - x -> (x - 0.5) * (x - 0.5) - 0.25;",
        "x * x - x in [-1b-2, 0]\n",
    ),
    (
        "{ x in [1,2] /\\ y in [2,3] -> y / x * x in ? } y / x * x -> y;",
        "y / x * x in [1b1, 3]\n",
    ),
    (
        "{ x in [0,1] -> y in ? } y -> x + 1;",
        "y in [1, 1b1]\nhint 1 assumed\n",
    ),
    (
        "{ x in [0,1] -> y in ? /\\ z in ? } y -> x + 1; x * x -> x * x; z -> y + 1;",
        "y in [1, 1b1]\nz in [1b1, 3]\nhint 1 assumed\nhint 3 assumed\n",
    ),
    (
        "{ x in [0,1] -> x in ? } x -> 2 * x { x <> 0, x < 1 };",
        "x in [0, 1]\nhint 1 assumed\n",
    ),
    ("{ x in [0,1] -> x in ? } x -> x + 0;", "x in [0, 1]\n"),
    ("{ x in [0,1] -> x in ? } x ~ y;", "x in [0, 1]\n"),
    // boxes
    (
        "{ x in [0,1] -> x * (1 - x) in [0,0.3] } x * (1 - x) $ x;",
        "x * ( 1 - x ) in [0, 9b-5]\n",
    ),
    (
        "{ x in [0,1] -> x * (1 - x) in ? } $ x in 4;",
        "x * ( 1 - x ) in [0, 3b-3]\n",
    ),
    ("{ x in [0,1] -> x in ? } $ x;", "x in [0, 1]\n"),
    ("{ x in [0,1] -> x in ? } $ x in 1;", "x in [0, 1]\n"),
    (
        "{ x in [0,1] -> x in ? } $ x in (0.25, 0.5);",
        "x in [0, 1]\n",
    ),
    ("{ x in [0,1] -> x in ? } x $ x;", "x in [0, 1]\n"),
    // hypotheses on one expression, or on none with a variable
    ("{ 1 in [0,2] -> 1 in ? }", "1 in [1, 1]\n"),
    ("{ x in [0,1] /\\ x in [0,2] -> x in ? }", "x in [0, 1]\n"),
    ("{ x >= 0 /\\ x <= 1 -> x in ? }", "x in [0, 1]\n"),
    ("{ x >= 0 -> x <= 1 -> x in ? }", "x in [0, 1]\n"),
    ("y = x; { x >= 0 /\\ (y) <= 1 -> x in ? }", "x in [0, 1]\n"),
    ("y = int<dn>(x); { x in [0,1] -> x in ? }", "x in [0, 1]\n"),
    (
        "{ x in [0,1] -> int<zr>(x) in ? }",
        "int < zr > ( x ) in [0, 1]\n",
    ),
    ("{ x in [1,2] -> 1 / x in ? }", "1 / x in [1b-1, 1]\n"),
];

const UNPROVED: &[(&str, &str)] = &[
    ("{ x -/ y in [-0.5,0.5] -> x in ? }", BOX),
    ("{ @FIX(x,-3) -> x in ? }", BOX),
    ("{ x -/ y in ? }", BOX),
    ("{ x + 1 in [0,1] -> x in ? }", BOX),
    ("{ -x <= 1 -> x in ? }", BOX),
    ("y = x * x; { y in [0,1] -> x in ? }", BOX),
    ("{ x >= 1 -> x * x >= 1 }", BOX),
    // nothing shows that x isn't 0
    (
        "{ x in [0,1] /\\ y in [2,3] -> y / x * x in ? } y / x * x -> y;",
        BOX,
    ),
    // the pair of a sum is none of the script's
    (
        "{ a -/ c in [-0.5,-0.25] /\\ a -/ c in [0.25,0.5] /\\ b -/ d in [-0.5,0.5] /\\ c / (c + d) in [1,2] -> b in ? }",
        BOX,
    ),
    // 993 expressions
    (
        "{ a in ? } a ~ b1; a ~ b2; a ~ b3; a ~ b4; a ~ b5; a ~ b6; a ~ b7; a ~ b8; a ~ b9; a ~ b10; a ~ b11; a ~ b12; \
         a ~ b13; a ~ b14; a ~ b15; a ~ b16; a ~ b17; a ~ b18; a ~ b19; a ~ b20; a ~ b21; a ~ b22; a ~ b23; a ~ b24; \
         a ~ b25; a ~ b26; a ~ b27; a ~ b28; a ~ b29; a ~ b30; a ~ b31;",
        BOX,
    ),
];

// 1,057 expressions would be needed
const MANY: &[(&str, &str)] = &[(
    "{ a in ? } a ~ b1; a ~ b2; a ~ b3; a ~ b4; a ~ b5; a ~ b6; a ~ b7; a ~ b8; a ~ b9; a ~ b10; a ~ b11; a ~ b12; \
     a ~ b13; a ~ b14; a ~ b15; a ~ b16; a ~ b17; a ~ b18; a ~ b19; a ~ b20; a ~ b21; a ~ b22; a ~ b23; a ~ b24; \
     a ~ b25; a ~ b26; a ~ b27; a ~ b28; a ~ b29; a ~ b30; a ~ b31; a ~ b32;",
    "limit: more than 1024 expressions\n",
)];

#[test]
fn the_engine_answers(rt: HostRuntime) -> Result<(), Fail> {
    texts_end(&rt, rt.alloc(), Status::Answered, ANSWERED)?;
    texts_end(&rt, rt.alloc(), Status::Unproved, UNPROVED)?;
    texts_end(&rt, rt.alloc(), Status::Limit, MANY)
}

const HALVED: &str = "{ x in [0,1] -> x * (1 - x) in [0,0.3] } x * (1 - x) $ x;";

const HALVED_LINE: &str = "x * ( 1 - x ) in [0, 9b-5]\n";

const INTERPOLATION: &str =
    "@q = fixed<-15,dn>; d q= b - a; p q= d * t; r q= a + p; Mr = a + (b - a) * t; \
    { @FIX(a,-15) /\\ @FIX(b,-15) /\\ @FIX(t,-15) /\\ a in [0,1] /\\ b in [0,1] /\\ t in [0,1] -> r in ? /\\ r - Mr in ? }";

// Words, the text of `a`, and how the run ends.
const OPTIONS: &[Row] = &[
    (
        &["prove", "a", "--depth", "3"],
        HALVED,
        Status::Unproved,
        "unproved: goal 1 at x in [3b-3, 1b-1]\n",
    ),
    (
        &["prove", "--depth=0", "a"],
        HALVED,
        Status::Unproved,
        "unproved: goal 1 at x in [0, 1]\n",
    ),
    (
        &["prove", "a", "--depth", "2"],
        "{ x in [-1,1] -> 1 / x in ? } 1 / x $ x;",
        Status::Unproved,
        "unproved: goal 1 at x in [-1b-1, 0]\n",
    ),
    // the order in which hints first name the variables
    (
        &["prove", "a", "--depth", "1"],
        "{ x in [0,1] /\\ y in [0,1] -> x * y in [0,0.1] /\\ x in ? } x * y $ y; $ x in 2;",
        Status::Unproved,
        "unproved: goal 1 at y in [0, 1b-1], x in [0, 1b-1]\n",
    ),
    (
        &["prove", "a", "--depth=0"],
        "{ x in [0,1] /\\ y in [0,1] -> x in ? /\\ x * y in [0,0.1] } x * y $ x, y;",
        Status::Unproved,
        "unproved: goal 2 at x in [0, 1], y in [0, 1]\n",
    ),
    // limits of boxes, also where a leaf is open
    (
        &["prove", "a", "--boxes", "14"],
        HALVED,
        Status::Limit,
        "limit: more than 14 boxes\n",
    ),
    (
        &["prove", "a", "--boxes", "15"],
        HALVED,
        Status::Answered,
        HALVED_LINE,
    ),
    (
        &["prove", "a", "--depth", "3", "--boxes", "3"],
        HALVED,
        Status::Limit,
        "limit: more than 3 boxes\n",
    ),
    // workers change nothing
    (
        &["prove", "a", "--workers", "1"],
        HALVED,
        Status::Answered,
        HALVED_LINE,
    ),
    (
        &["prove", "a", "--workers", "2"],
        HALVED,
        Status::Answered,
        HALVED_LINE,
    ),
    (
        &["prove", "a", "--workers=16"],
        HALVED,
        Status::Answered,
        HALVED_LINE,
    ),
    // the made script needs no file; it has the same answer each time
    (
        &["gen", "1"],
        "",
        Status::Answered,
        "gen 1: 65 boxes, [-1b-12, 0]\n",
    ),
    (
        &["gen", "2"],
        "",
        Status::Answered,
        "gen 2: 65 boxes, [-1b-11, 0]\n",
    ),
    (
        &["gen", "2"],
        "",
        Status::Answered,
        "gen 2: 65 boxes, [-1b-11, 0]\n",
    ),
    // seven rounds are needed for the second goal
    (
        &["prove", "a", "--rounds", "6"],
        INTERPOLATION,
        Status::Unproved,
        "unproved: goal 2 at the whole box\n",
    ),
    (
        &["prove", "a", "--rounds", "7"],
        INTERPOLATION,
        Status::Answered,
        "r in [-1, 1b1]\nr - Mr in [-32767b-30, 0]\n",
    ),
    (
        &["prove", "--rounds=2", "a"],
        "@rnd = fixed<-10,ne>; { x in [1,2] -> rnd(x) -/ x in ? }",
        Status::Answered,
        "rnd ( x ) -/ x in [-1b-11, 1b-11]\n",
    ),
    (
        &["prove", "a", "--rounds", "1"],
        "@rnd = fixed<-10,ne>; { x in [1,2] -> rnd(x) -/ x in ? }",
        Status::Unproved,
        BOX,
    ),
];

#[test]
fn options_change_the_answer(rt: HostRuntime) -> Result<(), Fail> {
    rows_end(&rt, rt.alloc(), OPTIONS)
}

// The halved script on the right half of its range.
const RIGHT: &str = "{ x in [0.5,1] -> x * (1 - x) in [0,0.3] } x * (1 - x) $ x;";

const CUT: &str = "{ x in [0,1] -> x * (1 - x) in ? } $ x in 4;";

const PROVE: &[&str] = &["prove", "a"];

// Words, the text of `a`, and how the run ends.
const BOXES: &[Row] = &[
    // by three halvings the tree has 11 boxes, of which two are open; the first is named
    (
        &["prove", "a", "--depth", "3", "--boxes", "10"],
        HALVED,
        Status::Limit,
        "limit: more than 10 boxes\n",
    ),
    (
        &["prove", "a", "--depth", "3", "--boxes", "11"],
        HALVED,
        Status::Unproved,
        "unproved: goal 1 at x in [3b-3, 1b-1]\n",
    ),
    // the other one, which a further halving settles: 4 boxes more for both
    (
        &["prove", "a", "--depth", "2"],
        RIGHT,
        Status::Unproved,
        "unproved: goal 1 at x in [1b-1, 5b-3]\n",
    ),
    (
        &["prove", "a", "--depth", "3", "--boxes", "6"],
        RIGHT,
        Status::Limit,
        "limit: more than 6 boxes\n",
    ),
    (
        &["prove", "a", "--depth", "3", "--boxes", "7"],
        RIGHT,
        Status::Answered,
        HALVED_LINE,
    ),
    // the whole and its four pieces
    (
        &["prove", "a", "--boxes", "4"],
        CUT,
        Status::Limit,
        "limit: more than 4 boxes\n",
    ),
    (
        &["prove", "a", "--boxes", "5"],
        CUT,
        Status::Answered,
        "x * ( 1 - x ) in [0, 3b-3]\n",
    ),
    // each piece is the first that is open
    (
        PROVE,
        "{ x in [0,1] -> x <= 0.2 } $ x in 4;",
        Status::Unproved,
        "unproved: goal 1 at x in [0, 1b-2]\n",
    ),
    (
        PROVE,
        "{ x in [0,1] -> x <= 0.3 } $ x in 4;",
        Status::Unproved,
        "unproved: goal 1 at x in [1b-2, 1b-1]\n",
    ),
    (
        PROVE,
        "{ x in [0,1] -> x <= 0.6 } $ x in 4;",
        Status::Unproved,
        "unproved: goal 1 at x in [1b-1, 3b-2]\n",
    ),
    (
        PROVE,
        "{ x in [0,1] -> x <= 0.9 } $ x in 4;",
        Status::Unproved,
        "unproved: goal 1 at x in [3b-2, 1]\n",
    ),
    // a cut is made though the whole box settles the goal
    (
        PROVE,
        "{ x in [0,1] -> x <= 1 } $ x in 4;",
        Status::Answered,
        "x in [0, 1]\n",
    ),
    (
        &["prove", "a", "--boxes", "4"],
        "{ x in [0,1] -> x <= 1 } $ x in 4;",
        Status::Limit,
        "limit: more than 4 boxes\n",
    ),
];

#[test]
fn boxes_are_counted_and_named(rt: HostRuntime) -> Result<(), Fail> {
    rows_end(&rt, rt.alloc(), BOXES)
}

// scripts that would need the engine, and are refused
const REFUSED: &[(&str, &str)] = &[
    (
        "{ x in [0,1] -> int<zr>(x) in ? } !",
        "script: BadToken at 34\n",
    ),
    (
        "{ x in [0,1] -> x in ? } x ~ y; $ y;",
        "script: SplitRange at 34\n",
    ),
    (
        "{ x in [0,1] -> x in ? } x $ x",
        "script: Unexpected at 30\n",
    ),
    (
        "{ x -/ y in [0,1] -> x in [2,1] }",
        "script: BadBound at 29\n",
    ),
    ("{ @FIX(x,513) -> x in ? }", "script: Limit(Lsb) at 9\n"),
    (
        "{ x in [0,1] /\\ x in [2,1] -> x in ? }",
        "script: BadBound at 24\n",
    ),
];

#[test]
fn a_refusal_wins(rt: HostRuntime) -> Result<(), Fail> {
    texts_end(&rt, rt.alloc(), Status::Script, REFUSED)
}
