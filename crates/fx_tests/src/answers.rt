// Scripts whose goals plain enclosures prove, and scripts with a goal that they don't. Expected
// lines were worked out by hand.
use crate::runs::texts_end;
use command_runs::Status;
use std::test::Fail;

const EXPRESSIONS: &[(&str, &str)] = &[
    (
        "{ x in [1,2] /\\ y in [3,5] -> x * y in ? }",
        "x * y in [3, 5b1]\n",
    ),
    // ends off the grid are rounded outward: 1/3 has no end, and 999999999999999999^2 has 120 bits
    (
        "{ x in [3,3] -> 1 / x in ? }",
        "1 / x in [384307168202282325b-60, 768614336404564651b-61]\n",
    ),
    (
        "{ x in [0.1,0.1] -> x in ? }",
        "x in [230584300921369395b-61, 922337203685477581b-63]\n",
    ),
    (
        "{ x in [-999999999999999999,999999999999999999] -> x * x in ? }",
        "x * x in [0, 433680868994201773b61]\n",
    ),
    // each use of a variable is free of the others
    (
        "{ x in [-2,3] -> x * x - x in ? }",
        "x * x - x in [-3, 11]\n",
    ),
    // operations group to the left, and a product binds tighter than a sum
    (
        "{ a in [1,2] /\\ b in [3,4] /\\ c in [5,6] -> a - b - c * a in ? }",
        "a - b - c * a in [-15, -3b1]\n",
    ),
    (
        "{ a in [8,8] /\\ b in [4,4] -> a / b * 2 in ? /\\ a / (b * 2) in ? }",
        "a / b * 2 in [1b2, 1b2]\na / ( b * 2 ) in [1, 1]\n",
    ),
    // a minus takes the factor behind it
    (
        "{ a in [1,2] /\\ b in [3,5] -> -a * b in ? /\\ a - -(a + b) in ? /\\ --a in ? }",
        "- a * b in [-5b1, -3]\na - - ( a + b ) in [5, 9]\n- - a in [1, 1b1]\n",
    ),
    // a bar opens where an operand is due
    (
        "{ x in [-3,2] -> ||x| - 2| in ? }",
        "| | x | - 2 | in [0, 1b1]\n",
    ),
    (
        "{ x in [-3,2] -> |x|-|x|*2 in ? }",
        "| x | - | x | * 2 in [-3b1, 3]\n",
    ),
    (
        "{ a in [1,2] /\\ b in [3,4] /\\ c in [-5,5] -> fma(a, b, c) in ? }",
        "fma ( a , b , c ) in [-1b1, 13]\n",
    ),
    ("{ x in [-2,-1] -> 1 / x in ? }", "1 / x in [-1, -1b-1]\n"),
    (
        "{ x in [1,2] /\\ y in [-1,1] -> x / (y + 2) in ? }",
        "x / ( y + 2 ) in [384307168202282325b-60, 1b1]\n",
    ),
    // no hypothesis, and literals of each form
    (
        "{ 1 / 4 in ? /\\ 0x1.8p1 in ? /\\ 2.5e1 - 25 in ? /\\ 1b-53 in ? }",
        "1 / 4 in [1b-2, 1b-2]\n0x1.8p1 in [3, 3]\n2.5e1 - 25 in [0, 0]\n1b-53 in [1b-53, 1b-53]\n",
    ),
    (
        "{ 0.5 - 0.50 in ? /\\ 0.5 - 1b-1 in ? /\\ 007 in ? }",
        "0.5 - 0.50 in [0, 0]\n0.5 - 1b-1 in [0, 0]\n007 in [7, 7]\n",
    ),
    // a hypothesis that no goal uses
    ("{ x in [1,2] /\\ y in [3,5] -> y in ? }", "y in [3, 5]\n"),
    ("{ x in [-0,+0] -> x + 0 in ? }", "x + 0 in [0, 0]\n"),
];

#[test]
fn expressions_are_enclosed(rt: HostRuntime) -> Result<(), Fail> {
    texts_end(&rt, rt.alloc(), Status::Answered, EXPRESSIONS)
}

const FORMS: &[(&str, &str)] = &[
    (
        "y = x * x; { x in [0,3] -> y - x in ? }",
        "y - x in [-3, 9]\n",
    ),
    (
        "a = x + 1; b = a * a; { x in [1,2] -> b - a in ? }",
        "b - a in [1, 7]\n",
    ),
    // a name that is defined as a variable is that variable, and so is a variable in parentheses
    (
        "y = x; { y in [1,2] -> x + y in ? }",
        "x + y in [1b1, 1b2]\n",
    ),
    ("{ (x) in [1,2] -> ((x)) in ? }", "( ( x ) ) in [1, 1b1]\n"),
    // an operator rounds nothing where nothing uses it, nor before a definition without operations
    (
        "@q = fixed<-4,dn>; { x in [1,2] -> x in ? }",
        "x in [1, 1b1]\n",
    ),
    (
        "@q = int<zr>; y q= x; { x in [1,2] -> y in ? }",
        "y in [1, 1b1]\n",
    ),
    (
        "y fixed<-4,dn>= -x; { x in [1,2] -> y in ? }",
        "y in [-1b1, -1]\n",
    ),
    // names may look like directions
    (
        "{ FIX in [1,2] /\\ dn in [0,1] -> FIX * dn in ? }",
        "FIX * dn in [0, 1b1]\n",
    ),
    // each part before the last arrow has hypotheses
    (
        "{ x in [1,2] -> y in [3,5] /\\ z in [0,1] -> x * y - z in ? }",
        "x * y - z in [1b1, 5b1]\n",
    ),
    // blanks and comments
    ("{x in[1,2]->x in ?}", "x in [1, 1b1]\n"),
    (
        "# one\n{ x in [1,2] # two ]\r\n ->\tx\n#\nin ? } # three",
        "x in [1, 1b1]\n",
    ),
    ("{ x in [1,2] -> x # \u{e9}\n in ? }", "x in [1, 1b1]\n"),
];

#[test]
fn forms_are_read(rt: HostRuntime) -> Result<(), Fail> {
    texts_end(&rt, rt.alloc(), Status::Answered, FORMS)
}

const BOUNDED: &[(&str, &str)] = &[
    ("{ x >= 1 -> x >= 0.5 }", "x in [1, +inf]\n"),
    ("{ x <= 3 -> -x >= -3 }", "- x in [-3, +inf]\n"),
    ("{ x >= 1 -> y <= 2 -> y - x <= 1 }", "y - x in [-inf, 1]\n"),
    (
        "{ x in [0.25,0.5] -> x in [0.25,0.5] }",
        "x in [1b-2, 1b-1]\n",
    ),
    (
        "{ x in [0.1,0.2] -> x in [0.09,0.21] }",
        "x in [230584300921369395b-61, 922337203685477581b-62]\n",
    ),
    // a line for each goal, with what was found in place of what was asked
    (
        "{ x in [1,2] -> x + 1 in ? /\\ x <= 3 /\\ 2 * x in [-5,+5] }",
        "x + 1 in [1b1, 3]\nx in [1, 1b1]\n2 * x in [1b1, 1b2]\n",
    ),
    (
        "{ x in [1,2] -> x in ? /\\ x in ? }",
        "x in [1, 1b1]\nx in [1, 1b1]\n",
    ),
    // bounds past the grid, whose greatest number is (2^60 - 1) * 2^512
    (
        "{ x in [0,1] -> x <= 999999999999999999999999999999b512 }",
        "x in [0, 1]\n",
    ),
    (
        "{ x >= 999999999999999999999999999999b512 -> x >= 0 }",
        "x in [1152921504606846975b512, +inf]\n",
    ),
];

#[test]
fn bounded_goals_are_proved(rt: HostRuntime) -> Result<(), Fail> {
    texts_end(&rt, rt.alloc(), Status::Answered, BOUNDED)
}

const FIRST: &str = "unproved: goal 1 at the whole box\n";

const SECOND: &str = "unproved: goal 2 at the whole box\n";

const UNPROVED: &[(&str, &str)] = &[
    ("{ x in ? }", FIRST),
    // the least goal that isn't proved is named
    ("{ x in [1,2] -> x in ? /\\ y in ? /\\ z in ? }", SECOND),
    ("{ x in [1,2] -> x <= 2 /\\ x <= 1.5 }", SECOND),
    ("{ x in [0,1] -> x in ? /\\ 1 / x >= 1 }", SECOND),
    // where 0 lies in the divisor's interval, neither the quotient nor what contains it has an
    // enclosure
    ("{ x in [-1,1] -> 1 / x in ? }", FIRST),
    ("{ x in [0,1] -> 1 / x >= 1 }", FIRST),
    ("{ x in [0,1] -> 0 * (1 / x) in ? }", FIRST),
    ("{ x in [1,2] -> 1 / (x - x) in ? }", FIRST),
    ("{ 1 / 0 in ? }", FIRST),
    // an end is infinite; a product or quotient with an infinite end is the whole line
    ("{ x >= 1 -> x in ? }", FIRST),
    ("{ x >= 1 -> 0 * x in ? }", FIRST),
    ("{ x >= 1 -> 1 / x <= 1 }", FIRST),
    (
        "{ x in [0,999999999999999999999999999999b512] -> x in ? }",
        FIRST,
    ),
    (
        "{ x in [1b512,1b512] -> x * 1b60 >= 0 /\\ x * 1b60 in ? }",
        SECOND,
    ),
    // hypotheses are rounded outward, bounds of goals inward
    ("{ x in [0,0.1] -> x <= 0.1 }", FIRST),
    ("{ x in [0.1,1] -> x >= 0.1 }", FIRST),
    // no number of the grid lies between the bounds
    ("{ 0.1 in [0.1,0.1] }", FIRST),
    ("{ 1 >= 999999999999999999999999999999b512 }", FIRST),
    ("{ 1 <= -999999999999999999999999999999b512 }", FIRST),
];

#[test]
fn other_goals_are_unproved(rt: HostRuntime) -> Result<(), Fail> {
    texts_end(&rt, rt.alloc(), Status::Unproved, UNPROVED)
}
