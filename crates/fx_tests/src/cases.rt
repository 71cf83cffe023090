// Scripts whose hypotheses have several cases. Expected lines, and certificates, are those of a
// plain program of the definitions.
use crate::runs::{Row, check_ends, rows_end};
use command_runs::Status;
use std::test::Fail;

const PROVE: &[&str] = &["prove", "a"];

const BOXES_3: &[&str] = &["prove", "a", "--boxes", "3"];

const BOXES_4: &[&str] = &["prove", "a", "--boxes", "4"];

const BOXES_15: &[&str] = &["prove", "a", "--boxes", "15"];

const BOXES_16: &[&str] = &["prove", "a", "--boxes", "16"];

const DEPTH_3: &[&str] = &["prove", "a", "--depth", "3"];

const ANSWERED: Status = Status::Answered;

const UNPROVED: Status = Status::Unproved;

const REFUSED: Status = Status::Script;

const LIMITED: Status = Status::Limit;

const TWO: &str = "{ x in [0,1] \\/ x in [3,4] -> x * x in ? }";

// 15 boxes and one
const LATER_SMALL: &str =
    "{ x in [0,1] \\/ x in [0,0] -> x * (1 - x) in [0,0.3] } x * (1 - x) $ x;";

const LATER_LARGE: &str =
    "{ x in [0,0] \\/ x in [0,1] -> x * (1 - x) in [0,0.3] } x * (1 - x) $ x;";

const FIRST_OPEN: &str = "{ x in [2,2] \\/ x in [0,1] -> x * (1 - x) in [0,0.3] } x * (1 - x) $ x;";

const HALVED_LINE: &str = "x * ( 1 - x ) in [0, 9b-5]\n";

// Words, a script, and how its proof ends.
const ROWS: &[Row] = &[
    (PROVE, TWO, ANSWERED, "x * x in [0, 1b4]\n"),
    (
        &["prove", "a", "--boxes", "1"],
        TWO,
        LIMITED,
        "limit: more than 1 boxes\n",
    ),
    // a contradiction beside another case, in all cases, and before an open one
    (
        PROVE,
        "{ x in [0,1] /\\ x in [2,3] \\/ x in [4,5] -> x in ? }",
        ANSWERED,
        "x in [1b2, 5]\n",
    ),
    (
        PROVE,
        "{ x in [0,1] /\\ x in [2,3] \\/ x in [4,5] /\\ x in [6,7] -> x in ? }",
        ANSWERED,
        "x in empty\n",
    ),
    (
        PROVE,
        "{ x in [0,1] /\\ x in [2,3] \\/ x in [4,5] -> y in ? }",
        UNPROVED,
        "unproved: goal 1 at case 2, the whole box\n",
    ),
    (
        PROVE,
        "{ x in [1,2] \\/ x in [-1,1] -> 1 / x in ? }",
        UNPROVED,
        "unproved: goal 1 at case 2, the whole box\n",
    ),
    // bounds that are denied
    (
        PROVE,
        "{ x in [-1,1] /\\ not x >= 0 -> x in ? }",
        ANSWERED,
        "x in [-1, 0]\n",
    ),
    (
        PROVE,
        "{ not x <= 0 /\\ x <= 1 \\/ not x >= -2 /\\ x >= -3 -> x * x in ? }",
        ANSWERED,
        "x * x in [0, 9]\n",
    ),
    (
        PROVE,
        "{ not x in [0,1] -> x in ? }",
        REFUSED,
        "script: FormulaForm at 2\n",
    ),
    // boxes of all cases are counted together
    (
        BOXES_15,
        LATER_SMALL,
        LIMITED,
        "limit: more than 15 boxes\n",
    ),
    (BOXES_16, LATER_SMALL, ANSWERED, HALVED_LINE),
    (
        BOXES_15,
        LATER_LARGE,
        LIMITED,
        "limit: more than 15 boxes\n",
    ),
    (BOXES_16, LATER_LARGE, ANSWERED, HALVED_LINE),
    // an open case, and too many boxes in a later one
    (BOXES_15, FIRST_OPEN, LIMITED, "limit: more than 15 boxes\n"),
    (
        BOXES_16,
        FIRST_OPEN,
        UNPROVED,
        "unproved: goal 1 at case 1, x in [1b1, 1b1]\n",
    ),
    // a box of a later case
    (
        DEPTH_3,
        LATER_LARGE,
        UNPROVED,
        "unproved: goal 1 at case 2, x in [3b-3, 1b-1]\n",
    ),
    // a part twice: four cases, the first part slowest
    (
        BOXES_3,
        "{ x in [0,1] \\/ x in [3,4] -> x in [0,1] \\/ x in [3,4] -> x in ? }",
        LIMITED,
        "limit: more than 3 boxes\n",
    ),
    (
        BOXES_4,
        "{ x in [0,1] \\/ x in [3,4] -> x in [0,1] \\/ x in [3,4] -> x in ? }",
        ANSWERED,
        "x in [0, 1b2]\n",
    ),
    (
        PROVE,
        "{ x in [1,2] \\/ x in [-1,1] -> y in [1,2] \\/ y in [5,6] -> y / x in ? }",
        UNPROVED,
        "unproved: goal 1 at case 3, the whole box\n",
    ),
    // a range in one conjunction alone
    (
        PROVE,
        "{ x in [0,1] \\/ y in [0,1] -> x in ? }",
        UNPROVED,
        "unproved: goal 1 at case 2, the whole box\n",
    ),
    (
        PROVE,
        "{ x in [0,1] \\/ x >= 0 -> x * x >= 0 } $ x;",
        REFUSED,
        "script: SplitRange at 41\n",
    ),
    // no relative error is known in the first case
    (
        PROVE,
        "{ x -/ y in [-0.5,-0.25] /\\ x -/ y in [0.25,0.5] \\/ x -/ y in [0.5,0.75] -> x -/ y in ? }",
        ANSWERED,
        "x -/ y in [1b-1, 3b-2]\n",
    ),
    (
        PROVE,
        "{ x in [1,2] \\/ x in [3,4] -> x in ? /\\ y in ? } y -> x + 1;",
        ANSWERED,
        "x in [1, 1b2]\ny in [1b1, 5]\nhint 1 assumed\n",
    ),
];

#[test]
fn cases_are_answered_together(rt: HostRuntime) -> Result<(), Fail> {
    rows_end(&rt, rt.alloc(), ROWS)
}

// The certificate of `TWO`: in each case x's range, a hypothesis, and the range of x * x by that.
const CERT: [u8; 79] = [
    70, 88, 80, 67, 2, 2, 0, 0, 5, 0, 0, 0, // the head, x and x * x, no marks
    5, 2, // two cases
    1, 100, 0, 1, 0, 0, 0, 0, 0, 2, 0, 0, 0, // x in [0, 1]
    1, 6, 0, 1, 1, 0, 0, 0, 0, 2, 0, 0, 2, 1, 1, // x * x in [0, 1]
    3, 1, 1, // the leaf, by the second step
    1, 100, 0, 1, 0, 0, 6, 0, 0, 2, 4, 0, 0, // x in [3, 4]
    1, 6, 0, 1, 1, 0, 18, 0, 0, 2, 8, 0, 2, 1, 1, // x * x in [9, 16]
    3, 1, 1, // the leaf, by the fourth step
    6, 2, 4, // two sections, four steps
];

const ONE: &str = "{ x in [0,1] -> x * x in ? }";

// The certificate of `ONE`.
const CERT_OF_ONE: [u8; 46] = [
    70, 88, 80, 67, 2, 2, 0, 0, 5, 0, 0, 0, // the head, x and x * x, no marks
    1, 100, 0, 1, 0, 0, 0, 0, 0, 2, 0, 0, 0, // x in [0, 1]
    1, 6, 0, 1, 1, 0, 0, 0, 0, 2, 0, 0, 2, 1, 1, // x * x in [0, 1]
    3, 1, 1, // the leaf
    6, 1, 2, // a section, two steps
];

const REFUTED: Status = Status::Certificate;

// A script, a certificate, and how its check ends.
const CHECKS: &[(&str, &[u8], Status, &str)] = &[
    (TWO, &CERT, ANSWERED, "x * x in [0, 1b4]\n"),
    // a step may say less than its hypothesis
    (
        "{ x in [0,1] \\/ x in [3,3.5] -> x * x in ? }",
        &CERT,
        ANSWERED,
        "x * x in [0, 1b4]\n",
    ),
    (ONE, &CERT, REFUTED, "certificate: BadCases 2\n"),
    (TWO, &CERT_OF_ONE, REFUTED, "certificate: BadCases 1\n"),
    (
        "{ x in [0,1] \\/ x in [3,4] \\/ x in [3,4] -> x * x in ? }",
        &CERT,
        REFUTED,
        "certificate: BadCases 2\n",
    ),
    // the cases in another order
    (
        "{ x in [3,4] \\/ x in [0,1] -> x * x in ? }",
        &CERT,
        REFUTED,
        "certificate: BadStep 0\n",
    ),
];

#[test]
fn certificates_of_cases_are_checked(rt: HostRuntime) -> Result<(), Fail> {
    for (text, cert, status, printed) in CHECKS {
        check_ends(&rt, rt.alloc(), text, cert, &[1, 4096], *status, printed)?;
    }
    Ok(())
}
