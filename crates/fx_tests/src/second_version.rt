// The worked certificate in version 2, damaged: how its check ends. Faults were worked out by hand,
// and are those of a plain program of the definitions.
use crate::made_files::{PRODUCT, SECOND};
use crate::runs::{edit_ends, fronts_end};
use command_runs::Status;
use std::alloc::Global;
use std::process::Abort;
use std::sync::Wait;
use std::test::Fail;
use std::thread::Threads;

const REFUSED: Status = Status::Certificate;

// The certificate's bytes before a place, a piece, and its bytes from a place on; and the line.
type Damage = (usize, &'static [u8], usize, &'static str);

// What is no certificate.
const BYTES: &[Damage] = &[
    // the magic, the version
    (3, &[68], 4, "certificate: BadMagic at 0\n"),
    (4, &[0], 5, "certificate: BadVersion at 4\n"),
    (4, &[3], 5, "certificate: BadVersion at 4\n"),
    // bytes that end inside a number, of which one byte more would be at fault
    (60, &[131], 61, "certificate: Truncated at 61\n"),
    (13, &[128; 9], 61, "certificate: Truncated at 22\n"),
    // what tells no node, direction, item, fact, end, sides of a relative error, flag; cases that
    // don't stand behind the marks; what is no trailer
    (6, &[9], 7, "certificate: BadTag at 6\n"),
    (
        5,
        &[4, 0, 0, 0, 1, 5, 0, 1, 8, 11],
        13,
        "certificate: BadTag at 14\n",
    ),
    (14, &[0], 15, "certificate: BadTag at 14\n"),
    (14, &[7], 15, "certificate: BadTag at 14\n"),
    (17, &[0], 18, "certificate: BadTag at 17\n"),
    (17, &[7], 18, "certificate: BadTag at 17\n"),
    (19, &[3], 20, "certificate: BadTag at 19\n"),
    (17, &[3, 0, 1, 2], 19, "certificate: BadTag at 20\n"),
    (25, &[2], 26, "certificate: BadTag at 25\n"),
    (27, &[5], 28, "certificate: BadTag at 27\n"),
    (58, &[5], 59, "certificate: BadTag at 58\n"),
    // numbers of several bytes with a last one of 0, without one below 128, past a field of two
    // bytes, of one, of sixteen; a mantissa past its field
    (13, &[128, 0], 14, "certificate: BadNumber at 13\n"),
    (13, &[128; 10], 14, "certificate: BadNumber at 13\n"),
    (13, &[128, 128, 4], 14, "certificate: BadNumber at 13\n"),
    (14, &[5, 128, 2], 14, "certificate: BadNumber at 15\n"),
    (
        5,
        &[
            4, 0, 0, 0, 1, 5, 0, 1, 1, 255, 255, 255, 255, 255, 255, 255, 255, 255, 255, 255, 255,
            255, 255, 255, 255, 255, 255, 4, 0, 0,
        ],
        13,
        "certificate: BadNumber at 14\n",
    ),
    (
        20,
        &[255, 255, 255, 255, 255, 255, 255, 255, 255, 2],
        21,
        "certificate: BadNumber at 20\n",
    ),
    // a literal that isn't in its form; powers of a rounding and of a FIX that are too high, and
    // one that is too low
    (
        5,
        &[4, 0, 0, 0, 1, 5, 0, 1, 1, 10, 0, 0],
        13,
        "certificate: BadNumber at 14\n",
    ),
    (
        5,
        &[4, 0, 0, 0, 1, 5, 0, 1, 8, 2, 130, 8, 0],
        13,
        "certificate: BadNumber at 15\n",
    ),
    (17, &[4, 0, 130, 8], 25, "certificate: BadNumber at 19\n"),
    (17, &[4, 0, 129, 16], 25, "certificate: BadNumber at 19\n"),
    // a point that isn't in its form, and one past the grid; ends that make no interval; an ABS
    // below 0; a REL that isn't above -1
    (20, &[4], 21, "certificate: BadNumber at 20\n"),
    (21, &[248, 8], 22, "certificate: BadNumber at 20\n"),
    (33, &[14], 34, "certificate: BadNumber at 32\n"),
    (32, &[2], 35, "certificate: BadNumber at 32\n"),
    (17, &[2, 0, 0, 1], 21, "certificate: BadNumber at 19\n"),
    (
        17,
        &[3, 0, 1, 0, 0, 1],
        21,
        "certificate: BadNumber at 21\n",
    ),
    // no point of a cut, too many, and two that are equal; too few cases, and too many
    (55, &[2, 0, 0], 55, "certificate: BadNumber at 57\n"),
    (55, &[2, 0, 64], 55, "certificate: BadNumber at 57\n"),
    (
        55,
        &[2, 0, 2, 2, 0, 2, 0],
        55,
        "certificate: BadNumber at 60\n",
    ),
    (14, &[5, 1], 14, "certificate: BadNumber at 15\n"),
    (14, &[5, 65], 14, "certificate: BadNumber at 15\n"),
    // numbers of sections and of steps that aren't those that were read, and one past 64 bits; a
    // byte more
    (59, &[2], 60, "certificate: BadCount at 59\n"),
    (60, &[4], 61, "certificate: BadCount at 60\n"),
    (
        59,
        &[129, 128, 128, 128, 128, 128, 128, 128, 128, 2],
        60,
        "certificate: BadNumber at 59\n",
    ),
    (61, &[0], 61, "certificate: TrailingBytes at 61\n"),
];

// The check of each damaged certificate ends with the line of its row.
fn damages_end(
    rt: &(impl Abort + Threads + Wait + Sync),
    alloc: Global,
    rows: &[Damage],
) -> Result<(), Fail> {
    for (front, piece, back, line) in rows {
        let edit = (*front, *piece, *back);
        edit_ends(rt, alloc, PRODUCT, &SECOND, edit, &[1, 4096], REFUSED, line)?;
    }
    Ok(())
}

#[test]
fn damaged_bytes_are_named(rt: HostRuntime) -> Result<(), Fail> {
    damages_end(&rt, rt.alloc(), BYTES)
}

#[test]
fn each_front_is_truncated_at_its_length(rt: HostRuntime) -> Result<(), Fail> {
    fronts_end(&rt, rt.alloc(), PRODUCT, &SECOND)
}

// What is one, and isn't accepted.
const ITEMS: &[Damage] = &[
    // fewer nodes than the script has, another operand
    (5, &[2], 6, "certificate: WrongScript 2\n"),
    (12, &[0], 13, "certificate: WrongScript 2\n"),
    // a node more: that names itself, that stands already, that is no variable of the script
    (
        5,
        &[4, 0, 0, 0, 1, 5, 0, 1, 2, 3],
        13,
        "certificate: BadNode 3\n",
    ),
    (
        5,
        &[4, 0, 0, 0, 1, 5, 0, 1, 5, 0, 1],
        13,
        "certificate: BadNode 3\n",
    ),
    (
        5,
        &[4, 0, 0, 0, 1, 5, 0, 1, 0, 2],
        13,
        "certificate: BadNode 3\n",
    ),
    // a mark, two cases
    (13, &[1, 0], 14, "certificate: HintMark 1\n"),
    (14, &[5, 2], 14, "certificate: BadCases 2\n"),
    // premises that are the step itself, and one behind; met with itself, and with a fact on y
    (54, &[0], 55, "certificate: BadPremise 2\n"),
    (
        53,
        &[255, 255, 255, 255, 255, 255, 255, 255, 255, 1],
        54,
        "certificate: BadPremise 2\n",
    ),
    (51, &[1, 0], 52, "certificate: BadPremise 2\n"),
    (51, &[1, 1], 52, "certificate: BadPremise 2\n"),
    // another hypothesis, another rule, a premise twice, an end that is too low
    (16, &[1], 17, "certificate: BadStep 0\n"),
    (41, &[3], 42, "certificate: BadStep 2\n"),
    (54, &[2], 55, "certificate: BadStep 2\n"),
    (50, &[0], 51, "certificate: BadStep 2\n"),
    // cut along the product
    (55, &[2, 2, 1, 2, 0], 55, "certificate: BadCut 0\n"),
    // no step for the goal, one more, that of y, one that isn't there; a dead end by a step that
    // isn't VOID
    (56, &[0], 58, "certificate: GoalMissing 0 1\n"),
    (56, &[2, 1, 1], 58, "certificate: GoalMissing 0 2\n"),
    (57, &[2], 58, "certificate: GoalMissing 0 1\n"),
    (57, &[0], 58, "certificate: GoalMissing 0 1\n"),
    (55, &[4, 1], 58, "certificate: GoalMissing 0 0\n"),
];

#[test]
fn damaged_items_are_named(rt: HostRuntime) -> Result<(), Fail> {
    damages_end(&rt, rt.alloc(), ITEMS)
}

// The same script with a hint that holds whatever its variables are.
const HINTED: &str = "{ x in [1,2] /\\ y in [3,5] -> x * y in ? } x * y -> x * y;";

// A script, the bytes as above, and how the check of these ends: a wider interval, a cut whose
// pieces have no step of their own, a mark, and what is none.
const OTHERS: &[(&str, usize, &[u8], usize, Status, &str)] = &[
    (
        PRODUCT,
        46,
        &[2],
        47,
        Status::Answered,
        "x * y in [1, 5b1]\n",
    ),
    (
        PRODUCT,
        55,
        &[2, 0, 1, 2, 0, 3, 1, 1, 3, 1, 1, 6, 3],
        60,
        Status::Answered,
        "x * y in [3, 5b1]\n",
    ),
    (
        HINTED,
        13,
        &[1, 0],
        14,
        Status::Answered,
        "x * y in [3, 5b1]\n",
    ),
    (
        HINTED,
        13,
        &[1, 1],
        14,
        REFUSED,
        "certificate: HintMark 1\n",
    ),
    (
        HINTED,
        13,
        &[1, 2],
        14,
        REFUSED,
        "certificate: BadTag at 14\n",
    ),
    (HINTED, 61, &[], 61, REFUSED, "certificate: HintMark 1\n"),
];

#[test]
fn other_certificates_and_scripts(rt: HostRuntime) -> Result<(), Fail> {
    for (text, front, piece, back, status, lines) in OTHERS {
        let edit = (*front, *piece, *back);
        let alloc = rt.alloc();
        edit_ends(&rt, alloc, text, &SECOND, edit, &[1, 4096], *status, lines)?;
    }
    Ok(())
}
