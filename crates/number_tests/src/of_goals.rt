// Goals, facts and lines that were worked out by hand.
use dyadic::{Dyadic, End};
use facts::{Fact, RelativeError, Size, Slot};
use fx_model::ExprId;
use goals::{Goal, Line, Want, lines_hold, settles, settling_facts};
use interval::Interval;
use std::process::Abort;

const X: ExprId = ExprId(4);

const Y: ExprId = ExprId(9);

// A whole number as an end, or infinite from -100 and 100 on.
fn end(rt: &impl Abort, number: i64) -> End {
    if number <= -100 {
        End::Low
    } else if number >= 100 {
        End::High
    } else {
        End::At(Dyadic::new(number, 0).expect(rt, "a whole number"))
    }
}

fn range(rt: &impl Abort, lo: i64, hi: i64) -> Interval {
    Interval::new(end(rt, lo), end(rt, hi)).expect(rt, "ends in order")
}

use Said::{Bnd as bnd, Rel as rel};

// A fact on X, or on X over Y, with whole ends.
#[derive(Clone, Copy)]
enum Said {
    Bnd(i64, i64),
    Abs(i64, i64),
    Rel(i64, i64),
    NoError,
    Void,
}

// What a goal wants: an answer, whole ends, or what no fact has.
#[derive(Clone, Copy)]
enum Wanted {
    Ask,
    Inside(i64, i64),
    Nothing,
}

// A line with whole ends.
#[derive(Clone, Copy)]
enum Told {
    Empty,
    None,
    In(i64, i64),
}

fn size(rt: &impl Abort, lo: i64, hi: i64) -> Size {
    Size::new(range(rt, lo, hi)).expect(rt, "a size")
}

fn error(rt: &impl Abort, lo: i64, hi: i64) -> RelativeError {
    RelativeError::new(range(rt, lo, hi)).expect(rt, "a relative error")
}

fn fact(rt: &impl Abort, said: Said) -> Fact {
    match said {
        bnd(lo, hi) => Fact::Bnd(X, range(rt, lo, hi)),
        Said::Abs(lo, hi) => Fact::Abs(X, size(rt, lo, hi)),
        rel(lo, hi) => Fact::Rel(X, Y, Some(error(rt, lo, hi))),
        Said::NoError => Fact::Rel(X, Y, None),
        Said::Void => Fact::Void,
    }
}

fn want_of(rt: &impl Abort, wanted: Wanted) -> Want {
    match wanted {
        Wanted::Ask => Want::Ask,
        Wanted::Inside(lo, hi) => Want::Inside(Some(range(rt, lo, hi))),
        Wanted::Nothing => Want::Inside(None),
    }
}

fn line_of(rt: &impl Abort, told: Told) -> Line {
    match told {
        Told::Empty => Line::Empty,
        Told::None => Line::None,
        Told::In(lo, hi) => Line::In(range(rt, lo, hi)),
    }
}

const VALUE: Slot = Slot::Bnd(X);

const ERROR: Slot = Slot::Rel(X, Y);

const INSIDE: Wanted = Wanted::Inside(0, 2);

// The goal, a fact, whether it settles the goal, a line, and the line with the fact.
const ROWS: &[(Slot, Wanted, Said, bool, Told, Told)] = &[
    (
        VALUE,
        Wanted::Ask,
        bnd(0, 1),
        true,
        Told::Empty,
        Told::In(0, 1),
    ),
    (
        VALUE,
        Wanted::Ask,
        bnd(0, 100),
        false,
        Told::None,
        Told::In(0, 100),
    ),
    (
        VALUE,
        INSIDE,
        bnd(0, 2),
        true,
        Told::In(5, 6),
        Told::In(0, 6),
    ),
    (
        VALUE,
        INSIDE,
        bnd(0, 3),
        false,
        Told::In(-100, 1),
        Told::In(-100, 3),
    ),
    (
        VALUE,
        Wanted::Nothing,
        bnd(0, 0),
        false,
        Told::In(1, 9),
        Told::In(0, 9),
    ),
    (
        Slot::Bnd(Y),
        Wanted::Ask,
        bnd(0, 1),
        false,
        Told::In(0, 1),
        Told::In(0, 1),
    ),
    (
        VALUE,
        Wanted::Ask,
        Said::Abs(0, 1),
        false,
        Told::Empty,
        Told::Empty,
    ),
    (
        ERROR,
        Wanted::Ask,
        rel(0, 1),
        true,
        Told::None,
        Told::In(0, 1),
    ),
    (
        ERROR,
        INSIDE,
        rel(1, 3),
        false,
        Told::In(0, 1),
        Told::In(0, 3),
    ),
    (
        Slot::Rel(Y, X),
        INSIDE,
        rel(1, 1),
        false,
        Told::Empty,
        Told::In(1, 1),
    ),
    (ERROR, INSIDE, Said::NoError, true, Told::Empty, Told::None),
    (
        ERROR,
        Wanted::Nothing,
        Said::NoError,
        true,
        Told::In(7, 8),
        Told::In(7, 8),
    ),
    (
        ERROR,
        Wanted::Ask,
        Said::Void,
        false,
        Told::None,
        Told::None,
    ),
];

fn try_row(rt: &impl Abort, goal: &Goal, fact: Fact, settled: bool, line: Line, joined: Line) {
    assert_eq!(rt; settles(goal, &fact), settled, "{goal:?} {fact:?}");
    assert_eq!(rt; line.joined(&fact), joined, "{line:?} {fact:?}");
}

#[test]
fn facts_settle_goals_and_make_lines(rt: HostRuntime) {
    lines_hold();
    settling_facts();
    for (of, want, said, settled, line, joined) in ROWS {
        let goal = Goal {
            of: *of,
            want: want_of(&rt, *want),
        };
        let line = line_of(&rt, *line);
        let joined = line_of(&rt, *joined);
        try_row(&rt, &goal, fact(&rt, *said), *settled, line, joined);
    }
}
