//! Boxes that were worked out by a plain program.
ghost use Rattle.std.specs.Prelude.{◌≤◌, length, IfOk};
ghost use Rattle.script_hints.specs.Few.{HaveFewPieces};

use crate::equals::text_is;
use crate::tree::{X, no_cuts, one_cut, plan_of, written};
use box_tree::{Cut, Plan};
use dyadic::Dyadic;
use fx_edge::{Items, Path};
use fx_model::ExprId;
use script_claims::Claim;
use script_hints::hint::{Cutting, Split};
use std::alloc::{AllocError, Global};
use std::process::Abort;
use std::test::Fail;

const Y: ExprId = ExprId(1);

const Z: ExprId = ExprId(2);

// The piece of a box, and a space; or nothing.
fn piece_text(alloc: Global, plan: &Plan, path: &Path) -> Result<String, AllocError> {
    match plan.piece(path) {
        Some((x, range)) => {
            let lo = range.lo();
            let hi = range.hi();
            format!(in alloc; "{x:?}[{lo},{hi}] ")
        }
        None => Ok(String::new(alloc)),
    }
}

fn cut_text(alloc: Global, cut: &Cut) -> Result<String, AllocError> {
    match cut {
        Cut::Forced(x, points) => {
            let count = points.len();
            format!(in alloc; "forced {x:?} {count}")
        }
        Cut::Half(x, m) => format!(in alloc; "half {x:?} {m}"),
        Cut::Bottom => String::from_str(alloc, "bottom"),
    }
}

// The piece and the cut of a box, as a line.
fn shown(alloc: Global, plan: &Plan, path: &Path) -> Result<String, AllocError> {
    let mut line = piece_text(alloc, plan, path)?;
    let cut = cut_text(alloc, &plan.cut(path))?;
    line.push_str(cut.as_str())?;
    Ok(line)
}

// The path of these numbers, as far as they make one.
fn path_of(numbers: &[u8]) -> Path {
    let mut path = Path::root();
    for n in numbers {
        if path.len() < 36 && *n < 64 {
            path = path.child(*n);
        }
    }
    path
}

fn number(rt: &impl Abort, n: i64) -> Dyadic {
    Dyadic::new(n, 0).expect(rt, "a number of the grid")
}

// Cuts of x at 1 and 3, into one piece, and into two.
fn three_cuts(rt: &impl Abort, alloc: Global) -> Result<Items<Split>, AllocError>
    ensures few { IfOk result (λ c. length c ≤ 4) }
    ensures pieces { IfOk result HaveFewPieces }
{
    let points = [number(rt, 1), number(rt, 3)].to_vec(alloc)?;
    let mut cuts = Vec::new(alloc);
    cuts.push(Split {
        var: X,
        cut: Cutting::Points(Items::from_vec(points)),
    })?;
    cuts.push(Split {
        var: X,
        cut: Cutting::Pieces(1),
    })?;
    cuts.push(Split {
        var: X,
        cut: Cutting::Pieces(2),
    })?;
    Ok(Items::from_vec(cuts))
}

// These cuts and halvings, of x <= 9, x in [0,4], x in [1,2], y in [0,1] and z in [0,1b-512].
fn plan(
    rt: &impl Abort,
    alloc: Global,
    cuts: Items<Split>,
    halves: &[ExprId],
    depth: u8,
) -> Result<Plan, AllocError>
    requires few { length cuts ≤ 4 }
    requires pieces { HaveFewPieces cuts }
    requires depth { depth ≤ 32 }
{
    let zero = Some(written(rt, "0"));
    let one = Some(written(rt, "1"));
    let claims = [
        Claim::Bounded(X, None, Some(written(rt, "9"))),
        Claim::Bounded(X, zero, Some(written(rt, "4"))),
        Claim::Bounded(X, one, Some(written(rt, "2"))),
        Claim::Bounded(Y, zero, one),
        Claim::Bounded(Z, zero, Some(written(rt, "1b-512"))),
    ];
    plan_of(alloc, &claims, cuts, halves, &[X, Y, Z], depth)
}

// The plan of this number.
fn numbered(rt: &impl Abort, alloc: Global, kind: u8) -> Result<Plan, AllocError> {
    match kind {
        0 => plan(rt, alloc, no_cuts(alloc), &[Y], 0),
        1 => plan(rt, alloc, no_cuts(alloc), &[Y], 3),
        // Two variables in turn.
        2 => plan(rt, alloc, no_cuts(alloc), &[X, Y], 4),
        3 => plan(rt, alloc, one_cut(alloc, Y, 4)?, &[], 9),
        // A point at an end, points out of a piece, a cut into one, and one that has no point left.
        4 => plan(rt, alloc, three_cuts(rt, alloc)?, &[X], 2),
        // What is as narrow as the grid is neither cut nor halved.
        _ => plan(rt, alloc, one_cut(alloc, Z, 8)?, &[Z, Y], 2),
    }
}

fn box_line(rt: &impl Abort, alloc: Global, kind: u8, path: &[u8]) -> Result<String, AllocError> {
    let plan = numbered(rt, alloc, kind)?;
    shown(alloc, &plan, &path_of(path))
}

// The number of a plan, a path, and the line of its box.
const ROWS: &[(u8, &[u8], &str)] = &[
    (0, &[], "bottom"),
    (1, &[], "half ExprId(1) 1b-1"),
    (1, &[0], "ExprId(1)[0,1b-1] half ExprId(1) 1b-2"),
    (1, &[0, 1, 1], "ExprId(1)[3b-3,1b-1] bottom"),
    (2, &[], "half ExprId(0) 1b1"),
    (2, &[1], "ExprId(0)[1b1,1b2] half ExprId(1) 1b-1"),
    (2, &[1, 0], "ExprId(1)[0,1b-1] half ExprId(0) 3"),
    (2, &[1, 0, 1, 1], "ExprId(1)[1b-2,1b-1] bottom"),
    (3, &[], "forced ExprId(1) 3"),
    (3, &[2], "ExprId(1)[1b-1,3b-2] bottom"),
    (4, &[], "forced ExprId(0) 2"),
    (4, &[1], "ExprId(0)[1,3] forced ExprId(0) 1"),
    (4, &[1, 1], "ExprId(0)[1b1,3] half ExprId(0) 5b-1"),
    (4, &[1, 1, 0, 1], "ExprId(0)[9b-2,5b-1] bottom"),
    (5, &[], "half ExprId(1) 1b-1"),
    (5, &[1], "ExprId(1)[1b-1,1] half ExprId(1) 3b-2"),
    (5, &[1, 0], "ExprId(1)[1b-1,3b-2] bottom"),
];

fn box_is(rt: &impl Abort, alloc: Global, kind: u8, path: &[u8], wanted: &str) -> Result<(), Fail> {
    let line = box_line(rt, alloc, kind, path)?;
    text_is(rt, path, line.as_str(), wanted);
    Ok(())
}

#[test]
fn each_path_has_its_piece_and_its_cut(rt: HostRuntime) -> Result<(), Fail> {
    for (kind, path, wanted) in ROWS {
        box_is(&rt, rt.alloc(), *kind, *path, wanted)?;
    }
    Ok(())
}
