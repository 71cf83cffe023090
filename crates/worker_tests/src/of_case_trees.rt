// What several trees come to together, of which each has so many boxes and one leaf, which may be
// open.
ghost use Rattle.std.specs.Prelude.{◌≤◌, IfOk, length};
ghost use Rattle.case_trees.specs.Gathered.{IsWithin};

use crate::equals::equal;
use bisect::{Leaf, OpenLeaf, Outcome, State};
use case_trees::Gathered;
use fx_edge::{Items, Path};
use std::alloc::{AllocError, Global};
use std::process::Abort;
use std::test::Fail;

// The number of boxes, and the least goal that isn't settled.
type Boxes = (u32, Option<u16>);

// The number of boxes and of leaves, and the case and the goal of the first open leaf.
#[derive(Clone, Copy, Debug, PartialEq, Eq)]
enum Wanted {
    Proved(u32, usize),
    Open(u32, u8, u16),
    Limit,
}

fn tree(alloc: Global, boxes: Boxes, left: u32) -> Result<Outcome, AllocError>
    ensures { IfOk result (IsWithin left) }
{
    let (boxes, open) = boxes;
    if boxes > left {
        return Ok(Outcome::BoxLimit);
    }
    let path = Path::root();
    if let Some(goal) = open {
        let leaf = OpenLeaf {
            case: 0,
            path,
            goal,
        };
        return Ok(Outcome::Unproved { boxes, leaf });
    }
    let mut leaves = Vec::new(alloc);
    leaves.push(Leaf {
        path,
        state: State::Void,
    })?;
    Ok(Outcome::Leaves {
        boxes,
        leaves: Items::from_vec(leaves),
    })
}

fn told(outcome: Outcome) -> Wanted {
    match outcome {
        Outcome::Leaves { boxes, leaves } => Wanted::Proved(boxes, leaves.as_slice().len()),
        Outcome::Unproved { boxes, leaf } => Wanted::Open(boxes, leaf.case, leaf.goal),
        Outcome::BoxLimit => Wanted::Limit,
    }
}

fn together(alloc: Global, limit: u32, trees: &[Boxes]) -> Result<Wanted, AllocError>
    requires { length trees.now ≤ 64 }
{
    let mut gathered = Gathered::new(alloc, limit);
    for i in 0..trees.len() {
        let left = gathered.left();
        let outcome = tree(alloc, trees[i], left)?;
        if left == 0 || !gathered.add(outcome)? {
            return Ok(Wanted::Limit);
        }
    }
    Ok(told(gathered.finish()))
}

fn trees_are(
    rt: &impl Abort,
    alloc: Global,
    limit: u32,
    trees: &[Boxes],
    wanted: Wanted,
) -> Result<(), Fail>
    requires { length trees.now ≤ 64 }
{
    let found = together(alloc, limit, trees)?;
    equal(rt, u64::from(limit), found, wanted);
    Ok(())
}

// A limit of boxes, two trees, and what they come to.
fn outcomes_are(
    rt: &impl Abort,
    alloc: Global,
    rows: &[(u32, [Boxes; 2], Wanted)],
) -> Result<(), Fail> {
    for (limit, trees, wanted) in rows {
        trees_are(rt, alloc, *limit, trees, *wanted)?;
    }
    Ok(())
}

#[test]
fn several_trees_have_one_outcome(rt: HostRuntime) -> Result<(), Fail> {
    let rows: [(u32, [Boxes; 2], Wanted); 8] = [
        (4, [(3, None), (1, None)], Wanted::Proved(4, 2)),
        (3, [(3, None), (1, None)], Wanted::Limit),
        (4, [(3, Some(1)), (1, Some(0))], Wanted::Open(4, 0, 1)),
        (4, [(3, None), (1, Some(2))], Wanted::Open(4, 1, 2)),
        (4, [(3, Some(0)), (1, None)], Wanted::Open(4, 0, 0)),
        (3, [(1, Some(0)), (3, None)], Wanted::Limit),
        (1, [(1, Some(0)), (1, Some(0))], Wanted::Limit),
        (2, [(1, Some(5)), (1, None)], Wanted::Open(2, 0, 5)),
    ];
    outcomes_are(&rt, rt.alloc(), &rows)
}
