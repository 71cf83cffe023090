//! A tree of 15 boxes, which is open on two ways down.
ghost use Rattle.std.specs.Prelude.{◌≡◌, ◌≤◌, ℕ, List, [], length, Some, IfOk};
ghost use Rattle.std.specs.List.{AllByRecursion};
ghost use Rattle.script_claims.specs.Facts.{HasNormalBounds};
ghost use Rattle.script_hints.specs.Few.{HaveFewPieces};
ghost use Rattle.literal_order.specs.Values.{IsWritten};
ghost use Rattle.box_tree.specs.declared.cut.Cut.{Cut};
ghost use Rattle.box_tree.specs.declared.cut.Cut.TheVariants.{Bottom};
ghost use Rattle.box_tree.specs.Plans.{cut_at};
ghost use Rattle.bisect.specs.Examples.{is_front, two_ways_open};
ghost use Rattle.bisect.specs.declared.settler.State.{State};

use bisect::{Posted, Settler, State, Verdict};
use box_tree::Plan;
use fx_edge::{Items, Path};
use fx_model::ExprId;
use literal::read;
use literal_order::Written;
use script_claims::Claim;
use script_hints::hint::{Cutting, HintList, Split};
use std::alloc::{AllocError, Global};
use std::marker::{Brand, PhantomData};
use std::process::Abort;
use std::sync::atomic::{AtomicU64, Ordering};

/// The variable whose range is cut.
pub const X: ExprId = ExprId(0);

/// No call is refused.
pub const NONE: u64 = 1000;

/// The cuts of a test's plan.
pub trait World: Send + Sync {
    ghost cut_at: { List ℕ → Cut };
}

impl World for Brand {
    ghost cut_at = { λ _. Bottom };
}

/// The entry of a box: its path.
#[derive(Drop)]
pub struct Spot<W: World> {
    path: Path,
    of: PhantomData<W>,
}

impl<W: World> Posted for Spot<W> {
    ghost cut_at = { W.cut_at };

    ghost state_at = { two_ways_open };

    ghost path_of = { λ e. e.path };
}

/// Counts its calls, of which one is refused.
#[derive(Drop)]
pub struct TwoWays<'a, W: World> {
    pub calls: AtomicU64,
    refused: u64,
    plan: &'a Plan,
    of: PhantomData<W>,
    ghost same: { (p : List ℕ) → cut_at plan.now p ≡ W.cut_at p },
}

/// It settles boxes of the plan as the tree has them.
pub fn two_ways<'a, W: World>(plan: &'a Plan, refused: u64) -> TwoWays<'a, W>
    requires { (p : List ℕ) → cut_at plan.now p ≡ W.cut_at p }
{
    TwoWays {
        calls: AtomicU64::new(0),
        refused,
        plan,
        of: PhantomData,
    }
}

/// The path is a front of the numbers.
pub fn is_front(path: &[u8], numbers: &[u8]) -> bool
    ensures { result ≡ is_front path.now numbers.now }
{
    match path {
        [] => true,
        [i, later @ ..] => match numbers {
            [] => false,
            [n, rest @ ..] => *i == *n && is_front(later, rest),
        },
    }
}

impl<'a, W: World> Settler for TwoWays<'a, W> {
    type Entry = Spot<W>;

    type Area = ();

    fn area(&self, _alloc: Global) {}

    fn settle(
        &self,
        alloc: Global,
        path: &Path,
        _parent: Option<&Spot<W>>,
        _area: &mut (),
    ) -> Result<Verdict<Spot<W>>, AllocError> {
        let before = self.calls.fetch_add(1, Ordering::SeqCst);
        if before == self.refused {
            return Err(AllocError);
        }
        let numbers = path.numbers();
        let state = if is_front(numbers, &[0, 1, 1]) || is_front(numbers, &[1, 0, 0]) {
            State::Open(0)
        } else {
            State::Settled(Items::from_vec(Vec::new(alloc)))
        };
        let entry = Spot {
            path: *path,
            of: PhantomData,
        };
        Ok(Verdict {
            entry,
            state,
            cut: self.plan.cut(path),
        })
    }
}

/// A number as it is written.
pub fn written(rt: &impl Abort, text: &str) -> Written
    ensures { IsWritten (Some result) }
{
    Written {
        literal: read(text).expect(rt, "a literal"),
        negative: false,
    }
}

/// No cut.
pub fn no_cuts(alloc: Global) -> Items<Split>
    ensures { result ≡ [] }
{
    Items::from_vec(Vec::new(alloc))
}

/// One cut, into so many pieces.
pub fn one_cut(alloc: Global, var: ExprId, pieces: u8) -> Result<Items<Split>, AllocError>
    requires { pieces ≤ 64 }
    ensures few { IfOk result (λ c. length c ≤ 4) }
    ensures pieces { IfOk result HaveFewPieces }
{
    let mut cuts = Vec::new(alloc);
    cuts.push(Split {
        var,
        cut: Cutting::Pieces(pieces),
    })?;
    Ok(Items::from_vec(cuts))
}

/// The plan of these claims, cuts and halvings, with the variables in this order.
pub fn plan_of(
    alloc: Global,
    claims: &[Claim],
    cuts: Items<Split>,
    halves: &[ExprId],
    order: &[ExprId],
    depth: u8,
) -> Result<Plan, AllocError>
    requires normal { AllByRecursion HasNormalBounds claims.now }
    requires few { length cuts ≤ 4 }
    requires pieces { HaveFewPieces cuts }
    requires order { length order.now ≤ 8 }
    requires depth { depth ≤ 32 }
{
    let hints = HintList {
        rewrites: Items::from_vec(Vec::new(alloc)),
        likes: Items::from_vec(Vec::new(alloc)),
        cuts,
        halves: Items::from_vec(halves.to_vec(alloc)?),
        order: Items::from_vec(order.to_vec(alloc)?),
    };
    Plan::new(alloc, claims, &hints, depth)
}

/// The plan where x in [0,1] is cut so, and then halved so often at most.
pub fn unit_plan(
    rt: &impl Abort,
    alloc: Global,
    cuts: Items<Split>,
    depth: u8,
) -> Result<Plan, AllocError>
    requires few { length cuts ≤ 4 }
    requires pieces { HaveFewPieces cuts }
    requires depth { depth ≤ 32 }
{
    let unit = Claim::Bounded(X, Some(written(rt, "0")), Some(written(rt, "1")));
    plan_of(alloc, &[unit], cuts, &[X], &[X], depth)
}

/// The plan where it is halved so often at most.
pub fn halves(rt: &impl Abort, alloc: Global, depth: u8) -> Result<Plan, AllocError>
    requires { depth ≤ 32 }
{
    unit_plan(rt, alloc, no_cuts(alloc), depth)
}
