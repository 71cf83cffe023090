// What cuts claims and hints ask for.
ghost use Rattle.std.specs.Prelude.{◌≡◌, ◌≤◌, ◌<◌, ◌++◌, ◌∷◌, ℕ, List, [], length, take, Some};
ghost use Rattle.std.specs.Prelude.{None, IfOk, IfSome};
ghost use Rattle.std.specs.List.{AllByRecursion};
ghost use Rattle.std.specs.Option.{IsSomeAnd};
ghost use Rattle.fx_model.specs.Expression.{Assignment, value};
ghost use Rattle.fx_model.specs.declared.Node.{Node};
ghost use Rattle.script_claims.specs.Facts.{HasNormalBounds};
ghost use Rattle.script_claims.specs.Meets.{IsTrueAt};
ghost use Rattle.script_claims.specs.declared.claim.Claim.{Claim};
ghost use Rattle.script_hints.specs.declared.hint.HintList.{HintList};
ghost use Rattle.script_claims.specs.Ranges.{IsOrdered};
ghost use Rattle.box_tree.specs.Few.{AreFew};
ghost use Rattle.box_tree.specs.Pieces.{piece_count};
ghost use Rattle.box_tree.specs.Plans.{cut_at, piece_at};
ghost use Rattle.box_tree.specs.Root as spec;
ghost use Rattle.box_tree.specs.Covers.{LieInBox};

use crate::plan::Plan;
use dyadic::Dyadic;
use fx_edge::Items;
use fx_model::ExprId;
use script_claims::{Claim, SplitRange, hypotheses_hold, split_range};
use script_hints::hint::{Cutting, HintList, Split};
use std::alloc::{AllocError, Global};

/// What stands where no range does.
fn no_range() -> SplitRange {
    let Some(zero) = Dyadic::new(0, 0) else {
        unreachable!()
    };
    SplitRange {
        var: ExprId(0),
        low: zero,
        high: zero,
    }
}

/// Puts the ranges of the variables that have one, and says how many they are.
fn put_ranges(claims: &[Claim], order: &[ExprId], entries: &mut [SplitRange]) -> u8
    requires normal { AllByRecursion HasNormalBounds claims.now }
    requires room { length entries.old ≡ 8 }
    requires order { length order.now ≤ 8 }
    ensures few { result ≤ 8 }
    ensures is { take result entries.new ≡ spec.split_ranges claims.now order.now }
    ensures ordered { AllByRecursion IsOrdered (take result entries.new) }
{
    let mut count = 0usize;
    let mut order = order;
    while let [x, later @ ..] = order {
        if let Some(range) = split_range(claims, *x) {
            entries[count] = range;
            count += 1;
        }
        order = later;
    }
    count as u8
}

fn copy_cutting(alloc: Global, cut: &Cutting) -> Result<Cutting, AllocError>
    ensures { IfOk result (λ c. c ≡ cut.now) }
{
    match cut {
        Cutting::Pieces(count) => Ok(Cutting::Pieces(*count)),
        Cutting::Points(points) => {
            Ok(Cutting::Points(Items::from_vec(points.as_slice().to_vec(alloc)?)))
        }
    }
}

/// A copy of the cuts.
fn copy_cuts(alloc: Global, cuts: &[Split]) -> Result<Items<Split>, AllocError>
    ensures { IfOk result (λ c. c ≡ cuts.now) }
{
    let mut copy = Vec::new(alloc);
    for k in 0..cuts.len() {
        let split = &cuts[k];
        copy.push(Split {
            var: split.var,
            cut: copy_cutting(alloc, &split.cut)?,
        })?;
    }
    Ok(Items::from_vec(copy))
}

impl Plan {
    /// The cuts that the hints ask for, over the ranges that the claims give the split variables;
    /// boxes are halved `depth` times at most (0 to 32). The claims are the hypotheses, or one case
    /// of them. Lack of memory is the only error.
    pub fn new(
        alloc: Global,
        claims: &[Claim],
        hints: &HintList,
        depth: u8,
    ) -> Result<Plan, AllocError>
        requires normal { AllByRecursion HasNormalBounds claims.now }
        requires few { AreFew hints.now }
        requires depth { depth ≤ 32 }
        ensures { IfOk result (λ plan. plan ≡ spec.plan_by claims.now hints.now depth) }
    {
        let mut entries = [no_range(); 8];
        let count = put_ranges(claims, hints.order.as_slice(), &mut entries);
        Ok(Plan {
            entries,
            count,
            cuts: copy_cuts(alloc, hints.cuts.as_slice())?,
            halves: Items::from_vec(hints.halves.as_slice().to_vec(alloc)?),
            depth,
        })
    }
}

/// Nothing is done. The clause tells a caller that an assignment that meets the hypotheses lies in
/// the whole box.
pub fn hypotheses_are_in_the_box()
    ensures { (nodes : List Node) (a : Assignment) (claims : List Claim)
        (hints : HintList) (depth : ℕ)
        → AllByRecursion (IsTrueAt nodes a) claims
        → LieInBox (spec.plan_by claims hints depth) (value nodes a) [] }
{
    hypotheses_hold();
}

/// Nothing is done. The clause tells a caller that each piece is of an expression that a hypothesis
/// bounds.
pub fn pieces_are_of_hypotheses()
    ensures { (claims : List Claim) (hints : HintList) (depth : ℕ) (path : List ℕ) (i : ℕ)
        → i < piece_count (cut_at (spec.plan_by claims hints depth) path)
        → IsSomeAnd (piece_at (spec.plan_by claims hints depth) (path ++ i ∷ []))
        (λ p. spec.IsBounded claims p.0) }
{}
