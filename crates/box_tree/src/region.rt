// A box as the cuts on its path make it.
ghost use Rattle.std.specs.Prelude.{◌≡◌, ◌<◌, ◌≤◌, ◌+◌, ◌-◌, ℕ, [], ◌∷◌, length, drop, Some};
ghost use Rattle.std.specs.Prelude.{IfSome};
ghost use Rattle.std.specs.List.{AllByRecursion};
ghost use Rattle.script_hints.specs.Few.{HasFewPieces, HaveFewPieces};
ghost use Rattle.script_claims.specs.Ranges.{IsOrdered};
ghost use Rattle.box_tree.specs.Nexts.{IsHalved, IsWithinNext};
ghost use Rattle.box_tree.specs.Ranges.{IsWithin, put_range, range_in};
ghost use Rattle.box_tree.specs.Points.{are_any};
ghost use Rattle.box_tree.specs.Regions as spec;

use crate::halves::half_point;
use crate::next::Next;
use crate::plan::Plan;
use crate::points::{cut_piece, cut_points, half_piece, has_points};
use crate::range::{put_range, range_in};
use dyadic::{Dyadic, Points};
use fx_model::ExprId;
use script_claims::SplitRange;
use script_hints::hint::Split;
use std::marker::Model;

/// The ranges of a box, how many unconditional cuts and how many halvings are behind it, and the
/// variable of the last cut.
#[derive(Drop)]
pub struct Region {
    entries: [SplitRange; 8],
    count: u8,
    done: u8,
    halvings: u8,
    last: Option<ExprId>,
}

impl Model for Region {
    ghost use Rattle.std.specs.Prelude.{◌≡◌, ◌≤◌, length, take};
    ghost use Rattle.std.specs.List.{AllByRecursion};
    ghost use Rattle.script_claims.specs.Ranges.{IsOrdered};
    ghost use Rattle.box_tree.specs.Regions as seen;

    ghost Value = { seen.Region };

    ghost view = { λ g. record {
      ranges = take g.count g.entries;
      done = g.done;
      halvings = g.halvings;
      last = g.last;
    } };

    ghost invariant = { λ g. (g.count ≤ 8) × AllByRecursion IsOrdered (take g.count g.entries) };
}

/// Whether the cut has points in the ranges.
fn is_cut(ranges: &[SplitRange], split: &Split) -> bool
    requires ordered { AllByRecursion IsOrdered ranges.now }
    requires few { HasFewPieces split.now.cut }
    ensures { result ≡ are_any (spec.points_for ranges.now split.now) }
{
    match range_in(split.var, ranges) {
        Some(range) => has_points(range, &split.cut),
        None => false,
    }
}

/// The points at which the cut cuts its range.
fn points_for(ranges: &[SplitRange], split: &Split) -> Points
    requires ordered { AllByRecursion IsOrdered ranges.now }
    requires few { HasFewPieces split.now.cut }
    ensures { result ≡ spec.points_for ranges.now split.now }
{
    match range_in(split.var, ranges) {
        Some(range) => cut_points(range, &split.cut),
        None => Points::new(),
    }
}

/// The cuts from the first one on that has points.
fn from_forced<'a>(ranges: &[SplitRange], cuts: &'a [Split]) -> &'a [Split]
    requires ordered { AllByRecursion IsOrdered ranges.now }
    requires pieces { HaveFewPieces cuts.now }
    ensures is { (done : ℕ) → spec.next_forced ranges.now done cuts.now
        ≡ spec.forced_first ranges.now (done + length cuts.now) result.now }
    ensures fewer { length result.now ≤ length cuts.now }
    ensures pieces { HaveFewPieces result.now }
{
    match cuts {
        [] => cuts,
        [split, later @ ..] => {
            if is_cut(ranges, split) {
                return cuts;
            }
            from_forced(ranges, later)
        }
    }
}

/// The first of the variables that can be halved, and where.
fn next_half(ranges: &[SplitRange], halves: &[ExprId]) -> Option<(ExprId, Dyadic)>
    requires { AllByRecursion IsOrdered ranges.now }
    ensures { spec.halving result ≡ spec.next_half ranges.now halves.now }
{
    match halves {
        [] => None,
        [x, later @ ..] => match half_in(ranges, *x) {
            Some(m) => Some((*x, m)),
            None => next_half(ranges, later),
        },
    }
}

/// The point at which a variable's range is halved, if there is one.
fn half_in(ranges: &[SplitRange], x: ExprId) -> Option<Dyadic>
    requires { AllByRecursion IsOrdered ranges.now }
    ensures { result ≡ spec.half_in (range_in x ranges.now) }
{
    match range_in(x, ranges) {
        Some(range) => half_point(range),
        None => None,
    }
}

/// The first that can be halved, in cyclic order from the place turn on.
fn turned_half(ranges: &[SplitRange], halves: &[ExprId], turn: u8) -> Option<(ExprId, Dyadic)>
    requires { AllByRecursion IsOrdered ranges.now }
    ensures { spec.halving result ≡ spec.next_half ranges.now (spec.turned turn halves.now) }
{
    if halves.is_empty() {
        return None;
    }
    let (front, back) = halves.split_at(turn as usize % halves.len());
    match next_half(ranges, back) {
        None => next_half(ranges, front),
        found => found,
    }
}

/// The items from the place n on, if there are any.
fn behind<T>(items: &[T], n: usize) -> &[T]
    ensures { result.now ≡ drop n items.now }
{
    if n < items.len() {
        &items[n..]
    } else {
        &items[..0]
    }
}

/// How many of the unconditional cuts are behind, where these are left.
fn made_before(plan: &Plan, later: &[Split]) -> u8
    requires { length later.now ≤ length plan.now.cuts }
    ensures { result ≡ length plan.now.cuts - length later.now }
{
    (plan.cuts().len() - later.len()) as u8
}

impl Region {
    /// The whole box.
    pub fn root(plan: &Plan) -> Region
        ensures { result ≡ spec.root plan.now }
    {
        Region {
            entries: plan.entries,
            count: plan.count,
            done: 0,
            halvings: 0,
            last: None,
        }
    }

    /// The ranges.
    pub fn ranges(&self) -> &[SplitRange]
        ensures value { result.now ≡ self.now.ranges }
        ensures ordered { AllByRecursion IsOrdered result.now }
    {
        &self.entries[..self.count as usize]
    }

    /// The variable of the last cut.
    pub fn last(&self) -> Option<ExprId>
        ensures { result ≡ self.now.last }
    {
        self.last
    }

    // Where the box is halved, if at all.
    fn half(&self, plan: &Plan) -> Option<(ExprId, Dyadic)>
        ensures is { spec.halving result ≡ spec.half_of plan.now self.now }
        ensures few { IsHalved (spec.halving result) → self.now.halvings < 32 }
    {
        let turn = self.halvings;
        if turn < plan.depth() {
            turned_half(self.ranges(), plan.halves(), turn)
        } else {
            None
        }
    }

    // The unconditional cuts from the next one on that has points.
    fn forced<'a>(&self, plan: &'a Plan) -> &'a [Split]
        ensures is { spec.next_forced self.now.ranges self.now.done
            (drop self.now.done plan.now.cuts)
            ≡ spec.forced_first self.now.ranges (length plan.now.cuts) result.now }
        ensures fewer { length result.now ≤ length plan.now.cuts }
        ensures pieces { HaveFewPieces result.now }
    {
        from_forced(self.ranges(), behind(plan.cuts(), self.done as usize))
    }

    /// What is done next to the box.
    pub fn next(&self, plan: &Plan) -> Next
        ensures is { result ≡ spec.next_of plan.now self.now }
        ensures few { IsHalved result → self.now.halvings < 32 }
        ensures within { IsWithinNext self.now.ranges result }
    {
        match self.forced(plan) {
            [split, later @ ..] => {
                let points = points_for(self.ranges(), split);
                Next::Force(split.var, points, made_before(plan, later))
            }
            [] => match self.half(plan) {
                Some((x, m)) => Next::Halve(x, m),
                None => Next::Rest,
            },
        }
    }

    // Leaves this piece of its variable's range.
    fn put(&mut self, piece: SplitRange)
        requires { IsOrdered piece }
        ensures { self.new ≡ record self.old { ranges = put_range piece self.old.ranges } }
    {
        let count = self.count as usize;
        put_range(piece, &mut self.entries[..count]);
    }

    // Leaves the piece number i of the range that is cut.
    fn force(&mut self, split: &Split, i: u8)
        requires few { HasFewPieces split.now.cut }
        ensures { self.new ≡ record self.old {
          ranges = spec.narrowed split.now.var (spec.points_for self.old.ranges split.now) i
              self.old.ranges;
          last = Some split.now.var;
        } }
    {
        self.last = Some(split.var);
        if let Some(range) = range_in(split.var, self.ranges()) {
            self.put(cut_piece(range, &split.cut, i));
        }
    }

    // Leaves the piece number i of the variable's range, which is halved there.
    fn halve(&mut self, x: ExprId, m: Dyadic, i: u8)
        requires within { IfSome (range_in x self.old.ranges)
            (λ r. AllByRecursion (IsWithin r) (m ∷ [])) }
        ensures { self.new ≡ record self.old {
          ranges = spec.narrowed x (m ∷ []) i self.old.ranges;
          last = Some x;
        } }
    {
        self.last = Some(x);
        if let Some(range) = range_in(x, self.ranges()) {
            self.put(half_piece(range, m, i));
        }
    }

    /// Goes on to the piece number i of the box.
    pub fn step(&mut self, plan: &Plan, i: u8)
        ensures { self.new ≡ spec.piece plan.now self.old i }
    {
        match self.forced(plan) {
            [split, later @ ..] => {
                self.force(split, i);
                self.done = made_before(plan, later);
            }
            [] => match self.half(plan) {
                Some((x, m)) => {
                    self.halve(x, m, i);
                    self.done = plan.cuts().len() as u8;
                    self.halvings += 1;
                }
                None => {}
            },
        }
    }
}
