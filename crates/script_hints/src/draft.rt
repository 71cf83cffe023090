//! The hint that is being read, and what the hints before it say.

ghost use Rattle.std.specs.Prelude.{◌≡◌, [], ◌∷◌, ◌++◌, All, OnOk};
ghost use Rattle.literal_order.specs.Values.{IsWritten};
ghost use Rattle.script_hints.specs.Drafts as spec;
ghost use Rattle.script_hints.specs.Hints as spec_hints;
ghost use Rattle.script_hints.specs.Needs.{HasNormalBound, HasNormalBounds};

use crate::hint::{Constraint, Cutting, Hint, HintList, Split};
use crate::lists::{add_end, add_variable};
use crate::stage::{Bounded, Stage, piece_count};
use dyadic::Dyadic;
use fx_edge::Items;
use fx_model::ExprId;
use literal_order::Written;
use script_bounds::below;
use script_words::class::Symbol;
use std::alloc::{AllocError, Global};
use std::marker::Model;
use std::mem::replace;

/// The hint that is being read, and what the hints before it say. After an `Err` it says nothing.
#[derive(Drop)]
pub struct HintDraft {
    alloc: Global,
    stage: Stage,
    bounded: Bounded,
    // Whether a minus stands before the next literal of a bound.
    negative: bool,
    constraints: Vec<Constraint>,
    points: Vec<Dyadic>,
    rewrites: Vec<Hint>,
    likes: Vec<(ExprId, ExprId)>,
    cuts: Vec<Split>,
    halves: Vec<ExprId>,
    order: Vec<ExprId>,
}

impl Model for HintDraft {
    ghost use Rattle.std.specs.Prelude.{All};
    ghost use Rattle.script_hints.specs.Drafts.{Draft};
    ghost use Rattle.script_hints.specs.Needs.{HasNormalBound, HasNormalBounds};

    ghost Value = { Draft };

    ghost view = { λ h. record {
      stage = h.stage;
      bounded = h.bounded;
      negative = h.negative;
      constraints = h.constraints.items;
      points = h.points.items;
      list = record {
        rewrites = h.rewrites.items;
        likes = h.likes.items;
        cuts = h.cuts.items;
        halves = h.halves.items;
        order = h.order.items;
      };
    } };

    ghost invariant = { λ h. All HasNormalBound h.constraints.items
        × All HasNormalBounds h.rewrites.items };
}

impl HintDraft {
    /// Before the first hint. It takes no memory.
    pub fn new(alloc: Global) -> HintDraft
        ensures { result ≡ spec.fresh spec_hints.no_hints }
    {
        HintDraft {
            alloc,
            stage: Stage::Front,
            bounded: Bounded::Point,
            negative: false,
            constraints: Vec::new(alloc),
            points: Vec::new(alloc),
            rewrites: Vec::new(alloc),
            likes: Vec::new(alloc),
            cuts: Vec::new(alloc),
            halves: Vec::new(alloc),
            order: Vec::new(alloc),
        }
    }

    /// What the hints say.
    pub fn into_list(self) -> HintList
        ensures list { result ≡ self.list }
        ensures normal { All HasNormalBounds result.rewrites }
    {
        let HintDraft {
            rewrites,
            likes,
            cuts,
            halves,
            order,
            ..
        } = self;
        HintList {
            rewrites: Items::from_vec(rewrites),
            likes: Items::from_vec(likes),
            cuts: Items::from_vec(cuts),
            halves: Items::from_vec(halves),
            order: Items::from_vec(order),
        }
    }

    /// A sign behind an expression at the front of a hint.
    pub fn end_side(&mut self, sign: Symbol, side: ExprId)
        ensures { self.new ≡ spec.side_ended sign side self.old }
    {
        match sign {
            Symbol::Arrow => self.stage = Stage::Right(side),
            Symbol::Tilde => self.stage = Stage::Alike(side),
            Symbol::Dollar => self.stage = Stage::Halves,
            _ => {}
        }
    }

    /// The `{` behind the right side of a rewriting.
    pub fn open_needs(&mut self, right: ExprId)
        ensures { self.new ≡ spec.needs_opened right self.old }
    {
        match self.stage {
            Stage::Right(left) => self.stage = Stage::Sides(left, right),
            _ => {}
        }
    }

    /// The relation behind the expression of a constraint.
    pub fn relate(&mut self, sign: Symbol, side: ExprId) -> Result<(), AllocError>
        ensures { OnOk result (self.new ≡ spec.related sign side self.old) }
    {
        match sign {
            Symbol::Unequal => self.constraints.push(Constraint::NotZero(side))?,
            Symbol::Less => self.bounded = Bounded::Below(side, true),
            Symbol::LessEqual => self.bounded = Bounded::Below(side, false),
            Symbol::Greater => self.bounded = Bounded::Above(side, true),
            Symbol::GreaterEqual => self.bounded = Bounded::Above(side, false),
            _ => {}
        }
        Ok(())
    }

    /// A sign before the literal of a bound.
    pub fn sign_bound(&mut self, sign: Symbol)
        ensures { self.new ≡ spec.bound_signed sign self.old }
    {
        match sign {
            Symbol::Minus => self.negative = true,
            _ => {}
        }
    }

    /// Whether a minus stands before the next literal of a bound.
    pub fn is_negative(&self) -> bool
        ensures { result ≡ self.now.negative }
    {
        self.negative
    }

    /// A bound.
    pub fn bound(&mut self, bound: Written) -> Result<(), AllocError>
        requires { IsWritten (Some bound) }
        ensures { OnOk result (self.new ≡ spec.with_bound bound self.old) }
    {
        match self.bounded {
            Bounded::Point => add_end(&mut self.points, below(bound, false).0)?,
            Bounded::Below(side, strict) => {
                add_constraint(
                    &mut self.constraints,
                    Constraint::Below(side, bound, strict),
                )?;
            }
            Bounded::Above(side, strict) => {
                add_constraint(
                    &mut self.constraints,
                    Constraint::Above(side, bound, strict),
                )?;
            }
        }
        self.bounded = Bounded::Point;
        self.negative = false;
        Ok(())
    }

    /// The `$` of a cut.
    pub fn begin_cut(&mut self)
        ensures { self.new ≡ spec.cut_begun self.old }
    {
        self.stage = Stage::Cuts;
    }

    /// A variable of a split.
    pub fn split_variable(&mut self, variable: ExprId) -> Result<(), AllocError>
        ensures { OnOk result (self.new ≡ spec.with_split_variable variable self.old) }
    {
        match self.stage {
            Stage::Cuts => {
                self.stage = Stage::Pieces(variable, 4);
                add_variable(&mut self.order, variable)
            }
            Stage::Halves => {
                add_variable(&mut self.halves, variable)?;
                add_variable(&mut self.order, variable)
            }
            _ => Ok(()),
        }
    }

    /// The digits of a cut.
    pub fn cut_into(&mut self, number: u16)
        ensures { self.new ≡ spec.cut_into number self.old }
    {
        match self.stage {
            Stage::Pieces(variable, _) => self.stage = Stage::Pieces(variable, piece_count(number)),
            _ => {}
        }
    }

    /// The `(` of a cut.
    pub fn begin_points(&mut self)
        ensures { self.new ≡ spec.points_begun self.old }
    {
        match self.stage {
            Stage::Pieces(variable, _) => self.stage = Stage::Points(variable),
            _ => {}
        }
    }

    /// The `;` behind a hint, whose last expression this is.
    pub fn end(&mut self, last: ExprId) -> Result<(), AllocError>
        ensures { OnOk result (self.new ≡ spec.hint_ended last self.old) }
    {
        let constraints = replace(&mut self.constraints, Vec::new(self.alloc));
        let points = replace(&mut self.points, Vec::new(self.alloc));
        match self.stage {
            Stage::Right(left) => add_rewriting(&mut self.rewrites, left, last, constraints)?,
            Stage::Sides(left, right) => add_rewriting(
                &mut self.rewrites,
                left,
                right,
                constraints,
            )?,
            Stage::Alike(left) => self.likes.push((left, last))?,
            Stage::Pieces(var, number) => self.cuts.push(Split {
                var,
                cut: Cutting::Pieces(number),
            })?,
            Stage::Points(var) => self.cuts.push(Split {
                var,
                cut: Cutting::Points(Items::from_vec(points)),
            })?,
            _ => {}
        }
        self.stage = Stage::Front;
        self.bounded = Bounded::Point;
        self.negative = false;
        Ok(())
    }
}

// One more constraint.
fn add_constraint(
    constraints: &mut Vec<Constraint>,
    constraint: Constraint,
) -> Result<(), AllocError>
    requires one { HasNormalBound constraint }
    requires others { All HasNormalBound constraints.old.items }
    ensures added { OnOk result
        (constraints.new.items ≡ constraints.old.items ++ (constraint ∷ [])) }
    ensures normal { All HasNormalBound constraints.new.items }
{
    constraints.push(constraint)?;
    Ok(())
}

// One more rewriting.
fn add_rewriting(
    rewrites: &mut Vec<Hint>,
    left: ExprId,
    right: ExprId,
    constraints: Vec<Constraint>,
) -> Result<(), AllocError>
    requires one { All HasNormalBound constraints.items }
    requires others { All HasNormalBounds rewrites.old.items }
    ensures added { OnOk result (rewrites.new.items
        ≡ rewrites.old.items ++ (record {
          left = left;
          right = right;
          constraints = constraints.items;
        } ∷ [])) }
    ensures normal { All HasNormalBounds rewrites.new.items }
{
    rewrites.push(Hint {
        left,
        right,
        constraints: Items::from_vec(constraints),
    })?;
    Ok(())
}
