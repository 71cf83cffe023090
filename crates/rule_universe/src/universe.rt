//! A universe, whose lists nothing changes.

ghost use Rattle.std.specs.Prelude.{◌≡◌, ◌<◌, ◌≤◌, [], Some, length, slice_get, IfOk};
ghost use Rattle.fx_model.specs.Expression.{IsOrdered};
ghost use Rattle.facts.specs.declared.fact.Slot.{Slot};
ghost use Rattle.facts.specs.declared.instance.Instance.{Instance};
ghost use Rattle.rule_universe.specs.Worlds.{World, IsWhole, HasSlot};
ghost use Rattle.rule_universe.specs.Places.{IsPlace};
ghost use Rattle.rule_universe.specs.Placed.{ArePlaced, AreTargets};
ghost use Rattle.rule_universe.specs.Users.{AreUsers};
ghost use Rattle.rule_universe.specs.Assumed.{assuming, HaveSlots};
ghost use Rattle.rule_universe.specs.Ordered.{AreNumbersOf};

use crate::flat_rows::{FlatRows, flat_rows};
use crate::order::in_order;
use crate::placed::{Placed, known_place, placed_premises, target_places};
use crate::places::place_of;
use crate::users::user_rows;
use expr_dag::Dag;
use facts::{Fact, HintRow, Instance, Slot};
use fx_model::ExprId;
use goals::Goal;
use pair_closure::PairIndex;
use std::alloc::{AllocError, Global};
use std::marker::Model;

/// The expressions, pairs, goals, hypotheses, rows of hints and instances that derivations may use.
#[derive(Drop)]
pub struct Universe {
    nodes: Dag,
    index: PairIndex,
    // The pairs once more, as a list.
    pairs: Vec<(ExprId, ExprId)>,
    goals: Vec<Goal>,
    hypotheses: Vec<Fact>,
    hints: Vec<HintRow>,
    instances: Vec<Instance>,
    // By instance, the place of its target.
    targets: Vec<u16>,
    // By instance, its premises with their places.
    premises: FlatRows<Placed>,
    // By place of a slot, the numbers of the instances that take it.
    users: FlatRows<u32>,
    // Numbers of instances, those of small expressions first; none until it is asked for.
    order: Vec<u32>,
}

impl Model for Universe {
    ghost use Rattle.std.specs.Prelude.{◌≡◌, ◌≤◌, length};
    ghost use Rattle.std.specs.Coded.{codes};
    ghost use Rattle.facts.specs.contracts.fact.Fact as fact_row;
    ghost use Rattle.facts.specs.contracts.hint.HintRow as hint_row;
    ghost use Rattle.goals.specs.contracts.goal.Goal as goal_row;
    ghost use Rattle.facts.specs.contracts.instance.Instance as instance_row;
    ghost use Rattle.rule_universe.specs.Worlds.{World, IsWhole};
    ghost use Rattle.rule_universe.specs.Placed.{ArePremises, AreTargets};
    ghost use Rattle.rule_universe.specs.Rows.{AreRows};
    ghost use Rattle.rule_universe.specs.Ordered.{AreNumbersOf};

    ghost Value = { World };

    ghost coded = { Prim.hlevel (
      codes,
      fact_row.the_row.coded,
      hint_row.the_row.coded,
      goal_row.the_row.coded,
      instance_row.the_row.coded,
    ) };

    ghost view = { λ u. record {
      nodes = u.nodes;
      pairs = u.index;
      goals = u.goals.items;
      hypotheses = u.hypotheses.items;
      hints = u.hints.items;
      instances = u.instances.items;
    } };

    ghost invariant = { λ u. IsWhole (record {
      nodes = u.nodes;
      pairs = u.index;
      goals = u.goals.items;
      hypotheses = u.hypotheses.items;
      hints = u.hints.items;
      instances = u.instances.items;
    }) × (u.pairs.items ≡ u.index)
        × AreRows (length u.nodes) u.index u.instances.items (length u.instances.items) u.users
        × (length u.goals.items ≤ 65535)
        × AreTargets (length u.nodes) u.index u.instances.items u.targets.items
        × ArePremises (length u.nodes) u.index u.instances.items u.premises
        × AreNumbersOf u.instances.items u.order.items };
}

impl Universe {
    /// The universe of these lists, in which nothing is assumed yet. A goal has a number of 16
    /// bits.
    pub fn new(
        alloc: Global,
        nodes: Dag,
        pairs: PairIndex,
        goals: Vec<Goal>,
        hints: Vec<HintRow>,
        instances: Vec<Instance>,
    ) -> Result<Universe, AllocError>
        requires whole { IsWhole (record {
          nodes = nodes;
          pairs = pairs;
          goals = goals.items;
          hypotheses = [];
          hints = hints.items;
          instances = instances.items;
        }) }
        requires few { length goals.items ≤ 65535 }
        ensures { IfOk result (λ u. u ≡ record {
          nodes = nodes;
          pairs = pairs;
          goals = goals.items;
          hypotheses = [];
          hints = hints.items;
          instances = instances.items;
        }) }
    {
        let rows = user_rows(alloc, &nodes, &pairs, &instances)?;
        let users = flat_rows(alloc, &rows)?;
        let targets = target_places(alloc, &nodes, &pairs, &instances)?;
        let premises = placed_premises(alloc, &nodes, &pairs, &instances)?;
        let list = pairs.to_vec(alloc)?;
        let hypotheses = Vec::new(alloc);
        let order = Vec::new(alloc);
        Ok(Universe {
            nodes,
            index: pairs,
            pairs: list,
            goals,
            hypotheses,
            hints,
            instances,
            targets,
            premises,
            users,
            order,
        })
    }

    /// Has these facts as hypotheses from now on, in place of those before. All else stays, the
    /// index too: it is of instances alone.
    pub fn assume(&mut self, facts: Vec<Fact>)
        requires { HaveSlots self.old facts.items }
        ensures { self.new ≡ assuming self.old facts.items }
    {
        self.hypotheses = facts;
    }

    /// Puts the numbers of the instances in order, for boxes below the root. All else stays, also
    /// where memory runs out.
    pub fn put_in_order(&mut self, alloc: Global) -> Result<(), AllocError>
        ensures { self.new ≡ self.old }
    {
        let order = in_order(alloc, &self.nodes, &self.instances)?;
        self.order = order;
        Ok(())
    }

    /// The nodes of the expressions.
    pub fn dag(&self) -> &Dag
        ensures { result.now ≡ self.now.nodes }
    {
        &self.nodes
    }

    /// The pairs that relative errors are of.
    pub fn pairs(&self) -> &[(ExprId, ExprId)]
        ensures { result.now ≡ self.now.pairs }
    {
        &self.pairs
    }

    /// The goals.
    pub fn goals(&self) -> &[Goal]
        ensures { result.now ≡ self.now.goals }
    {
        &self.goals
    }

    /// The hypotheses as facts.
    pub fn hyps(&self) -> &[Fact]
        ensures { result.now ≡ self.now.hypotheses }
    {
        &self.hypotheses
    }

    /// The rows of the hints.
    pub fn hints(&self) -> &[HintRow]
        ensures { result.now ≡ self.now.hints }
    {
        &self.hints
    }

    /// The instances of rules.
    pub fn instances(&self) -> &[Instance]
        ensures { result.now ≡ self.now.instances }
    {
        &self.instances
    }

    /// The place of a slot of the universe: bounds, sizes, multiples, expressions that aren't 0,
    /// pairs, and VOID last.
    pub fn place(&self, s: Slot) -> u16
        requires { HasSlot self.now s }
        ensures { IsPlace (length self.now.nodes) self.now.pairs s result }
    {
        known_place(&self.nodes, &self.index, s)
    }

    /// By instance, the place of its target.
    pub fn targets(&self) -> &[u16]
        ensures { AreTargets (length self.now.nodes) self.now.pairs self.now.instances result.now }
    {
        &self.targets
    }

    /// The premises of the instance with this number, from 0, with their places.
    pub fn premises(&self, k: usize) -> &[Placed]
        requires { k < length self.now.instances }
        ensures { (i : Instance) → slice_get self.now.instances k ≡ Some i
            → ArePlaced (length self.now.nodes) self.now.pairs i.premises result.now }
    {
        self.premises.row(k)
    }

    /// Numbers of instances, from 0: those of small expressions first. There are none before
    /// `put_in_order`. That each instance is among them, and once, no clause says.
    pub fn order(&self) -> &[u32]
        ensures { AreNumbersOf self.now.instances result.now }
    {
        &self.order
    }

    /// The rising numbers, from 0, of the instances that have the slot with this place among their
    /// premises.
    pub fn users_at(&self, place: u16) -> &[u32]
        ensures { (s : Slot) → IsPlace (length self.now.nodes) self.now.pairs s place
            → AreUsers self.now.instances s result.now }
    {
        if (place as usize) < self.users.len() {
            self.users.row(place as usize)
        } else {
            &[]
        }
    }

    /// The rising numbers, from 0, of the instances that have the slot among their premises.
    pub fn users(&self, s: Slot) -> &[u32]
        ensures { AreUsers self.now.instances s result.now }
    {
        match place_of(&self.nodes, &self.index, s) {
            Some(p) => self.users.row(p),
            None => &[],
        }
    }

    /// What every universe keeps. Nothing is done.
    pub fn laws(&self)
        ensures universe { IsWhole self.now }
        ensures ordered { IsOrdered self.now.nodes }
        ensures short { length self.now.nodes ≤ 1024 }
        ensures goals { length self.now.goals ≤ 65535 }
    {
        self.nodes.laws();
    }
}
