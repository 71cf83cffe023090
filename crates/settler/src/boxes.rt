//! The settler of boxes.
ghost use Rattle.std.specs.Prelude.{◌≡◌, ◌<◌, ◌++◌, ℕ, List, [], length, IfOk, OnOk, Some};
ghost use Rattle.std.specs.Prelude.{MatchOption};
ghost use Rattle.derivation.specs.Known.{IsTableAt};
ghost use Rattle.derivation.specs.Settled.{IsState};
ghost use Rattle.saturate.specs.Tables.{fact_at};
ghost use Rattle.saturate.specs.Universes.{setting_of, HasAllPlaces};
ghost use Rattle.saturate.specs.Closed.{IsMarked, IsMarkedParent};
ghost use Rattle.saturate.specs.Boxes.{IsBox, IsOfUniverse, table_of, state_of};
ghost use Rattle.box_tree.specs.Paths.{IsChild, IsPathOf};
ghost use Rattle.box_tree.specs.Pieces.{piece_count};
ghost use Rattle.box_tree.specs.Plans.{cut_at, piece_at, pieces_at};
ghost use Rattle.settler.specs.Decided.{goal_facts, state_with, state_at};
ghost use Rattle.settler.specs.Frames.{Fits};

use crate::entry::Entry;
use crate::frame::Frame;
use bisect::{Settler, State, Verdict};
use box_tree::{Cut, Plan};
use derivation::{best_tables_exist, boxes_come_to_one_state};
use facts::Fact;
use fx_edge::{Items, Path};
use fx_model::ExprId;
use goals::{Goal, settling_facts};
use interval::Interval;
use rule_universe::Universe;
use saturate::{Area, Settled, Table, rules_are_lawful, settle};
use std::alloc::{AllocError, Global};
use std::marker::{Model, PhantomData};

/// Settles boxes: those of a plan, by so many rounds over a universe. Contracts see the rounds.
#[derive(Drop)]
pub struct Boxes<'a, F: Frame> {
    universe: &'a Universe,
    plan: &'a Plan,
    rounds: u8,
    of: PhantomData<F>,
}

impl<'a, F: Frame> Model for Boxes<'a, F> {
    ghost use Rattle.std.specs.Prelude.{◌≡◌, ℕ};
    ghost use Rattle.settler.specs.Frames.{Fits};

    ghost Value = { ℕ };

    ghost view = { λ b. b.rounds };

    ghost invariant = { λ b. (b.universe.now ≡ F.universe) × (b.plan.now ≡ F.plan)
        × (b.rounds ≡ F.rounds) × Fits F.universe F.plan };
}

// Adds the table's facts on the slots of the goals.
fn add_goal_facts(facts: &mut Vec<Fact>, table: &Table, goals: &[Goal]) -> Result<(), AllocError>
    ensures { OnOk result (facts.new.items
        ≡ facts.old.items ++ goal_facts (fact_at table.now) goals.now) }
{
    match goals {
        [] => Ok(()),
        [goal, later @ ..] => {
            if let Some(fact) = table.strongest(goal.of) {
                facts.push(fact)?;
            }
            add_goal_facts(facts, table, later)
        }
    }
}

// The table's facts on the slots of the goals.
fn goal_facts(alloc: Global, table: &Table, goals: &[Goal]) -> Result<Items<Fact>, AllocError>
    ensures { IfOk result (λ facts. facts ≡ goal_facts (fact_at table.now) goals.now) }
{
    let mut facts = Vec::new(alloc);
    add_goal_facts(&mut facts, table, goals)?;
    Ok(Items::from_vec(facts))
}

// How a box stands that comes to this.
fn standing(alloc: Global, settled: &Settled, goals: &[Goal]) -> Result<State, AllocError>
    ensures { IfOk result (λ s. s ≡ state_with (state_of settled.now)
        (goal_facts (fact_at (table_of settled.now)) goals.now)) }
{
    match settled {
        Settled::Done(table) => Ok(State::Settled(goal_facts(alloc, table, goals)?)),
        Settled::Void(_) => Ok(State::Void),
        Settled::Open(_, goal) => Ok(State::Open(*goal)),
    }
}

// The table of what a box comes to.
fn into_table(settled: Settled) -> Table
    ensures { result ≡ table_of settled }
{
    match settled {
        Settled::Done(table) => table,
        Settled::Void(table) => table,
        Settled::Open(table, _) => table,
    }
}

impl<'a, F: Frame> Boxes<'a, F> {
    /// The settler of a frame's boxes.
    pub fn new(universe: &'a Universe, plan: &'a Plan, rounds: u8) -> Boxes<'a, F>
        requires universe { universe.now ≡ F.universe }
        requires plan { plan.now ≡ F.plan }
        requires rounds { rounds ≡ F.rounds }
        requires fits { Fits F.universe F.plan }
    {
        Boxes {
            universe,
            plan,
            rounds,
            of: PhantomData,
        }
    }

    // What the last cut left, of a box below the root.
    fn piece(&self, path: &Path, last: Option<(ExprId, Interval)>) -> (ExprId, Interval)
        requires last { last ≡ piece_at F.plan path.now }
        requires path { IsPathOf (λ p. piece_count (cut_at F.plan p)) path.now }
        requires below { (p : List ℕ) × IsChild p path.now }
        ensures piece { piece_at F.plan path.now ≡ Some result }
        ensures variable { (result.0).0 < length F.universe.nodes }
    {
        let _rounds = self.rounds;
        let _depth = path.len();
        let Some(piece) = last else { unreachable!() };
        piece
    }

    // What the box at the path begins from: its piece and its parent's table; nothing at the root.
    fn given<'b>(
        &self,
        path: &Path,
        last: Option<(ExprId, Interval)>,
        parent: Option<&'b Entry<F>>,
    ) -> (Option<(ExprId, Interval)>, Option<&'b Table>)
        requires last { last ≡ piece_at F.plan path.now }
        requires path { IsPathOf (λ p. piece_count (cut_at F.plan p)) path.now }
        requires parent { MatchOption parent (path.now ≡ []) (λ e. IsChild e.now path.now) }
        ensures is { IsBox F.universe F.rounds result.0 result.1 (pieces_at F.plan path.now) }
        ensures of { IsOfUniverse F.universe result.0 result.1 }
        ensures marked { IsMarkedParent (setting_of F.universe) result.1 }
    {
        self.plan.covers();
        match parent {
            Some(entry) => (Some(self.piece(path, last)), Some(entry.table())),
            None => (None, None),
        }
    }

    // What the box at the path comes to.
    fn settled(
        &self,
        path: &Path,
        last: Option<(ExprId, Interval)>,
        parent: Option<&Entry<F>>,
        area: &mut Area,
    ) -> Result<Settled, AllocError>
        requires last { last ≡ piece_at F.plan path.now }
        requires path { IsPathOf (λ p. piece_count (cut_at F.plan p)) path.now }
        requires parent { MatchOption parent (path.now ≡ []) (λ e. IsChild e.now path.now) }
        ensures table { IfOk result (λ r. IsTableAt (setting_of F.universe) F.rounds
            (pieces_at F.plan path.now) (fact_at (table_of r))) }
        ensures state { IfOk result (λ r. IsState (setting_of F.universe) F.universe.goals F.rounds
            (pieces_at F.plan path.now) (state_of r)) }
        ensures places { IfOk result (λ r. HasAllPlaces F.universe (table_of r)) }
        ensures marked { IfOk result (λ r. IsMarked (setting_of F.universe) (table_of r)) }
    {
        let (piece, table) = self.given(path, last, parent);
        settle(self.universe, piece, table, self.rounds, area)
    }

    // The verdict on the box at the path, which comes to this.
    fn verdict(
        &self,
        alloc: Global,
        path: Path,
        cut: Cut,
        settled: Settled,
    ) -> Result<Verdict<Entry<F>>, AllocError>
        requires cut { cut ≡ cut_at F.plan path }
        requires table { IsTableAt (setting_of F.universe) F.rounds (pieces_at F.plan path)
            (fact_at (table_of settled)) }
        requires state { IsState (setting_of F.universe) F.universe.goals F.rounds
            (pieces_at F.plan path) (state_of settled) }
        requires places { HasAllPlaces F.universe (table_of settled) }
        requires marked { IsMarked (setting_of F.universe) (table_of settled) }
        ensures entry { IfOk result (λ v. v.entry ≡ path) }
        ensures state { IfOk result (λ v. v.state ≡ state_at F.universe F.plan F.rounds path) }
        ensures cut { IfOk result (λ v. v.cut ≡ cut_at F.plan path) }
    {
        self.universe.laws();
        rules_are_lawful();
        best_tables_exist();
        boxes_come_to_one_state();
        settling_facts();
        let state = standing(alloc, &settled, self.universe.goals())?;
        Ok(Verdict {
            entry: Entry::new(path, into_table(settled)),
            state,
            cut,
        })
    }
}

impl<'a, F: Frame + Send + Sync> Settler for Boxes<'a, F> {
    type Entry = Entry<F>;

    type Area = Area;

    fn area(&self, alloc: Global) -> Area {
        Area::new(alloc)
    }

    fn settle(
        &self,
        alloc: Global,
        path: &Path,
        parent: Option<&Entry<F>>,
        area: &mut Area,
    ) -> Result<Verdict<Entry<F>>, AllocError> {
        let (last, cut) = self.plan.at(path);
        let settled = self.settled(path, last, parent, area)?;
        self.verdict(alloc, *path, cut, settled)
    }
}
