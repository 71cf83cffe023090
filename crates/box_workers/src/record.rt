//! What one worker did.
ghost use Rattle.std.specs.Prelude.{◌≡◌, ◌<◌, Some, None, MatchOption, IfNone, true, All, OnOk};
ghost use Rattle.std.specs.Prelude.{vec_len, vec_capacity};
ghost use Rattle.bisect.specs.Trees.{tree_of};
ghost use Rattle.box_deques.specs.Stealing.{CanSteal};
ghost use Rattle.box_workers.specs.Fates.{IsFate};
ghost use Rattle.box_workers.specs.Records.{IsEntered, IsRecord};
ghost use Rattle.box_workers.specs.Taking.{RoseAt};

use crate::fate::{Fate, Held, HeldWhy, finish_box};
use crate::site::Site;
use crate::take::next_box;
use crate::task::BoxTask;
use bisect::{Leaf, Posted, Settler};
use box_deques::{Hand, Lane, Naming, Thief};
use fact_board::Board;
use fx_edge::{Gate, Path};
use std::alloc::{AllocError, Global};
use std::sync::Wait;

// So many turns in a row in which a worker finds no box end its work.
const IDLE_TURNS: u64 = 1 << 32;

/// What became of the boxes that a worker took in one call.
#[derive(Drop)]
pub struct Record<E: Posted> {
    pub settled: Vec<Leaf>,
    pub split: Vec<Path>,
    pub held: Option<Held<E>>,
}

impl<E: Posted> Record<E> {
    // Room for one more box in both lists.
    fn make_room(&mut self) -> Result<(), AllocError>
        ensures settled { self.new.settled.items ≡ self.old.settled.items }
        ensures split { self.new.split.items ≡ self.old.split.items }
        ensures held { self.new.held ≡ self.old.held }
        ensures room { OnOk result ((vec_len self.new.settled < vec_capacity self.new.settled)
            × (vec_len self.new.split < vec_capacity self.new.split)) }
    {
        self.settled.reserve(1)?;
        self.split.reserve(1)?;
        Ok(())
    }
}

// Does the box of the task, and enters what became of it.
fn enter<S: Settler, G: Gate, Q: Naming<Board<S::Entry>>, R: Wait>(
    rt: &R,
    site: &Site<'_, S, G>,
    lane: &mut Lane<BoxTask<S::Entry>, Q>,
    task: BoxTask<S::Entry>,
    area: &mut S::Area,
    done: &mut Record<S::Entry>,
)
    requires world { Q.world ≡ Some site.now }
    requires task { MatchOption task.parent (Unit {0}) (λ s. s.board ≡ site.now) }
    requires held { done.old.held ≡ None }
    ensures { (fate : _)
        × IsFate (tree_of S.Entry.cut_at S.Entry.state_at) S.Entry.path_of Q.capacity site.now
        lane.old lane.new task fate
        × IsEntered done.old.settled.items done.old.split.items fate done.new.settled.items
        done.new.split.items done.new.held }
{
    let fate = match done.make_room() {
        Ok(()) => finish_box(rt, site, lane, task, area),
        Err(_) => Fate::Held(Held {
            task,
            own: None,
            pushed: 0,
            why: HeldWhy::Memory,
        }),
    };
    site.count_done();
    match fate {
        Fate::Settled(leaf) => done.settled.push_reserved(leaf),
        Fate::Split(path) => done.split.push_reserved(path),
        Fate::Held(held) => done.held = Some(held),
    }
}

/// The whole loop of one worker. The record tells what became of every box that this call took. It
/// ends with a held box, or after a turn in which it found no box: then the lane is dry, and each
/// steal of another lane found nothing. The hand is the lane's worker's, and the thieves are those
/// of the other lanes. It may wait.
pub fn work<S: Settler, G: Gate, Q: Naming<Board<S::Entry>>, R: Wait>(
    rt: &R,
    site: &Site<'_, S, G>,
    lane: &mut Lane<BoxTask<S::Entry>, Q>,
    thieves: &[Thief<BoxTask<S::Entry>, Q>],
    hand: &mut Hand<BoxTask<S::Entry>>,
) -> Record<S::Entry>
    requires world { Q.world ≡ Some site.now }
    requires passes { CanSteal Q.capacity hand.old thieves.now }
    ensures did { IsRecord (tree_of S.Entry.cut_at S.Entry.state_at)
        S.Entry.path_of Q.capacity site.now
        lane.old lane.new hand.old hand.new result.settled.items result.split.items result.held }
    ensures idle { IfNone result.held ((lane.new.dry ≡ true)
        × All (RoseAt hand.old hand.new) thieves.now) }
{
    let mut done = site.no_record();
    let mut area = site.area();
    let mut idle: u64 = 0;
    for _ in rt.forever() {
        let Some(task) = next_box(rt, lane, thieves, hand) else {
            idle += 1;
            if site.is_over() || idle == IDLE_TURNS {
                return done;
            }
            site.rest(rt, idle);
            continue;
        };
        idle = 0;
        enter(rt, site, lane, task, &mut area, &mut done);
        if done.held.is_some() {
            return done;
        }
    }
    unreachable!()
}
