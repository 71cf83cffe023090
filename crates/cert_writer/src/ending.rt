//! How a box's own items end.
ghost use Rattle.std.specs.Prelude.{◌≡◌, ◌↔◌, ◌∷◌, [], IsTrue, IfOk};
ghost use Rattle.rule_universe.specs.Worlds.{HasSlot};
ghost use Rattle.tree_certificates.specs.Trees.{AllSettled};
ghost use Rattle.box_trace.specs.Tables.{known_at, HasRows};
ghost use Rattle.answer_certificates.specs.Scripts.{HasSlots};
ghost use Rattle.cert_writer.specs.Boxes.{IsSettled, CutsAt, IsEnd, IsClosed};

use crate::spell::refs_of;
use box_trace::Known;
use box_tree::Cut;
use cert_bytes::Item;
use dyadic::{Dyadic, Points};
use facts::Slot;
use fx_edge::Items;
use fx_model::ExprId;
use goals::{Goal, settles};
use rule_universe::Universe;
use std::alloc::{AllocError, Global};

// Whether the goal is settled by what is known.
fn is_settled(uni: &Universe, known: &Known, goal: &Goal) -> bool
    requires { HasSlot uni.now goal.now.of }
    ensures { IsTrue result ↔ IsSettled (known_at uni.now known.now) goal.now }
{
    match known.strongest(uni, goal.of) {
        Some(fact) => settles(goal, &fact),
        None => false,
    }
}

// Whether each goal is.
fn are_settled(uni: &Universe, known: &Known, goals: &[Goal]) -> bool
    requires { HasSlots uni.now goals.now }
    ensures { IsTrue result ↔ AllSettled (known_at uni.now known.now) goals.now }
{
    match goals {
        [] => true,
        [goal, later @ ..] => is_settled(uni, known, goal) && are_settled(uni, known, later),
    }
}

// The one point of a halving.
fn one_point(m: Dyadic) -> Points
    ensures { result ≡ m ∷ [] }
{
    match Points::new().with_last(m) {
        Some(points) => points,
        None => unreachable!(),
    }
}

// At what the box is cut, if it is: a forced cut is made unless VOID is known, and a halving where
// moreover a goal isn't settled.
pub(crate) fn cut_of(uni: &Universe, cut: Cut, known: &Known) -> Option<(ExprId, Points)>
    requires slots { HasSlots uni.now uni.now.goals }
    requires rows { HasRows uni.now known.now }
    ensures { CutsAt (known_at uni.now known.now) uni.now.goals cut result }
{
    if known.is_void(uni) {
        return None;
    }
    match cut {
        Cut::Forced(x, points) => Some((x, points)),
        Cut::Half(x, m) => {
            if are_settled(uni, known, uni.goals()) {
                None
            } else {
                Some((x, one_point(m)))
            }
        }
        Cut::Bottom => None,
    }
}

// The leaf or the dead end of a box that isn't cut. `Err` only where memory runs out.
pub(crate) fn end_of(alloc: Global, uni: &Universe, known: &Known) -> Result<Item, AllocError>
    requires rows { HasRows uni.now known.now }
    requires closed { IsClosed (known_at uni.now known.now) uni.now.goals }
    ensures { IfOk result (IsEnd uni.now known.now) }
{
    if known.is_void(uni) {
        let Some(number) = known.step(uni, Slot::Void) else {
            unreachable!()
        };
        return Ok(Item::Dead(number));
    }
    let refs = refs_of(alloc, uni, known, uni.goals())?;
    Ok(Item::Leaf(Items::from_vec(refs)))
}
