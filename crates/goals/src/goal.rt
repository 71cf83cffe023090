ghost use Rattle.std.specs.Prelude.{◌↔◌, IsTrue};
ghost use Rattle.fx_model.specs.Enclosure.{IsFinite};
ghost use Rattle.interval.specs.Intervals.{range_of};
ghost use Rattle.goals.specs.Settles.{IsWanted, HasWanted, Settles};

use dyadic::End;
use facts::{Fact, Slot, slot};
use interval::Interval;

/// What is wanted of an interval.
#[derive(Clone, Copy, PartialEq, Eq, Debug)]
pub enum Want {
    /// Bounds are asked for: two finite ends.
    Ask,
    /// It must lie in these bounds; in none, where they cross.
    Inside(Option<Interval>),
}

/// A slot, of a bound or a relative error, and what is wanted of the fact on it.
#[derive(Clone, Copy, PartialEq, Eq, Debug)]
pub struct Goal {
    /// What the goal is about.
    pub of: Slot,
    /// What is wanted of its interval.
    pub want: Want,
}

// Whether both ends are finite.
fn is_finite(range: Interval) -> bool
    ensures { IsTrue result ↔ IsFinite (range_of range) }
{
    match (range.lo(), range.hi()) {
        (End::At(_), End::At(_)) => true,
        _ => false,
    }
}

// Whether an interval is what is wanted.
fn is_wanted(want: Want, range: Interval) -> bool
    ensures { IsTrue result ↔ IsWanted want range }
{
    match want {
        Want::Ask => is_finite(range),
        Want::Inside(Some(bounds)) => range.inside(bounds),
        Want::Inside(None) => false,
    }
}

/// Whether the fact's interval is what is wanted. That both sides of a relative goal are 0 is
/// enough, whatever is wanted. Facts that are neither bounds nor relative errors never have it.
pub fn has_wanted(want: Want, fact: &Fact) -> bool
    ensures { IsTrue result ↔ HasWanted want fact.now }
{
    match *fact {
        Fact::Bnd(_, interval) => is_wanted(want, interval),
        Fact::Rel(_, _, Some(error)) => is_wanted(want, error.interval()),
        Fact::Rel(_, _, None) => true,
        _ => false,
    }
}

/// Whether the fact settles the goal: it stands on the goal's slot and has what is wanted.
pub fn settles(goal: &Goal, fact: &Fact) -> bool
    ensures { IsTrue result ↔ Settles goal.now fact.now }
{
    slot(fact) == goal.of && has_wanted(goal.want, fact)
}
