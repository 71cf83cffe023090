ghost use Rattle.std.specs.Prelude.{◌≡◌};
ghost use Rattle.goals.specs.Joined.{with_interval, with_zeros, joined};

use facts::Fact;
use interval::Interval;

/// What is printed of a goal.
#[derive(Clone, Copy, PartialEq, Eq, Debug)]
pub enum Line {
    /// Its value, or its relative error, lies in the interval.
    In(Interval),
    /// Both sides of a relative goal are 0.
    None,
    /// No assignment is left.
    Empty,
}

impl Line {
    // The least interval that holds this line's and one more.
    fn with_interval(self, i: Interval) -> Line
        ensures { result ≡ with_interval self i }
    {
        match self {
            Line::In(j) => Line::In(j.hull(i)),
            _ => Line::In(i),
        }
    }

    // That both sides are 0 adds nothing to an interval.
    fn with_zeros(self) -> Line
        ensures { result ≡ with_zeros self }
    {
        match self {
            Line::Empty => Line::None,
            _ => self,
        }
    }

    /// The line with what one more leaf knows of the goal: `fact`, a bound or a relative error on
    /// the goal's slot. Facts of other kinds change nothing.
    pub fn joined(self, fact: &Fact) -> Line
        ensures { result ≡ joined self fact.now }
    {
        match *fact {
            Fact::Bnd(_, i) => self.with_interval(i),
            Fact::Rel(_, _, Some(e)) => self.with_interval(e.interval()),
            Fact::Rel(_, _, None) => self.with_zeros(),
            _ => self,
        }
    }
}
