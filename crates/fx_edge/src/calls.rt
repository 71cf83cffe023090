// The calls of one object, numbered from 1 over all its methods.
ghost use Rattle.std.specs.Prelude.{◌≡◌, ◌≤◌, ◌↔◌, IsTrue};
ghost use Rattle.fx_edge.specs.Calls.{no_calls, next_call, FailsNext};

use std::marker::Model;

/// The numbers of the calls that fail, how many calls there were, and how many bytes one moves at
/// most.
#[derive(Drop)]
pub struct Calls {
    failing: Vec<u64>,
    count: u64,
    most: usize,
}

impl Model for Calls {
    ghost use Rattle.std.specs.Prelude.{◌≤◌};
    ghost use Rattle.fx_edge.specs.Calls.{Numbered};

    ghost Value = { Numbered };

    ghost view = { λ c. record { failing = c.failing.items; calls = c.count; most = c.most } };

    ghost invariant = { λ c. 1 ≤ c.most };
}

impl Calls {
    /// No call yet. Those with a number of `failing` fail, and one moves at most `most` bytes.
    pub fn new(failing: Vec<u64>, most: usize) -> Calls
        requires { 1 ≤ most }
        ensures { result ≡ no_calls failing.items most }
    {
        Calls {
            failing,
            count: 0,
            most,
        }
    }

    /// Counts a call, and says whether it fails by its number.
    pub fn next_fails(&mut self) -> bool
        ensures fails { IsTrue result ↔ FailsNext self.old }
        ensures counts { self.new ≡ next_call self.old }
    {
        self.count = self.count.saturating_add(1);
        self.failing.contains(&self.count)
    }

    /// How many bytes a call moves at most.
    pub fn most(&self) -> usize
        ensures most { result ≡ self.now.most }
        ensures some { 1 ≤ result }
    {
        self.most
    }
}
