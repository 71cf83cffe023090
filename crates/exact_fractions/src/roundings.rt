//! Roundings to the multiples of powers of two.

ghost use Rattle.std.specs.Prelude.{◌≡◌, ◌+◌, ◌<◌, ◌^◌, true, if◌then◌else◌};
ghost use Rattle.std.specs.Int.RustNames.{unsigned_abs};
ghost use Rattle.fx_model.specs.Rounded as table;
ghost use Rattle.fx_model.specs.Rounded.{rounded};
ghost use Rattle.rounding.specs.Chosen.{AreNeighbours, chosen};
ghost use Rattle.exact_fractions.specs.Exact.{value_of, Gives};
ghost use Rattle.exact_fractions.specs.Beside.{AreBeside, AreSmall, as_neighbours};
ghost use Rattle.exact_fractions.specs.Wide.{rounding_numbers};

use crate::exact::{Exact, is_negative, signed};
use fx_model::{Direction, Rounding};

/// The whole numbers that roundings of a fraction from 0 on may take, all one where it is whole.
#[derive(Clone, Copy)]
pub struct Sizes {
    pub floor: u128,
    pub ceiling: u128,
    pub near_low: u128,
    pub near_high: u128,
}

/// The whole numbers that roundings of any fraction may take, all one where it is whole.
#[derive(Clone, Copy)]
pub struct Wholes {
    pub floor: i128,
    pub ceiling: i128,
    pub near_low: i128,
    pub near_high: i128,
}

// floor + 1, where it is to be that.
fn next_if(floor: u128, up: bool) -> u128
    requires { floor < 2 ^ 127 }
    ensures { result ≡ (if up then floor + 1 else floor) }
{
    if up { floor + 1 } else { floor }
}

// Those of size / den.
fn sizes_beside(size: u128, den: u128) -> Sizes
    requires size { size < 2 ^ 127 }
    requires positive { 0 < den }
    requires den { den < 2 ^ 127 }
    ensures { AreBeside size den result }
{
    let floor = size / den;
    let past = size % den;
    let rest = den - past;
    Sizes {
        floor,
        ceiling: next_if(floor, past > 0),
        near_low: next_if(floor, past > rest),
        near_high: next_if(floor, past >= rest),
    }
}

// Those of x.
fn wholes_beside(x: Exact) -> Wholes
    ensures value { AreNeighbours (as_neighbours result) (value_of x) }
    ensures small { AreSmall result }
{
    let s = sizes_beside(x.num().unsigned_abs(), x.den());
    if is_negative(x.num()) {
        Wholes {
            floor: signed(true, s.ceiling),
            ceiling: signed(true, s.floor),
            near_low: signed(true, s.near_high),
            near_high: signed(true, s.near_low),
        }
    } else {
        Wholes {
            floor: signed(false, s.floor),
            ceiling: signed(false, s.ceiling),
            near_low: signed(false, s.near_low),
            near_high: signed(false, s.near_high),
        }
    }
}

// One of two by a test.
fn pick(test: bool, yes: i128, no: i128) -> i128
    ensures { result ≡ (if test then yes else no) }
{
    if test { yes } else { no }
}

fn is_even(number: i128) -> bool
    ensures { result ≡ table.is_even number }
{
    number.unsigned_abs() % 2 == 0
}

impl Wholes {
    // The one that a direction takes.
    fn chosen(self, dir: Direction) -> i128
        ensures { result ≡ chosen dir (as_neighbours self) }
    {
        let is_from_zero = self.floor >= 0;
        match dir {
            Direction::Dn => self.floor,
            Direction::Up => self.ceiling,
            Direction::Zr => pick(is_from_zero, self.floor, self.ceiling),
            Direction::Aw => pick(is_from_zero, self.ceiling, self.floor),
            Direction::Od => pick(is_even(self.floor), self.ceiling, self.floor),
            Direction::Nd => self.near_low,
            Direction::Nu => self.near_high,
            Direction::Ne => pick(is_even(self.near_low), self.near_low, self.near_high),
            Direction::No => pick(is_even(self.near_low), self.near_high, self.near_low),
            Direction::Nz => pick(is_from_zero, self.near_low, self.near_high),
            Direction::Na => pick(is_from_zero, self.near_high, self.near_low),
        }
    }
}

// The whole number that a direction gives.
fn whole_for(x: Exact, dir: Direction) -> i128
    ensures value { result ≡ table.whole_for dir (value_of x) }
    ensures small { unsigned_abs result < 2 ^ 127 }
{
    wholes_beside(x).chosen(dir)
}

impl Exact {
    /// The number rounded to a multiple of a power of two; `None` exactly where a number of the
    /// rounding isn't below 2^127.
    pub fn rounded(self, r: Rounding) -> Option<Exact>
        ensures { Gives (rounding_numbers r.dir r.lsb (value_of self))
            (rounded r.dir r.lsb (value_of self)) result }
    {
        let lsb = i32::from(r.lsb);
        match self.scaled(-lsb) {
            Some(x) => Exact::whole(whole_for(x, r.dir)).scaled(lsb),
            None => None,
        }
    }
}
