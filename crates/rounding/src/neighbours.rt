// The whole numbers next to a number m / 2^places, and which of them a direction takes.
ghost use lib.IntN.{neg_ℤ};
ghost use Rattle.std.specs.Prelude.{◌≡◌, ◌<◌, ◌≤◌, pos, if◌then◌else◌};
ghost use Rattle.std.specs.Int.RustNames.{unsigned_abs};
ghost use Rattle.fx_model.specs.Powers.{scaled};
ghost use Rattle.fx_model.specs.Rounded as table;
ghost use Rattle.fx_model.specs.Rounded.{floor, near_high};
ghost use Rattle.rounding.specs.Chosen.{AreNeighbours, chosen};

use fx_model::Direction;

/// The whole numbers that roundings of a number may take, whatever their direction.
#[derive(Clone, Copy)]
pub struct Neighbours {
    pub floor: i64,
    pub ceiling: i64,
    pub near_low: i64,
    pub near_high: i64,
}

// The greatest whole number at or below m / 2^places.
fn floor_of(m: i64, places: u32) -> i64
    requires { unsigned_abs m < 1152921504606846976 }
    ensures small { unsigned_abs result ≤ unsigned_abs m }
    ensures value { result ≡ floor (scaled m (neg_ℤ (pos places))) }
{
    m >> places.min(63)
}

// The nearest whole number to m / 2^places, the upper one at a tie.
fn near_high_of(m: i64, places: u32) -> i64
    requires size { unsigned_abs m < 1152921504606846976 }
    requires places { 0 < places }
    ensures small { unsigned_abs result < 1152921504606846976 }
    ensures value { result ≡ near_high (scaled m (neg_ℤ (pos places))) }
{
    (floor_of(m, places - 1) + 1) >> 1
}

impl Neighbours {
    /// The neighbours of `m / 2^places`, for `m` below 2^60 in size and `places` above 0.
    pub fn of(m: i64, places: u32) -> Neighbours
        requires size { unsigned_abs m < 1152921504606846976 }
        requires places { 0 < places }
        ensures { AreNeighbours result (scaled m (neg_ℤ (pos places))) }
    {
        Neighbours {
            floor: floor_of(m, places),
            ceiling: -floor_of(-m, places),
            near_low: -near_high_of(-m, places),
            near_high: near_high_of(m, places),
        }
    }

    /// The neighbour that a rounding in this direction takes, also at a tie.
    pub fn chosen(self, dir: Direction) -> i64
        ensures { result ≡ chosen dir self }
    {
        let is_from_zero = self.floor >= 0;
        match dir {
            Direction::Dn => self.floor,
            Direction::Up => self.ceiling,
            Direction::Zr => pick(is_from_zero, self.floor, self.ceiling),
            Direction::Aw => pick(is_from_zero, self.ceiling, self.floor),
            Direction::Od => pick(is_even(self.floor), self.ceiling, self.floor),
            Direction::Nd => self.near_low,
            Direction::Nu => self.near_high,
            Direction::Ne => pick(is_even(self.near_low), self.near_low, self.near_high),
            Direction::No => pick(is_even(self.near_low), self.near_high, self.near_low),
            Direction::Nz => pick(is_from_zero, self.near_low, self.near_high),
            Direction::Na => pick(is_from_zero, self.near_high, self.near_low),
        }
    }
}

// One of two by a test.
fn pick(test: bool, yes: i64, no: i64) -> i64
    ensures { result ≡ (if test then yes else no) }
{
    if test { yes } else { no }
}

fn is_even(number: i64) -> bool
    ensures { result ≡ table.is_even number }
{
    number & 1 == 0
}
