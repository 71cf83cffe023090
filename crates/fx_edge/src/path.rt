// Where a box lies: the numbers of its pieces from the root.
ghost use Rattle.std.specs.Prelude.{◌≡◌, ◌<◌, ◌-◌, [], ◌∷◌, ◌++◌, length, slice_index, Some};
ghost use Rattle.std.specs.Prelude.{MatchOption};
ghost use Rattle.std.proofs.Common.{rules};
ghost use Rattle.std.specs.Cmp.{partial_order_from_own_ties};
ghost use Rattle.std.specs.Cmp.Lexicographic.{slice_cmp};
ghost use Rattle.std.specs.Cmp.Rules.{comparing};
ghost use Rattle.std.specs.Ordering.{nat_cmp, as_partial_cmp};
ghost use Rattle.std.specs.Str.{bytes_eq};

use std::cmp::Ordering;
use std::marker::Model;

/// The piece numbers from the root, at most 36, each below 64. In contracts it is their list.
#[derive(Clone, Copy, Debug)]
pub struct Path {
    numbers: [u8; 36],
    len: u8,
}

impl Model for Path {
    ghost use Rattle.std.specs.Prelude.{List, ℕ};

    ghost Value = { List ℕ };

    ghost use Rattle.fx_edge.specs.Paths.{numbers_of, IsPadded, fields_of, fields_of_numbers};

    ghost view = { numbers_of };

    ghost invariant = { IsPadded };

    ghost inverse = { fields_of };

    ghost inverse_ok = { fields_of_numbers };
}

impl Path {
    /// The path of the whole box, which has no number.
    pub fn root() -> Path
        ensures { result ≡ [] }
    {
        Path {
            numbers: [0; 36],
            len: 0,
        }
    }

    /// How many numbers it has: 0 to 36.
    pub fn len(self) -> u8
        ensures { result ≡ length self }
    {
        self.len
    }

    /// The piece numbers, from the root.
    pub fn numbers(&self) -> &[u8]
        ensures { result.now ≡ self.now }
    {
        &self.numbers[..self.len as usize]
    }

    /// The number at this place, from 0. The caller sees that it is there.
    pub fn number(self, i: u8) -> u8
        requires { i < length self }
        ensures { result ≡ slice_index self i }
    {
        self.numbers[i as usize]
    }

    /// The path of a piece of this box. The caller sees to it that there is room and that the
    /// number is below 64.
    pub fn child(self, piece: u8) -> Path
        requires room { length self < 36 }
        requires piece { piece < 64 }
        ensures { result ≡ self ++ piece ∷ [] }
    {
        let mut numbers = self.numbers;
        numbers[self.len as usize] = piece;
        Path {
            numbers,
            len: self.len + 1,
        }
    }

    /// The path without its last number. `None` exactly at the root.
    pub fn parent(self) -> Option<Path>
        ensures { MatchOption result (self ≡ [])
            (λ p. (self ≡ p ++ slice_index self (length p) ∷ [])) }
    {
        if self.len == 0 {
            return None;
        }
        let mut numbers = self.numbers;
        numbers[self.len as usize - 1] = 0;
        Some(Path {
            numbers,
            len: self.len - 1,
        })
    }
}

impl PartialEq for Path {
    ghost eq = { bytes_eq };

    ghost laws = { Prim.search (comparing, rules) };

    fn eq(&self, other: &Path) -> bool {
        self.numbers() == other.numbers()
    }
}

impl Eq for Path {
    ghost laws = { Prim.search (comparing, rules) };
}

impl Ord for Path {
    ghost cmp = { slice_cmp nat_cmp };

    ghost total = { Prim.search (comparing, rules) };

    ghost matches_partial_cmp = { Prim.search (comparing, rules) };

    ghost matches_eq = { Prim.search (comparing, rules) };

    fn cmp(&self, other: &Path) -> Ordering {
        self.numbers().cmp(other.numbers())
    }
}

impl PartialOrd for Path {
    ghost partial_cmp = { as_partial_cmp (slice_cmp nat_cmp) };

    ghost laws = { partial_order_from_own_ties (Prim.search (comparing, rules))
        (Prim.search (comparing, rules)) };

    fn partial_cmp(&self, other: &Path) -> Option<Ordering> {
        Some(self.cmp(other))
    }
}
