// A short list of rising numbers.
ghost use Rattle.std.specs.Prelude.{◌≡◌, ◌↔◌, ◌<◌, ◌≤◌, [], ◌∷◌, ◌++◌, length, IsTrue, IsSome};
ghost use Rattle.std.specs.Prelude.{IfSome};
ghost use Rattle.dyadic.specs.Rising.{point_of, IsRising, IsAboveLast};

use crate::number::Dyadic;
use std::marker::Model;

/// Up to 63 rising numbers. In contracts it is their list.
#[derive(Clone, Copy, Debug)]
pub struct Points {
    numbers: [Dyadic; 63],
    len: u8,
}

impl Model for Points {
    ghost use Rattle.std.specs.Prelude.{List};
    ghost use Rattle.dyadic.specs.declared.number.Dyadic.{Dyadic};

    ghost Value = { List Dyadic };

    ghost use Rattle.dyadic.specs.Rising.{points_in, IsPadded, fields_of, fields_of_points};

    ghost view = { points_in };

    ghost invariant = { IsPadded };

    ghost inverse = { fields_of };

    ghost inverse_ok = { fields_of_points };
}

impl Points {
    /// No points.
    pub fn new() -> Points
        ensures { result ≡ [] }
    {
        Points {
            numbers: [Dyadic::zero(); 63],
            len: 0,
        }
    }

    /// How many points there are.
    pub fn len(self) -> u8
        ensures count { result ≡ length self }
        ensures most { result ≤ 63 }
    {
        self.len
    }

    /// The i-th point, counted from 0.
    pub fn point(self, i: u8) -> Dyadic
        requires { i < length self }
        ensures { result ≡ point_of self i }
    {
        self.numbers[i as usize]
    }

    /// Nothing is done. The clause tells a caller that each point is below the later ones.
    pub fn rising(self)
        ensures { IsRising self }
    {
        let _ = &self.len;
    }

    // Whether p is above the last point.
    fn is_above_last(self, p: Dyadic) -> bool
        ensures { IsTrue result ↔ IsAboveLast self p }
    {
        if self.len == 0 {
            return true;
        }
        self.numbers[self.len as usize - 1].is_below(p)
    }

    /// The points with p after them. None exactly where there are 63, or p isn't above the last.
    pub fn with_last(self, p: Dyadic) -> Option<Points>
        ensures fits { IsSome result ↔ ((length self < 63) × IsAboveLast self p) }
        ensures adds { IfSome result (λ points. points ≡ self ++ p ∷ []) }
    {
        if self.len() == 63 {
            return None;
        }
        if !self.is_above_last(p) {
            return None;
        }
        Some(self.with(p))
    }

    // The points with p after them, where there is room and p is above the last.
    fn with(self, p: Dyadic) -> Points
        requires room { length self < 63 }
        requires above { IsAboveLast self p }
        ensures { result ≡ self ++ p ∷ [] }
    {
        let mut numbers = self.numbers;
        numbers[self.len as usize] = p;
        Points {
            numbers,
            len: self.len + 1,
        }
    }
}
