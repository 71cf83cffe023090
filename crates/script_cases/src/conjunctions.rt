// The conjunctions that one case takes, one after the other.
ghost use Rattle.std.specs.Prelude.{◌≡◌, ◌<◌, ◌≤◌, ◌/◌, ◌%◌, [], ◌∷◌, length, get_or, IfSome};
ghost use Rattle.std.specs.Prelude.{IfNone};
ghost use Rattle.std.specs.List.{AllByRecursion};
ghost use Rattle.script_cases.specs.Choice.{AreLeft, choice};
ghost use Rattle.script_cases.specs.Marks.{pieces};

use crate::parts::start_at;
use std::marker::Model;

/// The conjunctions of a case that are left. In contracts they are their list.
#[derive(Drop)]
pub struct Conjunctions<'a, T: Copy> {
    items: &'a [T],
    ends: &'a [usize],
    // The ends of the parts that are left, and how many conjunctions stand before those.
    parts: &'a [usize],
    from: usize,
    // How many cases these parts have, and the number of this one.
    count: usize,
    number: usize,
}

impl<'a, T: Copy> Model for Conjunctions<'a, T> {
    ghost use Rattle.std.specs.Prelude.{List};
    ghost use Rattle.script_cases.specs.Choice.{AreLeft, left_by};

    ghost Value = { List (List T) };

    ghost view = { λ c. left_by c.items.now c.ends.now c.parts.now c.from c.number };

    ghost invariant = { λ c. AreLeft c.items.now c.ends.now c.parts.now c.from c.number c.count };
}

// The conjunction with this number.
pub(crate) fn conjunction<'a, T: Copy>(items: &'a [T], ends: &[usize], number: usize) -> &'a [T]
    requires number { number < length ends.now }
    requires within { AllByRecursion (λ e. e ≤ length items.now) ends.now }
    ensures { result.now ≡ get_or (pieces 0 items.now ends.now) number [] }
{
    let from = start_at(ends, number);
    let end = ends[number];
    if from < end { &items[from..end] } else { &[] }
}

// Of a part of this many conjunctions the one that the case with this number takes; then its number
// among the cases of the later parts, and how many these are.
fn chosen(number: usize, count: usize, width: usize) -> (usize, usize, usize)
    requires number { number < count }
    requires width { 0 < width }
    requires later { 0 < count / width }
    ensures one { result.0 ≡ number / (count / width) }
    ensures rest { result.1 ≡ number % (count / width) }
    ensures count { result.2 ≡ count / width }
{
    if width == 1 {
        return (0, number, count);
    }
    let later = count / width;
    (number / later, number % later, later)
}

impl<'a, T: Copy> Conjunctions<'a, T> {
    // Those of the case with this number.
    pub(crate) fn new(
        items: &'a [T],
        ends: &'a [usize],
        parts: &'a [usize],
        count: usize,
        number: usize,
    ) -> Conjunctions<'a, T>
        requires { AreLeft items.now ends.now parts.now 0 number count }
        ensures { result ≡ choice (pieces 0 (pieces 0 items.now ends.now) parts.now) number }
    {
        Conjunctions {
            items,
            ends,
            parts,
            from: 0,
            count,
            number,
        }
    }

    /// The items of the next one, or nothing behind the last.
    pub fn next(&mut self) -> Option<&'a [T]>
        ensures taken { IfSome result (λ items. self.old ≡ items.now ∷ self.new) }
        ensures ended { IfNone result (self.old ≡ []) }
    {
        let [end, later @ ..] = self.parts else {
            return None;
        };
        let from = self.from;
        let (place, number, count) = chosen(self.number, self.count, *end - from);
        self.parts = later;
        self.from = *end;
        self.count = count;
        self.number = number;
        Some(conjunction(self.items, self.ends, from + place))
    }
}
