//! How the numbers of a certificate are spelled.
ghost use Rattle.std.specs.Prelude.{◌≡◌, ◌<◌, ◌^◌};
ghost use Rattle.cert_bytes.specs.Styles.{none_seen, seen_after, style_after, IsFew};

use crate::item::Item;

/// What stood before a place.
#[derive(Clone, Copy, PartialEq, Eq, Debug)]
pub struct Seen {
    /// How many steps.
    pub steps: u64,
    /// How many cuts, leaves and dead ends, of which each section has one.
    pub sections: u64,
}

/// How the numbers of a certificate are spelled.
#[derive(Clone, Copy, PartialEq, Eq, Debug)]
pub enum Style {
    /// Version 1: each in a field of its own width, the high byte first.
    First,
    /// Version 2: in base 128, the low digits first, and a step by how far back it stands.
    Second(Seen),
}

impl Seen {
    /// Nothing.
    pub fn none() -> Seen
        ensures { result ≡ none_seen }
    {
        Seen {
            steps: 0,
            sections: 0,
        }
    }

    /// What stood before the place behind an item.
    pub fn after(self, item: &Item) -> Seen
        requires steps { self.steps < 2 ^ 63 }
        requires sections { self.sections < 2 ^ 63 }
        ensures { result ≡ seen_after self item.now }
    {
        match item {
            Item::Step(_) => Seen {
                steps: self.steps + 1,
                sections: self.sections,
            },
            Item::Cut(_, _) | Item::Leaf(_) | Item::Dead(_) => Seen {
                steps: self.steps,
                sections: self.sections + 1,
            },
            _ => self,
        }
    }
}

impl Style {
    /// How the numbers behind an item are spelled.
    #[inline(always)]
    pub(crate) fn after(self, item: &Item) -> Style
        requires { IsFew self (2 ^ 44) }
        ensures { result ≡ style_after self item.now }
    {
        match self {
            Style::First => Style::First,
            Style::Second(seen) => Style::Second(seen.after(item)),
        }
    }
}
