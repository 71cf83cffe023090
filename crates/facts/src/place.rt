ghost use Rattle.std.specs.Prelude.{◌↔◌, ◌≡◌, IsNone, IfSome, negsuc, pos, ◌≤ℤ◌};

/// The exponent k of a power 2^k of which a value is a whole multiple: from -1024 to 512.
#[derive(Clone, Copy, PartialEq, Eq, Debug)]
pub struct FixPlace {
    exponent: i16,
    pub ghost lowest: { negsuc 1023 ≤ℤ exponent },
    pub ghost highest: { exponent ≤ℤ pos 512 },
}

impl FixPlace {
    ghost use Rattle.facts.specs.Parts.{greater_place};
    ghost use Rattle.facts.specs.Places.{place_from};

    /// The place of 2^exponent. None exactly where the exponent isn't from -1024 to 512.
    pub fn new(exponent: i16) -> Option<FixPlace>
        ensures refused { IsNone result ↔ (¬ ((negsuc 1023 ≤ℤ exponent) × (exponent ≤ℤ pos 512))) }
        ensures made { IfSome result (λ place. place.exponent ≡ exponent) }
        ensures is { result ≡ place_from exponent }
    {
        if -1024 <= exponent && exponent <= 512 {
            Some(FixPlace { exponent })
        } else {
            None
        }
    }

    /// The exponent, from -1024 to 512.
    pub fn exponent(self) -> i16
        ensures value { result ≡ self.exponent }
        ensures lowest { negsuc 1023 ≤ℤ result }
        ensures highest { result ≤ℤ pos 512 }
    {
        self.exponent
    }

    /// The greater of two.
    pub fn greater(self, other: FixPlace) -> FixPlace
        ensures { result ≡ greater_place self other }
    {
        if self.exponent < other.exponent {
            other
        } else {
            self
        }
    }
}
