ghost use Rattle.std.specs.Prelude.{◌≡◌};
ghost use Rattle.exact_fractions.specs.Reduced.{IsSmall, IsSmall-prop};

mod form;

pub use form::{cofactor, is_negative, lowest, reduced, signed};

/// A fraction in lowest terms, both of whose numbers are below 2^127.
#[derive(Clone, Copy, Debug)]
pub struct Exact {
    num: i128,
    den: u128,
    pub ghost small: { IsSmall num den } by { IsSmall-prop num den },
}

impl Exact {
    /// The numerator.
    pub fn num(self) -> i128
        ensures { result ≡ self.num }
    {
        self.num
    }

    /// The denominator.
    pub fn den(self) -> u128
        ensures { result ≡ self.den }
    {
        self.den
    }
}
