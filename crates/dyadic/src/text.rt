// Printed numbers.
ghost use Rattle.std.specs.Prelude.{Some};

use crate::number::{Dyadic, End};
use std::fmt;

/// Prints `m` where the exponent is 0, and else `mbe`.
impl fmt::Display for Dyadic {
    ghost use Rattle.dyadic.specs.Texts.{number_text};

    ghost output = { λ d. Some (number_text d) };

    fn fmt<W: fmt::Write>(&self, f: &mut fmt::Formatter<W>) -> fmt::Result {
        let mantissa = self.mantissa();
        let exponent = self.exponent();
        if exponent == 0 {
            write!(f, "{mantissa}")
        } else {
            write!(f, "{mantissa}b{exponent}")
        }
    }
}

/// Prints the number, `-inf` or `+inf`.
impl fmt::Display for End {
    ghost use Rattle.dyadic.specs.Texts.{end_text};

    ghost output = { λ e. Some (end_text e) };

    fn fmt<W: fmt::Write>(&self, f: &mut fmt::Formatter<W>) -> fmt::Result {
        match self {
            End::Low => write!(f, "-inf"),
            End::At(number) => write!(f, "{number}"),
            End::High => write!(f, "+inf"),
        }
    }
}
