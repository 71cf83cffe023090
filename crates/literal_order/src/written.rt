//! Literals with their signs.

ghost use Rattle.std.specs.Prelude.{◌≡◌, ◌↔◌, IsTrue, Some};
ghost use Rattle.fx_model.specs.Fraction.{◌<ℚ◌};
ghost use Rattle.interval.specs.Results.{point_of};
ghost use Rattle.literal_order.specs.Values.{written_value, IsWritten};

use crate::order::is_below;
use fx_model::Literal;
use interval::{Interval, enclose};

/// A number as it is written: a literal, or its negative.
#[derive(Clone, Copy, Debug, PartialEq, Eq)]
pub struct Written {
    /// The literal's normal form.
    pub literal: Literal,
    /// Whether a minus stands before it.
    pub negative: bool,
}

impl Written {
    /// Whether the number is below the other.
    pub fn is_below(self, other: Written) -> bool
        requires first { IsWritten (Some self) }
        requires second { IsWritten (Some other) }
        ensures { IsTrue result ↔ written_value self <ℚ written_value other }
    {
        is_below(&self.literal, self.negative, &other.literal, other.negative)
    }

    /// The least interval that holds the number.
    pub fn enclosed(self) -> Interval
        requires { IsWritten (Some self) }
        ensures { result ≡ point_of (written_value self) }
    {
        enclose(&self.literal, self.negative)
    }
}
