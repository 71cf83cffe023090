//! Why a text is no point.

ghost use Rattle.std.specs.Prelude.{◌≡◌};
ghost use Rattle.point_text.specs.declared.fault.PointStop.TheVariants.{Fault, OutOfMemory};

use std::alloc::{AllocError, AllocFailed};

/// Why a text is no point of a script. Of two at one byte the one that stands first here is
/// answered.
#[derive(Clone, Copy, PartialEq, Eq, Debug)]
pub enum PointKind {
    /// The bytes aren't UTF-8.
    NotText,
    /// A byte begins no token.
    BadToken,
    /// A token that no point has at its place, or an end inside an entry.
    Unexpected,
    /// A name that isn't a variable of the script.
    Unknown,
    /// A name that has an entry already.
    Twice,
    /// A divisor that is 0.
    ZeroDivisor,
    /// A literal past its limits.
    LiteralLimit,
    /// More than 2^16 bytes.
    Limit,
    /// A variable has no entry.
    Missing,
}

/// Why a text is no point, and the byte at which it isn't.
#[derive(Clone, Copy, PartialEq, Eq, Debug)]
pub struct PointFault {
    pub kind: PointKind,
    /// The byte, counted from 0; the text's length at its end.
    pub at: u32,
}

/// Why no point is read.
#[derive(Clone, Copy, PartialEq, Eq, Debug)]
pub enum PointStop {
    /// The text spells none: its first fault.
    Fault(PointFault),
    /// There is no memory for it.
    OutOfMemory,
}

impl From<PointFault> for PointStop {
    ghost from_gives = { λ fault e. e ≡ Fault fault };

    fn from(fault: PointFault) -> Self {
        PointStop::Fault(fault)
    }
}

impl From<AllocError> for PointStop {
    ghost from_gives = { λ _ e. e ≡ OutOfMemory };

    fn from(_: AllocError) -> Self {
        PointStop::OutOfMemory
    }
}

impl<T: Drop> From<AllocFailed<T>> for PointStop {
    ghost from_gives = { λ _ e. e ≡ OutOfMemory };

    fn from(_: AllocFailed<T>) -> Self {
        PointStop::OutOfMemory
    }
}
