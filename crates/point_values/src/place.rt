// Where a number is too wide, and why there is no evaluation.
ghost use Rattle.std.specs.Prelude.{◌≡◌};
ghost use Rattle.point_values.specs.declared.place.EvalStop.TheVariants.{OutOfMemory};

use std::alloc::{AllocError, AllocFailed};

/// Where a number is too wide. Each is counted from 0.
#[derive(Clone, Copy, PartialEq, Eq, Debug)]
pub enum Place {
    /// The entry of the variable with this number.
    Entry(usize),
    /// The node with this number.
    Node(usize),
    /// The hypothesis with this number.
    Hypothesis(usize),
    /// The goal with this number.
    Goal(usize),
    /// The rewriting with this number, whether those before it are assumed or not.
    Hint(usize),
}

/// Why there is no evaluation.
#[derive(Clone, Copy, PartialEq, Eq, Debug)]
pub enum EvalStop {
    /// A number isn't below 2^127: the first place of one.
    TooWide(Place),
    /// There is no memory for it.
    OutOfMemory,
}

impl From<AllocError> for EvalStop {
    ghost from_gives = { λ _ e. e ≡ OutOfMemory };

    fn from(_: AllocError) -> Self {
        EvalStop::OutOfMemory
    }
}

impl<T: Drop> From<AllocFailed<T>> for EvalStop {
    ghost from_gives = { λ _ e. e ≡ OutOfMemory };

    fn from(_: AllocFailed<T>) -> Self {
        EvalStop::OutOfMemory
    }
}
