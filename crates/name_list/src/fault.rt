//! Where a list is at fault.
ghost use Rattle.std.specs.Prelude.{◌≡◌};
ghost use Rattle.name_list.specs.Order.{earlier, number};
ghost use Rattle.name_list.specs.declared.fault.ListStop.TheVariants.{OutOfMemory};

use std::alloc::{AllocError, AllocFailed};

/// What is wrong with a list.
#[derive(Clone, Copy, PartialEq, Eq, Debug)]
pub enum ListKind {
    /// The bytes are no text.
    NotText,
    /// A line has no bytes, or the list hasn't.
    EmptyName,
    /// There are more than 2^16 bytes, or more than 64 lines.
    Limit,
}

/// The first fault of a list, and its byte, from 0.
#[derive(Clone, Copy, PartialEq, Eq, Debug)]
pub struct ListFault {
    pub kind: ListKind,
    pub at: u32,
}

/// Why there are no names.
#[derive(Clone, Copy, PartialEq, Eq, Debug)]
pub enum ListStop {
    /// The list is at fault.
    Fault(ListFault),
    /// No memory was found.
    OutOfMemory,
}

impl From<AllocError> for ListStop {
    ghost from_gives = { λ _ e. e ≡ OutOfMemory };

    fn from(_: AllocError) -> Self {
        ListStop::OutOfMemory
    }
}

impl<T: Drop> From<AllocFailed<T>> for ListStop {
    ghost from_gives = { λ _ e. e ≡ OutOfMemory };

    fn from(_: AllocFailed<T>) -> Self {
        ListStop::OutOfMemory
    }
}

// The number of a kind, by which faults at one byte are told apart.
fn number(kind: ListKind) -> u8
    ensures { result ≡ number kind }
{
    match kind {
        ListKind::NotText => 1,
        ListKind::EmptyName => 2,
        ListKind::Limit => 3,
    }
}

/// The earlier of two faults: that at the lower byte, or that with the lower number.
pub(crate) fn earlier(first: Option<ListFault>, second: Option<ListFault>) -> Option<ListFault>
    ensures { result ≡ earlier first second }
{
    let (Some(f), Some(g)) = (first, second) else {
        return match first {
            Some(f) => Some(f),
            None => second,
        };
    };
    if g.at < f.at || (g.at == f.at && number(g.kind) < number(f.kind)) {
        Some(g)
    } else {
        Some(f)
    }
}
