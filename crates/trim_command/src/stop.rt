// Why nothing was answered.
ghost use Rattle.std.specs.Prelude.{◌≡◌};
ghost use Rattle.trim_command.specs.declared.stop.TrimStop.TheVariants.{OutOfMemory};

use std::alloc::AllocError;

/// Why a certificate wasn't trimmed, and nothing is to be said of it.
#[derive(Clone, Copy, Debug, PartialEq, Eq)]
pub enum TrimStop {
    /// A read of the certificate failed.
    Unread,
    /// A write of the new file failed.
    Unwritten,
    /// Memory ran out.
    OutOfMemory,
}

impl From<AllocError> for TrimStop {
    ghost from_gives = { λ _ e. e ≡ OutOfMemory };

    fn from(_: AllocError) -> Self {
        TrimStop::OutOfMemory
    }
}
