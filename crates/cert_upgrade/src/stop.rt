//! Why a certificate wasn't rewritten.
ghost use Rattle.std.specs.Prelude.{◌≡◌};
ghost use Rattle.cert_upgrade.specs.Stops.{stop_of};
ghost use Rattle.cert_upgrade.specs.declared.stop.UpgradeStop.TheVariants.{WriteFailed};
ghost use Rattle.cert_upgrade.specs.declared.stop.UpgradeStop.TheVariants.{OutOfMemory};

use cert_bytes::{CertFault, Stop};
use fx_edge::Failed;
use std::alloc::AllocError;

/// Why a certificate wasn't rewritten, or not whole.
#[derive(Clone, Copy, PartialEq, Eq, Debug)]
pub enum UpgradeStop {
    /// Its bytes spell no certificate.
    Fault(CertFault),
    /// What its items spell in version 2 is longer than 2^44 bytes.
    NewTooLong,
    /// A read of the folder failed.
    ReadFailed,
    /// A write of the folder failed.
    WriteFailed,
    /// No memory was found.
    OutOfMemory,
}

impl From<Stop> for UpgradeStop {
    ghost from_gives = { λ stop e. e ≡ stop_of stop };

    fn from(stop: Stop) -> Self {
        match stop {
            Stop::Fault(fault) => UpgradeStop::Fault(fault),
            Stop::Failed => UpgradeStop::ReadFailed,
            Stop::OutOfMemory => UpgradeStop::OutOfMemory,
        }
    }
}

// What is appended fails at a write.
impl From<Failed> for UpgradeStop {
    ghost from_gives = { λ _ e. e ≡ WriteFailed };

    fn from(_: Failed) -> Self {
        UpgradeStop::WriteFailed
    }
}

impl From<AllocError> for UpgradeStop {
    ghost from_gives = { λ _ e. e ≡ OutOfMemory };

    fn from(_: AllocError) -> Self {
        UpgradeStop::OutOfMemory
    }
}
