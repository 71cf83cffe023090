// The outside, as the prover sees it: files by name, and a place for printed text.
ghost use Rattle.std.specs.Prelude.{◌≡◌, ◌≢◌, ◌<◌, ◌≤◌, ◌⊎◌, ℕ, List, [], Option, length, IfOk};
ghost use Rattle.std.specs.Prelude.{IsErr, OnOk, OnErr};
ghost use Rattle.std.specs.Io.{ReadsAtMost};
ghost use Rattle.std.specs.Io.KnownBytes.{WriteAppends};
ghost use Rattle.fx_edge.specs.Outside.{HasCause, ReadsFrom, Empties, next_count};

/// The only fault of a call to the outside.
#[derive(Clone, Copy, Debug, PartialEq, Eq)]
pub struct Failed;

// Counts a failure.
pub(crate) fn count_failure<T>(faults: &mut u64) -> Result<T, Failed>
    ensures fails { IsErr result }
    ensures counts { faults.new ≡ next_count faults.old }
    ensures cause { HasCause faults.old faults.new result }
{
    *faults = faults.saturating_add(1);
    Err(Failed)
}

/// Files by name.
pub trait Folder {
    /// The bytes of each name, where the folder tells them.
    ghost told: { Self → List ℕ → Option (List ℕ) };

    /// How often a read has failed.
    ghost read_faults: { Self → ℕ };

    /// How often a write has failed.
    ghost write_faults: { Self → ℕ };

    /// Reads bytes that stand from `at`. None are read only at the end, or into a buffer with no
    /// room.
    fn read(&mut self, name: &str, at: u64, buf: &mut [u8]) -> Result<usize, Failed>
        ensures bound { ReadsAtMost result buf.new }
        ensures bytes { ReadsFrom (told self.old name.now) at result buf.new }
        ensures same { (other : List ℕ) → told self.new other ≡ told self.old other }
        ensures cause { HasCause (read_faults self.old) (read_faults self.new) result }
        ensures quiet { write_faults self.new ≡ write_faults self.old };

    /// Leaves the name with no bytes. After a failure its bytes are the old ones or none.
    fn fresh(&mut self, name: &str) -> Result<(), Failed>
        ensures ok { OnOk result (Empties (told self.old name.now) (told self.new name.now)) }
        ensures err { OnErr result
            ((told self.new name.now ≡ told self.old name.now)
            ⊎ (told self.new name.now ≡ Some [])) }
        ensures others { (other : List ℕ) → other ≢ name.now
            → told self.new other ≡ told self.old other }
        ensures cause { HasCause (write_faults self.old) (write_faults self.new) result }
        ensures quiet { read_faults self.new ≡ read_faults self.old };

    /// Adds the first bytes of the piece, at least one if there is one. A failure adds nothing.
    fn append(&mut self, name: &str, piece: &[u8]) -> Result<usize, Failed>
        ensures bound { IfOk result (λ n. n ≤ length piece.now) }
        ensures some { IfOk result (λ n. 0 < length piece.now → 0 < n) }
        ensures bytes { WriteAppends (told self.old name.now)
            (told self.new name.now) result piece.now }
        ensures others { (other : List ℕ) → other ≢ name.now
            → told self.new other ≡ told self.old other }
        ensures cause { HasCause (write_faults self.old) (write_faults self.new) result }
        ensures quiet { read_faults self.new ≡ read_faults self.old };
}

/// A place for printed text.
pub trait Sink {
    /// The bytes that it took, where it tells them.
    ghost taken: { Self → Option (List ℕ) };

    /// How often a put has failed.
    ghost faults: { Self → ℕ };

    /// Takes the first bytes of the piece, at least one if there is one. A failure takes nothing.
    fn put(&mut self, piece: &[u8]) -> Result<usize, Failed>
        ensures bound { IfOk result (λ n. n ≤ length piece.now) }
        ensures some { IfOk result (λ n. 0 < length piece.now → 0 < n) }
        ensures bytes { WriteAppends (taken self.old) (taken self.new) result piece.now }
        ensures cause { HasCause (faults self.old) (faults self.new) result };
}
