//! What the values of a type are read as, said once for all of them.
ghost use Rattle.std.specs.Prelude.{◌≡◌, ◌<◌, ℕ, List, Some, IfOk, IsErrOf};
ghost use Rattle.fx_edge.specs.OnlyReads.{OnlyReads};
ghost use Rattle.cert_bytes.specs.Reading.{Cursor, Read, both_at};
ghost use Rattle.cert_bytes.specs.Pieces.{Gives, AgreesTold, kept_of};
ghost use Rattle.cert_bytes.specs.Calls.{ReadsOn};

use crate::fault::Stop;
use crate::source::Source;
use fx_edge::Folder;

/// A type whose values have one spelling, of at least one byte.
pub trait Field: Sized {
    /// What is read at a place: a value and the place behind it, or the first fault.
    ghost read_at: { Cursor → Read Self };

    /// What each value that was read keeps.
    ghost Keeps: { Self → Type 0 } = { λ _. Unit {0} };

    /// The value that stands at the source's place.
    fn read<F: Folder>(source: &mut Source, folder: &mut F) -> Result<Self, Stop>
        requires agrees { AgreesTold (F.told folder.old source.old.name) source.old }
        ensures gives { (all : List ℕ) → F.told folder.old source.old.name ≡ Some all
            → Gives (λ x. x) all source.old source.new result read_at }
        ensures reads_on { ReadsOn kept_of (F.told folder.new) source.old source.new }
        ensures keeps { IfOk result Keeps }
        ensures moves { IfOk result (λ _. source.old.at < source.new.at) }
        ensures only_reads { OnlyReads F.Folder folder.old folder.new
            (IsErrOf result Stop.Failed) };
}

/// One field behind another.
impl<A: Field + Drop, B: Field> Field for (A, B) {
    ghost read_at = { both_at A.read_at B.read_at };

    ghost Keeps = { λ p. A.Keeps p.0 × B.Keeps p.1 };

    #[inline(always)]
    #[tactic(auto, unfolding(crate::specs::Reading::both_at))]
    fn read<F: Folder>(source: &mut Source, folder: &mut F) -> Result<(A, B), Stop> {
        let first = A::read(source, folder)?;
        let second = B::read(source, folder)?;
        Ok((first, second))
    }
}
