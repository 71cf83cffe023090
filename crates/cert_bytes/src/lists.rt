//! Lists of numbers and of points, read through a folder.
ghost use Rattle.std.specs.Prelude.{◌≡◌, ◌≤◌, ◌<◌, ◌+◌, ℕ, [], List, Some, length, IsErrOf, IfOk};
ghost use Rattle.fx_edge.specs.OnlyReads.{OnlyReads};
ghost use Rattle.cert_bytes.specs.Reading.{references_at, counted_at, optional_at, count_at};
ghost use Rattle.cert_bytes.specs.Reading.{rising_at, points_at};
ghost use Rattle.cert_bytes.specs.Certificates.{IsCounted};
ghost use Rattle.cert_bytes.specs.Pieces.{Gives, AgreesTold, kept_of};
ghost use Rattle.cert_bytes.specs.Calls.{ReadsOn};

use crate::fault::{CertKind, Stop, fault};
use crate::field::Field;
use crate::source::Source;
use dyadic::{Dyadic, Points};
use fx_edge::{Folder, Items};

impl Source {
    /// The next numbers, so many.
    #[inline(always)]
    fn references<F: Folder>(&mut self, folder: &mut F, count: u16) -> Result<Items<u64>, Stop>
        requires agrees { AgreesTold (F.told folder.old self.old.name) self.old }
        ensures gives { (all : List ℕ) → F.told folder.old self.old.name ≡ Some all
            → Gives (λ x. x) all self.old self.new result (references_at count []) }
        ensures reads_on { ReadsOn kept_of (F.told folder.new) self.old self.new }
        ensures many { IfOk result (λ numbers. length numbers ≡ count) }
        ensures only_reads { OnlyReads F.Folder folder.old folder.new (IsErrOf result Stop.Failed) }
    {
        let mut numbers = Vec::new(self.alloc());
        let mut have = 0;
        while have < count {
            numbers.push(u64::read(self, folder)?)?;
            have += 1;
        }
        Ok(Items::from_vec(numbers))
    }

    /// The next count of points.
    #[tactic(auto, unfolding(crate::specs::Reading::count_at))]
    pub fn count<F: Folder>(&mut self, folder: &mut F) -> Result<u8, Stop>
        requires agrees { AgreesTold (F.told folder.old self.old.name) self.old }
        ensures gives { (all : List ℕ) → F.told folder.old self.old.name ≡ Some all
            → Gives (λ x. x) all self.old self.new result count_at }
        ensures reads_on { ReadsOn kept_of (F.told folder.new) self.old self.new }
        ensures within { IfOk result (λ n. (1 ≤ n) × (n ≤ 63)) }
        ensures only_reads { OnlyReads F.Folder folder.old folder.new (IsErrOf result Stop.Failed) }
    {
        let start = self.at();
        let count = self.tiny(folder)?;
        if count == 0 {
            return Err(fault(CertKind::BadNumber, start));
        }
        if count > 63 {
            return Err(fault(CertKind::BadNumber, start));
        }
        Ok(count)
    }

    /// The points with the next one behind them.
    #[tactic(auto, unfolding(crate::specs::Reading::rising_at))]
    fn rising<F: Folder>(&mut self, folder: &mut F, points: Points) -> Result<Points, Stop>
        requires room { length points < 63 }
        requires agrees { AgreesTold (F.told folder.old self.old.name) self.old }
        ensures gives { (all : List ℕ) → F.told folder.old self.old.name ≡ Some all
            → Gives (λ x. x) all self.old self.new result (rising_at points) }
        ensures reads_on { ReadsOn kept_of (F.told folder.new) self.old self.new }
        ensures many { IfOk result (λ more. length more ≡ length points + 1) }
        ensures only_reads { OnlyReads F.Folder folder.old folder.new (IsErrOf result Stop.Failed) }
    {
        let start = self.at();
        let point = Dyadic::read(self, folder)?;
        match points.with_last(point) {
            Some(more) => Ok(more),
            None => Err(fault(CertKind::BadNumber, start)),
        }
    }

    /// The next points, so many.
    pub fn points<F: Folder>(&mut self, folder: &mut F, count: u8) -> Result<Points, Stop>
        requires room { count ≤ 63 }
        requires agrees { AgreesTold (F.told folder.old self.old.name) self.old }
        ensures gives { (all : List ℕ) → F.told folder.old self.old.name ≡ Some all
            → Gives (λ x. x) all self.old self.new result (points_at count []) }
        ensures reads_on { ReadsOn kept_of (F.told folder.new) self.old self.new }
        ensures many { IfOk result (λ points. length points ≡ count) }
        ensures only_reads { OnlyReads F.Folder folder.old folder.new (IsErrOf result Stop.Failed) }
    {
        let mut points = Points::new();
        let mut have = 0;
        while have < count {
            points = self.rising(folder, points)?;
            have += 1;
        }
        Ok(points)
    }
}

impl Field for Items<u64> {
    ghost read_at = { counted_at };

    ghost Keeps = { IsCounted };

    #[inline(always)]
    #[tactic(auto, unfolding(crate::specs::Reading::counted_at))]
    fn read<F: Folder>(source: &mut Source, folder: &mut F) -> Result<Items<u64>, Stop> {
        let count = u16::read(source, folder)?;
        Ok(source.references(folder, count)?)
    }
}

impl Field for Option<u64> {
    ghost read_at = { optional_at };

    #[inline(always)]
    #[tactic(auto, unfolding(crate::specs::Reading::optional_at))]
    fn read<F: Folder>(source: &mut Source, folder: &mut F) -> Result<Option<u64>, Stop> {
        let start = source.at();
        match u8::read(source, folder)? {
            0 => Ok(None),
            1 => Ok(Some(u64::read(source, folder)?)),
            _ => Err(fault(CertKind::BadTag, start)),
        }
    }
}
