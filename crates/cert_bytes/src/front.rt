//! What stands before the first section and behind the last, read through a folder.
ghost use Rattle.std.specs.Prelude.{◌<◌, ◌≡◌, ℕ, List, Some, IsErrOf, IfOk, true};
ghost use Rattle.fx_edge.specs.OnlyReads.{OnlyReads};
ghost use Rattle.cert_bytes.specs.Reading.{magic_at, version_at, preamble_at, head_at, mark_at};
ghost use Rattle.cert_bytes.specs.Certificates.{HasSpelling};
ghost use Rattle.cert_bytes.specs.Due.{is_nodes, is_mark};
ghost use Rattle.cert_bytes.specs.Styles.{Opens};
ghost use Rattle.cert_bytes.specs.Pieces.{Gives, AgreesTold, kept_of, name_of};
ghost use Rattle.cert_bytes.specs.Calls.{ReadsOn};

use crate::fault::{CertKind, Stop, fault};
use crate::field::Field;
use crate::item::Item;
use crate::source::Source;
use crate::style::{Seen, Style};
use facts::HintMark;
use fx_edge::Folder;

impl Source {
    #[tactic(auto, unfolding(crate::specs::Reading::magic_at))]
    fn magic<F: Folder>(&mut self, folder: &mut F) -> Result<(), Stop>
        requires agrees { AgreesTold (F.told folder.old self.old.name) self.old }
        ensures gives { (all : List ℕ) → F.told folder.old self.old.name ≡ Some all
            → Gives (λ _. tt) all self.old self.new result magic_at }
        ensures reads_on { ReadsOn kept_of (F.told folder.new) self.old self.new }
        ensures only_reads { OnlyReads F.Folder folder.old folder.new (IsErrOf result Stop.Failed) }
    {
        let start = self.at();
        let magic = self.digits(folder, 4)?;
        if magic != 0x4658_5043 {
            return Err(fault(CertKind::BadMagic, start));
        }
        Ok(())
    }

    #[tactic(auto, unfolding(crate::specs::Reading::version_at))]
    fn version<F: Folder>(&mut self, folder: &mut F) -> Result<(), Stop>
        requires agrees { AgreesTold (F.told folder.old self.old.name) self.old }
        ensures gives { (all : List ℕ) → F.told folder.old self.old.name ≡ Some all
            → Gives (λ _. tt) all self.old self.new result version_at }
        ensures reads_on { ReadsOn name_of (F.told folder.new) self.old self.new }
        ensures opens { IfOk result (λ _. Opens self.new.style) }
        ensures moves { IfOk result (λ _. self.old.at < self.new.at) }
        ensures only_reads { OnlyReads F.Folder folder.old folder.new (IsErrOf result Stop.Failed) }
    {
        let start = self.at();
        match u8::read(self, folder)? {
            1 => self.restyle(Style::First),
            2 => self.restyle(Style::Second(Seen::none())),
            _ => return Err(fault(CertKind::BadVersion, start)),
        }
        Ok(())
    }

    #[tactic(auto, unfolding(crate::specs::Reading::preamble_at))]
    fn preamble<F: Folder>(&mut self, folder: &mut F) -> Result<(), Stop>
        requires agrees { AgreesTold (F.told folder.old self.old.name) self.old }
        ensures gives { (all : List ℕ) → F.told folder.old self.old.name ≡ Some all
            → Gives (λ _. tt) all self.old self.new result preamble_at }
        ensures reads_on { ReadsOn name_of (F.told folder.new) self.old self.new }
        ensures opens { IfOk result (λ _. Opens self.new.style) }
        ensures moves { IfOk result (λ _. self.old.at < self.new.at) }
        ensures only_reads { OnlyReads F.Folder folder.old folder.new (IsErrOf result Stop.Failed) }
    {
        self.magic(folder)?;
        self.version(folder)?;
        Ok(())
    }

    /// The head, and the number of nodes.
    #[tactic(auto, unfolding(crate::specs::Reading::head_at))]
    pub fn head<F: Folder>(&mut self, folder: &mut F) -> Result<Item, Stop>
        requires agrees { AgreesTold (F.told folder.old self.old.name) self.old }
        ensures gives { (all : List ℕ) → F.told folder.old self.old.name ≡ Some all
            → Gives (λ x. x) all self.old self.new result head_at }
        ensures reads_on { ReadsOn name_of (F.told folder.new) self.old self.new }
        ensures opens { IfOk result (λ _. Opens self.new.style) }
        ensures moves { IfOk result (λ _. self.old.at < self.new.at) }
        ensures kind { IfOk result (λ i. is_nodes i ≡ true) }
        ensures spelled { IfOk result HasSpelling }
        ensures only_reads { OnlyReads F.Folder folder.old folder.new (IsErrOf result Stop.Failed) }
    {
        self.preamble(folder)?;
        let count = u16::read(self, folder)?;
        Ok(Item::Nodes(count))
    }

    /// The next mark.
    #[tactic(auto, unfolding(crate::specs::Reading::mark_at))]
    pub fn mark<F: Folder>(&mut self, folder: &mut F) -> Result<Item, Stop>
        requires agrees { AgreesTold (F.told folder.old self.old.name) self.old }
        ensures gives { (all : List ℕ) → F.told folder.old self.old.name ≡ Some all
            → Gives (λ x. x) all self.old self.new result mark_at }
        ensures reads_on { ReadsOn kept_of (F.told folder.new) self.old self.new }
        ensures moves { IfOk result (λ _. self.old.at < self.new.at) }
        ensures kind { IfOk result (λ i. is_mark i ≡ true) }
        ensures spelled { IfOk result HasSpelling }
        ensures only_reads { OnlyReads F.Folder folder.old folder.new (IsErrOf result Stop.Failed) }
    {
        let start = self.at();
        let tag = u8::read(self, folder)?;
        if tag == 0 {
            return Ok(Item::Mark(HintMark::Checked));
        }
        if tag == 1 {
            return Ok(Item::Mark(HintMark::Assumed));
        }
        Err(fault(CertKind::BadTag, start))
    }
}
