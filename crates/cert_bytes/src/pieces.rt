//! The item that is due, read through a folder.
ghost use Rattle.std.specs.Prelude.{◌≡◌, ◌<◌, ℕ, List, Some, IsErrOf, IfOk, true};
ghost use Rattle.fx_edge.specs.OnlyReads.{OnlyReads};
ghost use Rattle.cert_bytes.specs.Reading.{more_at, end_item_at, same_count_at, counts_at};
ghost use Rattle.cert_bytes.specs.Reading.{trailer_at, closed_at, node_or_marks_at};
ghost use Rattle.cert_bytes.specs.Reading.{mark_or_section_at, section_or_end_at, entry_at};
ghost use Rattle.cert_bytes.specs.Styles.{IsStyleFor};
ghost use Rattle.cert_bytes.specs.declared.item.Item.TheVariants as item;
ghost use Rattle.cert_bytes.specs.Due.{is_due, is_end};
ghost use Rattle.cert_bytes.specs.Certificates.{HasSpelling};
ghost use Rattle.cert_bytes.specs.Pieces.{Gives, AgreesTold, kept_of, name_of};
ghost use Rattle.cert_bytes.specs.Calls.{ReadsOn};

use crate::fault::{CertKind, Stop, fault};
use crate::field::Field;
use crate::item::Item;
use crate::order::DueItem;
use crate::source::Source;
use crate::style::{Seen, Style};
use fx_edge::Folder;
use fx_model::Node;

impl Source {
    /// Whether bytes follow.
    fn more<F: Folder>(&mut self, folder: &mut F) -> Result<bool, Stop>
        requires agrees { AgreesTold (F.told folder.old self.old.name) self.old }
        ensures gives { (all : List ℕ) → F.told folder.old self.old.name ≡ Some all
            → Gives (λ x. x) all self.old self.new result more_at }
        ensures reads_on { ReadsOn kept_of (F.told folder.new) self.old self.new }
        ensures only_reads { OnlyReads F.Folder folder.old folder.new (IsErrOf result Stop.Failed) }
    {
        Ok(self.ready(folder)?)
    }

    #[tactic(auto, unfolding(crate::specs::Reading::end_item_at))]
    fn end_item<F: Folder>(&mut self, folder: &mut F) -> Result<Item, Stop>
        requires agrees { AgreesTold (F.told folder.old self.old.name) self.old }
        ensures gives { (all : List ℕ) → F.told folder.old self.old.name ≡ Some all
            → Gives (λ x. x) all self.old self.new result end_item_at }
        ensures reads_on { ReadsOn kept_of (F.told folder.new) self.old self.new }
        ensures reads { IfOk result (λ i. ¬ (i ≡ item.End) → self.old.at < self.new.at) }
        ensures kind { IfOk result (λ i. is_end i ≡ true) }
        ensures spelled { IfOk result HasSpelling }
        ensures only_reads { OnlyReads F.Folder folder.old folder.new (IsErrOf result Stop.Failed) }
    {
        let start = self.at();
        if self.more(folder)? {
            return Err(fault(CertKind::TrailingBytes, start));
        }
        Ok(Item::End)
    }

    #[tactic(auto, unfolding(crate::specs::Reading::same_count_at))]
    fn same_count<F: Folder>(&mut self, folder: &mut F, wanted: u64) -> Result<(), Stop>
        requires agrees { AgreesTold (F.told folder.old self.old.name) self.old }
        ensures gives { (all : List ℕ) → F.told folder.old self.old.name ≡ Some all
            → Gives (λ _. tt) all self.old self.new result (same_count_at wanted) }
        ensures reads_on { ReadsOn kept_of (F.told folder.new) self.old self.new }
        ensures only_reads { OnlyReads F.Folder folder.old folder.new (IsErrOf result Stop.Failed) }
    {
        let start = self.at();
        let count = self.long(folder)?;
        if count != wanted {
            return Err(fault(CertKind::BadCount, start));
        }
        Ok(())
    }

    #[tactic(auto, unfolding(crate::specs::Reading::counts_at))]
    fn counts<F: Folder>(&mut self, folder: &mut F, seen: Seen) -> Result<(), Stop>
        requires agrees { AgreesTold (F.told folder.old self.old.name) self.old }
        ensures gives { (all : List ℕ) → F.told folder.old self.old.name ≡ Some all
            → Gives (λ _. tt) all self.old self.new result (counts_at seen) }
        ensures reads_on { ReadsOn kept_of (F.told folder.new) self.old self.new }
        ensures only_reads { OnlyReads F.Folder folder.old folder.new (IsErrOf result Stop.Failed) }
    {
        self.same_count(folder, seen.sections)?;
        self.same_count(folder, seen.steps)?;
        Ok(())
    }

    #[tactic(auto, unfolding(crate::specs::Reading::trailer_at))]
    fn trailer<F: Folder>(&mut self, folder: &mut F, seen: Seen) -> Result<(), Stop>
        requires agrees { AgreesTold (F.told folder.old self.old.name) self.old }
        ensures gives { (all : List ℕ) → F.told folder.old self.old.name ≡ Some all
            → Gives (λ _. tt) all self.old self.new result (trailer_at seen) }
        ensures reads_on { ReadsOn kept_of (F.told folder.new) self.old self.new }
        ensures only_reads { OnlyReads F.Folder folder.old folder.new (IsErrOf result Stop.Failed) }
    {
        let start = self.at();
        let tag = u8::read(self, folder)?;
        if tag != 6 {
            return Err(fault(CertKind::BadTag, start));
        }
        self.counts(folder, seen)?;
        Ok(())
    }

    #[tactic(auto, unfolding(crate::specs::Reading::closed_at))]
    fn closed<F: Folder>(&mut self, folder: &mut F) -> Result<Item, Stop>
        requires agrees { AgreesTold (F.told folder.old self.old.name) self.old }
        ensures gives { (all : List ℕ) → F.told folder.old self.old.name ≡ Some all
            → Gives (λ x. x) all self.old self.new result closed_at }
        ensures reads_on { ReadsOn kept_of (F.told folder.new) self.old self.new }
        ensures reads { IfOk result (λ i. ¬ (i ≡ item.End) → self.old.at < self.new.at) }
        ensures kind { IfOk result (λ i. is_end i ≡ true) }
        ensures spelled { IfOk result HasSpelling }
        ensures only_reads { OnlyReads F.Folder folder.old folder.new (IsErrOf result Stop.Failed) }
    {
        match self.style() {
            Style::First => Ok(self.end_item(folder)?),
            Style::Second(seen) => {
                self.trailer(folder, seen)?;
                Ok(self.end_item(folder)?)
            }
        }
    }

    #[tactic(auto, unfolding(crate::specs::Reading::node_or_marks_at, crate::specs::Reading::marks_at, crate::specs::Reading::node_item_at))]
    fn node_or_marks<F: Folder>(&mut self, folder: &mut F, nodes: u16) -> Result<Item, Stop>
        requires agrees { AgreesTold (F.told folder.old self.old.name) self.old }
        ensures gives { (all : List ℕ) → F.told folder.old self.old.name ≡ Some all
            → Gives (λ x. x) all self.old self.new result (node_or_marks_at nodes) }
        ensures reads_on { ReadsOn kept_of (F.told folder.new) self.old self.new }
        ensures reads { IfOk result (λ i. ¬ (i ≡ item.End) → self.old.at < self.new.at) }
        ensures due { IfOk result (λ i. is_due (DueItem.Nodes nodes) i ≡ true) }
        ensures spelled { IfOk result HasSpelling }
        ensures only_reads { OnlyReads F.Folder folder.old folder.new (IsErrOf result Stop.Failed) }
    {
        if nodes == 0 {
            return Ok(Item::Marks(u16::read(self, folder)?));
        }
        Ok(Item::Node(Node::read(self, folder)?))
    }

    #[tactic(auto, unfolding(crate::specs::Reading::mark_or_section_at))]
    fn mark_or_section<F: Folder>(&mut self, folder: &mut F, marks: u16) -> Result<Item, Stop>
        requires agrees { AgreesTold (F.told folder.old self.old.name) self.old }
        ensures gives { (all : List ℕ) → F.told folder.old self.old.name ≡ Some all
            → Gives (λ x. x) all self.old self.new result (mark_or_section_at marks) }
        ensures reads_on { ReadsOn kept_of (F.told folder.new) self.old self.new }
        ensures reads { IfOk result (λ i. ¬ (i ≡ item.End) → self.old.at < self.new.at) }
        ensures due { IfOk result (λ i. is_due (DueItem.Marks marks) i ≡ true) }
        ensures spelled { IfOk result HasSpelling }
        ensures only_reads { OnlyReads F.Folder folder.old folder.new (IsErrOf result Stop.Failed) }
    {
        if marks == 0 {
            return Ok(self.root_item(folder)?);
        }
        Ok(self.mark(folder)?)
    }

    #[inline(always)]
    #[tactic(auto, unfolding(crate::specs::Reading::section_or_end_at))]
    fn section_or_end<F: Folder>(&mut self, folder: &mut F, sections: u64) -> Result<Item, Stop>
        requires agrees { AgreesTold (F.told folder.old self.old.name) self.old }
        ensures gives { (all : List ℕ) → F.told folder.old self.old.name ≡ Some all
            → Gives (λ x. x) all self.old self.new result (section_or_end_at sections) }
        ensures reads_on { ReadsOn kept_of (F.told folder.new) self.old self.new }
        ensures reads { IfOk result (λ i. ¬ (i ≡ item.End) → self.old.at < self.new.at) }
        ensures due { IfOk result (λ i. is_due (DueItem.Sections sections) i ≡ true) }
        ensures spelled { IfOk result HasSpelling }
        ensures only_reads { OnlyReads F.Folder folder.old folder.new (IsErrOf result Stop.Failed) }
    {
        if sections == 0 {
            return Ok(self.closed(folder)?);
        }
        Ok(self.section_item(folder)?)
    }

    /// The item that is due. The style is that of its numbers.
    #[inline(always)]
    #[tactic(auto, unfolding(crate::specs::Reading::entry_at))]
    pub fn entry<F: Folder>(&mut self, folder: &mut F, due: DueItem) -> Result<Item, Stop>
        requires agrees { AgreesTold (F.told folder.old self.old.name) self.old }
        ensures gives { (all : List ℕ) → F.told folder.old self.old.name ≡ Some all
            → Gives (λ x. x) all self.old self.new result (entry_at due) }
        ensures reads_on { ReadsOn name_of (F.told folder.new) self.old self.new }
        ensures style { IfOk result (λ _. IsStyleFor due self.old.style self.new.style) }
        ensures reads { IfOk result (λ i. ¬ (i ≡ item.End) → self.old.at < self.new.at) }
        ensures due { IfOk result (λ i. is_due due i ≡ true) }
        ensures spelled { IfOk result HasSpelling }
        ensures only_reads { OnlyReads F.Folder folder.old folder.new (IsErrOf result Stop.Failed) }
    {
        match due {
            DueItem::Head => Ok(self.head(folder)?),
            DueItem::Nodes(nodes) => Ok(self.node_or_marks(folder, nodes)?),
            DueItem::Marks(marks) => Ok(self.mark_or_section(folder, marks)?),
            DueItem::Sections(sections) => Ok(self.section_or_end(folder, sections)?),
            DueItem::Done => Ok(Item::End),
        }
    }
}
