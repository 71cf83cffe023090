//! Items of sections, read through a folder.
ghost use Rattle.std.specs.Prelude.{◌≡◌, ◌≤◌, ◌<◌, ℕ, List, Some, IsErrOf, IfOk, true};
ghost use Rattle.fx_edge.specs.OnlyReads.{OnlyReads};
ghost use Rattle.cert_bytes.specs.Reading.{step_at, cut_head_at, cut_at, section_by};
ghost use Rattle.cert_bytes.specs.Reading.{section_item_at, case_count_at, root_by, root_item_at};
ghost use Rattle.cert_bytes.specs.Due.{is_of_section, is_of_root};
ghost use Rattle.cert_bytes.specs.Certificates.{HasSpelling, IsCounted};
ghost use Rattle.cert_bytes.specs.Pieces.{Gives, AgreesTold, kept_of};
ghost use Rattle.cert_bytes.specs.Calls.{ReadsOn};

use crate::cut_points::CutPoints;
use crate::fault::{CertKind, Stop, fault};
use crate::field::Field;
use crate::item::{Item, StepRow};
use crate::source::Source;
use facts::Fact;
use fx_edge::{Folder, Items};
use fx_model::ExprId;

impl Field for StepRow {
    ghost read_at = { step_at };

    ghost Keeps = { λ step. IsCounted step.premises };

    #[inline(always)]
    #[tactic(auto, unfolding(crate::specs::Reading::step_at))]
    fn read<F: Folder>(source: &mut Source, folder: &mut F) -> Result<StepRow, Stop> {
        let ((rule, arg), fact) = <((u8, u16), Fact)>::read(source, folder)?;
        let (with, premises) = <(Option<u64>, Items<u64>)>::read(source, folder)?;
        Ok(StepRow {
            rule,
            arg,
            fact,
            with,
            premises,
        })
    }
}

impl Source {
    #[tactic(auto, unfolding(crate::specs::Reading::cut_head_at))]
    fn cut_head<F: Folder>(&mut self, folder: &mut F) -> Result<(ExprId, u8), Stop>
        requires agrees { AgreesTold (F.told folder.old self.old.name) self.old }
        ensures gives { (all : List ℕ) → F.told folder.old self.old.name ≡ Some all
            → Gives (λ x. x) all self.old self.new result cut_head_at }
        ensures reads_on { ReadsOn kept_of (F.told folder.new) self.old self.new }
        ensures within { IfOk result (λ head. (1 ≤ head.1) × (head.1 ≤ 63)) }
        ensures only_reads { OnlyReads F.Folder folder.old folder.new (IsErrOf result Stop.Failed) }
    {
        let x = ExprId::read(self, folder)?;
        let count = self.count(folder)?;
        Ok((x, count))
    }

    #[tactic(auto, unfolding(crate::specs::Reading::cut_at))]
    fn cut<F: Folder>(&mut self, folder: &mut F) -> Result<Item, Stop>
        requires agrees { AgreesTold (F.told folder.old self.old.name) self.old }
        ensures gives { (all : List ℕ) → F.told folder.old self.old.name ≡ Some all
            → Gives (λ x. x) all self.old self.new result cut_at }
        ensures reads_on { ReadsOn kept_of (F.told folder.new) self.old self.new }
        ensures kind { IfOk result (λ i. is_of_section i ≡ true) }
        ensures spelled { IfOk result HasSpelling }
        ensures only_reads { OnlyReads F.Folder folder.old folder.new (IsErrOf result Stop.Failed) }
    {
        let (x, count) = self.cut_head(folder)?;
        let points = self.points(folder, count)?;
        Ok(Item::Cut(x, CutPoints::new(self.alloc(), points)?))
    }

    #[inline(always)]
    #[tactic(auto, unfolding(crate::specs::Reading::section_by, crate::specs::Reading::step_item_at, crate::specs::Reading::leaf_at, crate::specs::Reading::dead_at))]
    fn section_by<F: Folder>(&mut self, folder: &mut F, start: u64, tag: u8) -> Result<Item, Stop>
        requires agrees { AgreesTold (F.told folder.old self.old.name) self.old }
        ensures gives { (all : List ℕ) → F.told folder.old self.old.name ≡ Some all
            → Gives (λ x. x) all self.old self.new result (section_by start tag) }
        ensures reads_on { ReadsOn kept_of (F.told folder.new) self.old self.new }
        ensures kind { IfOk result (λ i. is_of_section i ≡ true) }
        ensures spelled { IfOk result HasSpelling }
        ensures only_reads { OnlyReads F.Folder folder.old folder.new (IsErrOf result Stop.Failed) }
    {
        match tag {
            1 => Ok(Item::Step(StepRow::read(self, folder)?)),
            2 => Ok(self.cut(folder)?),
            3 => Ok(Item::Leaf(Items::<u64>::read(self, folder)?)),
            4 => Ok(Item::Dead(u64::read(self, folder)?)),
            _ => Err(fault(CertKind::BadTag, start)),
        }
    }

    /// The next item of a section.
    #[inline(always)]
    #[tactic(auto, unfolding(crate::specs::Reading::section_item_at))]
    pub fn section_item<F: Folder>(&mut self, folder: &mut F) -> Result<Item, Stop>
        requires agrees { AgreesTold (F.told folder.old self.old.name) self.old }
        ensures gives { (all : List ℕ) → F.told folder.old self.old.name ≡ Some all
            → Gives (λ x. x) all self.old self.new result section_item_at }
        ensures reads_on { ReadsOn kept_of (F.told folder.new) self.old self.new }
        ensures kind { IfOk result (λ i. is_of_section i ≡ true) }
        ensures spelled { IfOk result HasSpelling }
        ensures moves { IfOk result (λ _. self.old.at < self.new.at) }
        ensures only_reads { OnlyReads F.Folder folder.old folder.new (IsErrOf result Stop.Failed) }
    {
        let start = self.at();
        let tag = u8::read(self, folder)?;
        Ok(self.section_by(folder, start, tag)?)
    }

    #[tactic(auto, unfolding(crate::specs::Reading::case_count_at))]
    fn case_count<F: Folder>(&mut self, folder: &mut F) -> Result<u8, Stop>
        requires agrees { AgreesTold (F.told folder.old self.old.name) self.old }
        ensures gives { (all : List ℕ) → F.told folder.old self.old.name ≡ Some all
            → Gives (λ x. x) all self.old self.new result case_count_at }
        ensures reads_on { ReadsOn kept_of (F.told folder.new) self.old self.new }
        ensures within { IfOk result (λ n. (2 ≤ n) × (n ≤ 64)) }
        ensures only_reads { OnlyReads F.Folder folder.old folder.new (IsErrOf result Stop.Failed) }
    {
        let start = self.at();
        let count = self.tiny(folder)?;
        if count < 2 {
            return Err(fault(CertKind::BadNumber, start));
        }
        if count > 64 {
            return Err(fault(CertKind::BadNumber, start));
        }
        Ok(count)
    }

    #[tactic(auto, unfolding(crate::specs::Reading::root_by, crate::specs::Reading::cases_at))]
    fn root_by<F: Folder>(&mut self, folder: &mut F, start: u64, tag: u8) -> Result<Item, Stop>
        requires agrees { AgreesTold (F.told folder.old self.old.name) self.old }
        ensures gives { (all : List ℕ) → F.told folder.old self.old.name ≡ Some all
            → Gives (λ x. x) all self.old self.new result (root_by start tag) }
        ensures reads_on { ReadsOn kept_of (F.told folder.new) self.old self.new }
        ensures kind { IfOk result (λ i. is_of_root i ≡ true) }
        ensures spelled { IfOk result HasSpelling }
        ensures only_reads { OnlyReads F.Folder folder.old folder.new (IsErrOf result Stop.Failed) }
    {
        if tag == 5 {
            return Ok(Item::Cases(self.case_count(folder)?));
        }
        Ok(self.section_by(folder, start, tag)?)
    }

    /// The item with which the sections begin: their number, or the first item of the one that
    /// there is.
    #[tactic(auto, unfolding(crate::specs::Reading::root_item_at))]
    pub fn root_item<F: Folder>(&mut self, folder: &mut F) -> Result<Item, Stop>
        requires agrees { AgreesTold (F.told folder.old self.old.name) self.old }
        ensures gives { (all : List ℕ) → F.told folder.old self.old.name ≡ Some all
            → Gives (λ x. x) all self.old self.new result root_item_at }
        ensures reads_on { ReadsOn kept_of (F.told folder.new) self.old self.new }
        ensures kind { IfOk result (λ i. is_of_root i ≡ true) }
        ensures spelled { IfOk result HasSpelling }
        ensures moves { IfOk result (λ _. self.old.at < self.new.at) }
        ensures only_reads { OnlyReads F.Folder folder.old folder.new (IsErrOf result Stop.Failed) }
    {
        let start = self.at();
        let tag = u8::read(self, folder)?;
        Ok(self.root_by(folder, start, tag)?)
    }
}
