//! A certificate, read item by item.
ghost use Rattle.std.specs.Prelude.{◌≡◌, ℕ, List, Option, Some, None, IfOk, IsErrOf, true};
ghost use Rattle.fx_edge.specs.OnlyReads.{OnlyReads};
ghost use Rattle.cert_bytes.specs.Reading.{item_at};
ghost use Rattle.cert_bytes.specs.Pieces.{Gives, AgreesTold};
ghost use Rattle.cert_bytes.specs.Due.{is_due};
ghost use Rattle.cert_bytes.specs.Readers.{Progress, Answers, StandsBehind, fresh};
ghost use Rattle.cert_bytes.specs.Certificates.{HasSpelling};

use crate::fault::{CertFault, Stop};
use crate::item::Item;
use crate::order::{DueItem, due_behind};
use crate::source::Source;
use crate::style::Style;
use fx_edge::Folder;
use std::alloc::{AllocError, Global};
use std::marker::Model;

/// A certificate under some name of a folder, and how far it was read.
#[derive(Drop)]
pub struct Reader {
    source: Source,
    due: DueItem,
    fault: Option<CertFault>,
}

impl Model for Reader {
    ghost use Rattle.cert_bytes.specs.Readers.{Progress, IsPaced};

    ghost Value = { Progress };

    ghost view = { λ r. record { ahead = r.source; due = r.due; fault = r.fault } };

    ghost invariant = { λ r. IsPaced r.due r.source.style r.source.at };
}

impl Reader {
    /// A reader that has read nothing.
    #[tactic(auto, using(crate::proofs::Paced::fresh_agrees))]
    pub fn new(alloc: Global, name: &str) -> Result<Reader, AllocError>
        ensures begins { IfOk result (λ reader. reader ≡ fresh name.now) }
        ensures agrees { IfOk result (λ reader. (told : Option (List ℕ))
            → AgreesTold told reader.ahead) }
    {
        let source = Source::new(alloc, name, Style::First)?;
        Ok(Reader {
            source,
            due: DueItem::Head,
            fault: None,
        })
    }

    // The next item, where no fault was met.
    #[inline(always)]
    #[tactic(auto, using(crate::proofs::Paced::paced_on, crate::proofs::Paced::few_seen, crate::proofs::Paced::agrees_back))]
    fn advance<F: Folder>(&mut self, folder: &mut F) -> Result<Item, Stop>
        requires sound { self.old.fault ≡ None }
        requires agrees { AgreesTold (F.told folder.old self.old.ahead.name) self.old.ahead }
        ensures gives { (all : List ℕ) → F.told folder.old self.old.ahead.name ≡ Some all
            → Gives (λ x. x) all self.old.ahead self.new.ahead result (item_at self.old.due) }
        ensures due { IfOk result (λ i. is_due self.old.due i ≡ true) }
        ensures spelled { IfOk result HasSpelling }
        ensures answers { Answers self.old result self.new }
        ensures stands { StandsBehind (F.told folder.new) self.old result self.new }
        ensures only_reads { OnlyReads F.Folder folder.old folder.new (IsErrOf result Stop.Failed) }
    {
        let start = self.source.at();
        let style = self.source.style();
        let read = self.source.entry(folder, self.due);
        self.source.bounded();
        match read {
            Ok(item) => {
                let behind = self.source.style().after(&item);
                self.source.restyle(behind);
                self.due = due_behind(self.due, &item);
                Ok(item)
            }
            Err(Stop::Fault(fault)) => {
                self.source.restyle(style);
                self.fault = Some(fault);
                Err(Stop::Fault(fault))
            }
            Err(Stop::Failed) => {
                self.source.back(start, style);
                Err(Stop::Failed)
            }
            Err(Stop::OutOfMemory) => {
                self.source.back(start, style);
                Err(Stop::OutOfMemory)
            }
        }
    }

    /// The next item, of a certificate in either version: its steps are named by their numbers in
    /// both. A fault is answered again at each later call, and the end behind the end.
    #[inline(always)]
    pub fn next<F: Folder>(&mut self, folder: &mut F) -> Result<Item, Stop>
        requires agrees { AgreesTold (F.told folder.old self.old.ahead.name) self.old.ahead }
        ensures gives { (all : List ℕ)
            → F.told folder.old self.old.ahead.name ≡ Some all → self.old.fault ≡ None
            → Gives (λ x. x) all self.old.ahead self.new.ahead result (item_at self.old.due) }
        ensures again { (f : CertFault) → self.old.fault ≡ Some f
            → (result ≡ Err (Stop.Fault f)) × (self.new ≡ self.old) }
        ensures due { IfOk result (λ i. is_due self.old.due i ≡ true) }
        ensures spelled { IfOk result HasSpelling }
        ensures answers { Answers self.old result self.new }
        ensures stands { StandsBehind (F.told folder.new) self.old result self.new }
        ensures only_reads { OnlyReads F.Folder folder.old folder.new (IsErrOf result Stop.Failed) }
    {
        self.source.bounded();
        if let Some(fault) = self.fault {
            return Err(Stop::Fault(fault));
        }
        self.advance(folder)
    }
}
