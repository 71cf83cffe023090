//! A certificate under some name of a folder, checked item by item, with its items kept.
ghost use Rattle.std.specs.Prelude.{◌≡◌, ◌≤◌, ◌^◌, ℕ, List, Some, IfOk, IsErrOf};
ghost use Rattle.std.specs.List.{AllByRecursion};
ghost use Rattle.fx_edge.specs.OnlyReads.{OnlyReads};
ghost use Rattle.cert_bytes.specs.Certificates.{HasSpelling};
ghost use Rattle.cert_bytes.specs.Pieces.{AgreesTold, cursor_of, name_of};
ghost use Rattle.cert_bytes.specs.declared.order.DueItem.TheVariants.{Head};
ghost use Rattle.cert_bytes.specs.ReadOut.{AreRead};
ghost use Rattle.cert_bytes.specs.Calls.{ReadsOn};
ghost use Rattle.cert_checker.specs.declared.fault.CheckStop.TheVariants as CheckStop;
ghost use Rattle.cert_checker.specs.Checking.{IsFresh, Checks, Turns, IsCountable, CanTurn};
ghost use Rattle.cert_checker.specs.Keeping.{TookItem, lines_of, AreAcceptedItems, AnswersItems};

use crate::chain::Chain;
use crate::fault::CheckStop;
use crate::laws::each_case_has_its_root;
use crate::lines::Lines;
use crate::subject::Subject;
use cert_bytes::{Item, Reader, certificates_are_spelled_once, item_fits};
use fx_edge::Folder;
use std::alloc::Global;

/// A certificate that is accepted: its items, and the lines that its leaves show.
#[derive(Drop)]
pub struct Accepted {
    pub items: Vec<Item>,
    pub lines: Lines,
}

// Reads an item and takes it.
fn next_item<F: Folder>(
    chain: &mut Chain,
    reader: &mut Reader,
    folder: &mut F,
) -> Result<Item, CheckStop>
    requires can_turn { CanTurn chain.old reader.old }
    requires agrees { AgreesTold (F.told folder.old reader.old.ahead.name) reader.old.ahead }
    ensures turns { Turns
        (F.told folder.old reader.old.ahead.name) chain.old chain.new reader.old reader.new result }
    ensures took { IfOk result (TookItem
        (F.told folder.old reader.old.ahead.name) chain.old chain.new reader.old reader.new) }
    ensures reads_on { ReadsOn name_of (F.told folder.new) reader.old.ahead reader.new.ahead }
    ensures within { reader.new.ahead.at ≤ 2 ^ 44 }
    ensures only_reads { OnlyReads F.Folder folder.old folder.new
        (IsErrOf result CheckStop.Failed) }
{
    let item = reader.next(folder)?;
    item_fits(&item);
    chain.take(&item)?;
    Ok(item)
}

// Reads, takes and keeps items to the end.
fn keep_items<F: Folder>(
    alloc: Global,
    subject: Subject,
    reader: &mut Reader,
    folder: &mut F,
) -> Result<Accepted, CheckStop>
    requires countable { IsCountable subject }
    requires fresh { IsFresh reader.old }
    requires agrees { AgreesTold (F.told folder.old reader.old.ahead.name) reader.old.ahead }
    ensures checks { (all : List ℕ) → F.told folder.old reader.old.ahead.name ≡ Some all
        → Checks subject (cursor_of all reader.old.ahead) (lines_of result) }
    ensures read { (all : List ℕ) → F.told folder.old reader.old.ahead.name ≡ Some all
        → IfOk result (λ a. AreRead Head (cursor_of all reader.old.ahead) a.items.items) }
    ensures accepts { IfOk result (AreAcceptedItems subject) }
    ensures reads_on { ReadsOn name_of (F.told folder.new) reader.old.ahead reader.new.ahead }
    ensures only_reads { OnlyReads F.Folder folder.old folder.new
        (IsErrOf result CheckStop.Failed) }
{
    each_case_has_its_root();
    let mut chain = Chain::new(alloc, subject)?;
    let mut items = Vec::new(alloc);
    while !chain.is_ended() {
        let item = next_item(&mut chain, reader, folder)?;
        let Ok(()) = items.push(item) else {
            return Err(CheckStop::OutOfMemory);
        };
    }
    Ok(Accepted {
        items,
        lines: chain.into_lines(),
    })
}

/// Checks the certificate under the reader's name against the subject, as `check_subject` does, and
/// keeps its items. `Failed` comes only where a read of the folder failed in this call.
pub fn accepted_items<F: Folder>(
    alloc: Global,
    subject: Subject,
    reader: &mut Reader,
    folder: &mut F,
) -> Result<Accepted, CheckStop>
    requires countable { IsCountable subject }
    requires fresh { IsFresh reader.old }
    requires agrees { AgreesTold (F.told folder.old reader.old.ahead.name) reader.old.ahead }
    // Where the folder tells the bytes, the answer is that of them.
    ensures of_told { (all : List ℕ) → F.told folder.old reader.old.ahead.name ≡ Some all
        → AnswersItems subject all reader.old.ahead result }
    // Whatever the bytes are, the items are a certificate that is accepted with these lines.
    ensures accepts { IfOk result (AreAcceptedItems subject) }
    ensures spelled { IfOk result (λ a. AllByRecursion HasSpelling a.items.items) }
    ensures reads_on { ReadsOn name_of (F.told folder.new) reader.old.ahead reader.new.ahead }
    ensures only_reads { OnlyReads F.Folder folder.old folder.new
        (IsErrOf result CheckStop.Failed) }
{
    certificates_are_spelled_once();
    keep_items(alloc, subject, reader, folder)
}
