//! A certificate under some name of a folder, checked item by item.
ghost use Rattle.std.specs.Prelude.{◌≡◌, ◌≤◌, ◌^◌, ℕ, List, Some, IfOk, IsErrOf};
ghost use Rattle.fx_model.specs.Expression.{Assignment, IsOrdered};
ghost use Rattle.fx_edge.specs.OnlyReads.{OnlyReads};
ghost use Rattle.cert_bytes.specs.Pieces.{AgreesTold, cursor_of, name_of};
ghost use Rattle.cert_bytes.specs.Calls.{ReadsOn};
ghost use Rattle.cert_checker.specs.declared.fault.CheckStop.TheVariants as CheckStop;
ghost use Rattle.cert_checker.specs.Met.{NamesNodes, Meets, LinesHold};
ghost use Rattle.cert_checker.specs.Checking.{IsFresh, Checks, Turns, IsCountable, AreLinesOf};
ghost use Rattle.cert_checker.specs.Checking.{AnswersBytes, CanTurn};

use crate::chain::Chain;
use crate::fault::CheckStop;
use crate::laws::{accepted_lines_hold, bytes_are_accepted};
use crate::lines::Lines;
use crate::subject::Subject;
use cert_bytes::Reader;
use fx_edge::Folder;
use std::alloc::Global;

// Reads an item and takes it.
fn turn<F: Folder>(chain: &mut Chain, reader: &mut Reader, folder: &mut F) -> Result<(), CheckStop>
    requires can_turn { CanTurn chain.old reader.old }
    requires agrees { AgreesTold (F.told folder.old reader.old.ahead.name) reader.old.ahead }
    ensures turns { Turns (F.told folder.old reader.old.ahead.name) chain.old chain.new
        reader.old reader.new result }
    ensures reads_on { ReadsOn name_of (F.told folder.new) reader.old.ahead reader.new.ahead }
    ensures within { reader.new.ahead.at ≤ 2 ^ 44 }
    ensures only_reads { OnlyReads F.Folder folder.old folder.new
        (IsErrOf result CheckStop.Failed) }
{
    let item = reader.next(folder)?;
    chain.take(&item)?;
    Ok(())
}

// Reads and takes items to the end.
fn check_items<F: Folder>(
    alloc: Global,
    subject: Subject,
    reader: &mut Reader,
    folder: &mut F,
) -> Result<Lines, CheckStop>
    requires countable { IsCountable subject }
    requires fresh { IsFresh reader.old }
    requires agrees { AgreesTold (F.told folder.old reader.old.ahead.name) reader.old.ahead }
    ensures checks { (all : List ℕ) → F.told folder.old reader.old.ahead.name ≡ Some all
        → Checks subject (cursor_of all reader.old.ahead) result }
    ensures holds { IsOrdered subject.nodes → NamesNodes subject → IfOk result (λ lines.
        (a : Assignment) → Meets subject a → LinesHold subject.nodes a subject.goals lines.rows) }
    ensures lines { IfOk result (AreLinesOf subject) }
    ensures reads_on { ReadsOn name_of (F.told folder.new) reader.old.ahead reader.new.ahead }
    ensures only_reads { OnlyReads F.Folder folder.old folder.new
        (IsErrOf result CheckStop.Failed) }
{
    accepted_lines_hold();
    let mut chain = Chain::new(alloc, subject)?;
    while !chain.is_ended() {
        turn(&mut chain, reader, folder)?;
    }
    Ok(chain.into_lines())
}

/// Checks the certificate under the reader's name against the subject: its lines where it is
/// accepted, or else the first fault in the order of reading. `Failed` comes only where a read of
/// the folder failed in this call.
pub fn check_subject<F: Folder>(
    alloc: Global,
    subject: Subject,
    reader: &mut Reader,
    folder: &mut F,
) -> Result<Lines, CheckStop>
    requires countable { IsCountable subject }
    requires fresh { IsFresh reader.old }
    requires agrees { AgreesTold (F.told folder.old reader.old.ahead.name) reader.old.ahead }
    // Where the folder tells the bytes, the answer is that of them.
    ensures of_told { (all : List ℕ) → F.told folder.old reader.old.ahead.name ≡ Some all
        → AnswersBytes subject all reader.old.ahead result }
    // Whatever the bytes are, lines hold of every assignment that meets the subject.
    ensures holds { IsOrdered subject.nodes → NamesNodes subject → IfOk result (λ lines.
        (a : Assignment) → Meets subject a → LinesHold subject.nodes a subject.goals lines.rows) }
    ensures lines { IfOk result (AreLinesOf subject) }
    ensures reads_on { ReadsOn name_of (F.told folder.new) reader.old.ahead reader.new.ahead }
    ensures only_reads { OnlyReads F.Folder folder.old folder.new
        (IsErrOf result CheckStop.Failed) }
{
    bytes_are_accepted();
    check_items(alloc, subject, reader, folder)
}
