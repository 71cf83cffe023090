//! A certificate under some name of a folder, checked for a script, with its items kept.
ghost use Rattle.std.specs.Prelude.{◌≡◌, ℕ, List, Some, IfOk, IsErrOf};
ghost use Rattle.std.specs.List.{AllByRecursion};
ghost use Rattle.fx_edge.specs.OnlyReads.{OnlyReads};
ghost use Rattle.cert_bytes.specs.Certificates.{HasSpelling};
ghost use Rattle.cert_bytes.specs.Pieces.{AgreesTold, name_of};
ghost use Rattle.cert_bytes.specs.Calls.{ReadsOn};
ghost use Rattle.cert_checker.specs.declared.fault.CheckStop.TheVariants as CheckStop;
ghost use Rattle.cert_checker.specs.Checking.{IsFresh};
ghost use Rattle.script_checker.specs.Checking.{AreAcceptedItemsFor, AnswersItemsFor};

use crate::subject::subject_of;
use cert_bytes::Reader;
use cert_checker::{Accepted, CheckStop, accepted_items};
use fx_edge::Folder;
use script_grammar::Script;
use std::alloc::Global;

/// Checks the certificate under the reader's name for the script, as `check_script` does, and keeps
/// its items. `Failed` comes only where a read of the folder failed in this call.
pub fn script_items<F: Folder>(
    alloc: Global,
    script: &Script<'_>,
    reader: &mut Reader,
    folder: &mut F,
) -> Result<Accepted, CheckStop>
    requires fresh { IsFresh reader.old }
    requires agrees { AgreesTold (F.told folder.old reader.old.ahead.name) reader.old.ahead }
    // Where the folder tells the bytes, the answer is that of them.
    ensures of_told { (all : List ℕ) → F.told folder.old reader.old.ahead.name ≡ Some all
        → AnswersItemsFor script.now all reader.old.ahead result }
    // Whatever the bytes are, the items are a certificate that is accepted with these lines.
    ensures accepts { IfOk result (AreAcceptedItemsFor script.now) }
    ensures spelled { IfOk result (λ a. AllByRecursion HasSpelling a.items.items) }
    ensures reads_on { ReadsOn name_of (F.told folder.new) reader.old.ahead reader.new.ahead }
    ensures only_reads { OnlyReads F.Folder folder.old folder.new
        (IsErrOf result CheckStop.Failed) }
{
    script.laws();
    let subject = subject_of(alloc, script)?;
    accepted_items(alloc, subject, reader, folder)
}
