// The status and the lines for a text and a certificate, which is written anew.
ghost use Rattle.std.specs.Prelude.{◌≡◌, ◌≢◌, ◌≤◌, ◌⊎◌, ℕ, List, Some, IfOk, IsErrOf};
ghost use Rattle.std.specs.List.{AllByRecursion};
ghost use Rattle.fx_edge.specs.Outside.{Rose};
ghost use Rattle.fx_edge.specs.OnlyReads.{OnlyReads};
ghost use Rattle.script_grammar.specs.Spells.{View, Spells};
ghost use Rattle.cert_bytes.specs.Certificates.{HasSpelling};
ghost use Rattle.cert_bytes.specs.Reading.{cursor};
ghost use Rattle.cert_bytes.specs.declared.style.Style.TheVariants.{First};
ghost use Rattle.cert_checker.specs.Keeping.{lines_of};
ghost use Rattle.cert_checker.specs.declared.fault.CheckStop.TheVariants as CheckStop;
ghost use Rattle.script_checker.specs.Checking.{ChecksFor};
ghost use Rattle.cert_trim.specs.Law.{AreLedBySome};
ghost use Rattle.trim_command.specs.Trimmed.{AreTrimmable};
ghost use Rattle.trim_command.specs.Writing.{Answers, BreaksOff};
ghost use Rattle.trim_command.specs.declared.stop.TrimStop.TheVariants as TrimStop;

use crate::stop::TrimStop;
use crate::writing::write_trimmed;
use cert_bytes::Reader;
use cert_checker::{Accepted, CheckStop};
use cert_rewriting::WriteStop;
use cert_trim::trimmed_are_accepted;
use command_runs::Status;
use fx_edge::Folder;
use report::certificates::{cert_fault_line, check_fault_line};
use script_checker::script_items;
use script_grammar::{Script, parse};
use script_texts::refused_line;
use std::alloc::Global;

// The items of the certificate of this name, where it is accepted for the script.
fn items_of<F: Folder>(
    alloc: Global,
    script: &Script<'_>,
    name: &str,
    folder: &mut F,
) -> Result<Accepted, CheckStop>
    ensures checks { (all : List ℕ) → F.told folder.old name.now ≡ Some all
        → ChecksFor script.now (cursor First all 0) (lines_of result) }
    ensures trimmable { IfOk result (λ a.
        AreTrimmable script.now (F.told folder.old name.now) a.items.items) }
    ensures led { IfOk result (λ a. AreLedBySome a.items.items) }
    ensures spelled { IfOk result (λ a. AllByRecursion HasSpelling a.items.items) }
    ensures only_reads { OnlyReads F.Folder folder.old folder.new
        (IsErrOf result CheckStop.Failed) }
{
    trimmed_are_accepted();
    let mut reader = Reader::new(alloc, name)?;
    script_items(alloc, script, &mut reader, folder)
}

// The status and the lines for a script and the certificate of this name. Where it is accepted, it
// is written anew without its unused steps.
fn trim_certificate<F: Folder>(
    alloc: Global,
    script: &Script<'_>,
    cert: &str,
    folder: &mut F,
    new: &str,
) -> Result<(Status, Vec<u8>), TrimStop>
    ensures answers { IfOk result (λ r. Answers script.now.text (F.told folder.old cert.now)
        (F.told folder.old new.now) (F.told folder.new new.now) r.0 r.1.items) }
    ensures unwritten { IsErrOf result TrimStop.Unwritten
        → BreaksOff script.now.text (F.told folder.old cert.now)
        (F.told folder.old new.now) (F.told folder.new new.now) }
    ensures starved { IsErrOf result TrimStop.OutOfMemory
        → (F.told folder.new new.now ≡ F.told folder.old new.now)
        ⊎ BreaksOff script.now.text (F.told folder.old cert.now)
        (F.told folder.old new.now) (F.told folder.new new.now) }
    ensures unread { IsErrOf result TrimStop.Unread
        → F.told folder.new new.now ≡ F.told folder.old new.now }
    ensures others { (other : List ℕ) → other ≢ new.now
        → F.told folder.new other ≡ F.told folder.old other }
    ensures reads { F.read_faults folder.old ≤ F.read_faults folder.new }
    ensures unread_cause { IsErrOf result TrimStop.Unread
        → Rose (F.read_faults folder.old) (F.read_faults folder.new) }
    ensures unwritten_cause { IsErrOf result TrimStop.Unwritten
        → Rose (F.write_faults folder.old) (F.write_faults folder.new) }
{
    script.laws();
    match items_of(alloc, script, cert, folder) {
        Ok(accepted) => match write_trimmed(alloc, accepted.items, folder, new) {
            Ok(answer) => Ok(answer),
            Err(WriteStop::Failed) => Err(TrimStop::Unwritten),
            Err(WriteStop::OutOfMemory) => Err(TrimStop::OutOfMemory),
        },
        Err(CheckStop::Cert(fault)) => Ok((Status::Certificate, cert_fault_line(alloc, fault)?)),
        Err(CheckStop::Check(fault)) => Ok((Status::Certificate, check_fault_line(alloc, fault)?)),
        Err(CheckStop::Failed) => Err(TrimStop::Unread),
        Err(CheckStop::OutOfMemory) => Err(TrimStop::OutOfMemory),
    }
}

/// What is answered to a text and the certificate of this name: the status and all lines. The
/// certificate is read only where the text spells a script, and the new file is made only where it
/// is accepted, once the line is made. `Unread` and `Unwritten` come only where a read or a write
/// of the folder failed in this call, `OutOfMemory` only where memory runs out.
pub fn trim_answer<F: Folder>(
    alloc: Global,
    text: &[u8],
    cert: &str,
    folder: &mut F,
    new: &str,
) -> Result<(Status, Vec<u8>), TrimStop>
    ensures answers { IfOk result (λ r. Answers text.now (F.told folder.old cert.now)
        (F.told folder.old new.now) (F.told folder.new new.now) r.0 r.1.items) }
    ensures unwritten { IsErrOf result TrimStop.Unwritten
        → BreaksOff text.now (F.told folder.old cert.now)
        (F.told folder.old new.now) (F.told folder.new new.now) }
    ensures starved { IsErrOf result TrimStop.OutOfMemory
        → (F.told folder.new new.now ≡ F.told folder.old new.now)
        ⊎ BreaksOff text.now (F.told folder.old cert.now)
        (F.told folder.old new.now) (F.told folder.new new.now) }
    ensures unread { IsErrOf result TrimStop.Unread
        → ((s : View) × Spells text.now s)
        × (F.told folder.new new.now ≡ F.told folder.old new.now) }
    ensures others { (other : List ℕ) → other ≢ new.now
        → F.told folder.new other ≡ F.told folder.old other }
    ensures reads { F.read_faults folder.old ≤ F.read_faults folder.new }
    ensures unread_cause { IsErrOf result TrimStop.Unread
        → Rose (F.read_faults folder.old) (F.read_faults folder.new) }
    ensures unwritten_cause { IsErrOf result TrimStop.Unwritten
        → Rose (F.write_faults folder.old) (F.write_faults folder.new) }
{
    match parse(alloc, text) {
        Ok(script) => trim_certificate(alloc, &script, cert, folder, new),
        Err(stop) => Ok((Status::Script, refused_line(alloc, text, stop)?)),
    }
}
