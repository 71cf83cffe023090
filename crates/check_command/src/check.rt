// The status and the lines for a text and a certificate.
ghost use Rattle.std.specs.Prelude.{◌≡◌, ℕ, List, Some, IfOk, IsErrOf};
ghost use Rattle.fx_edge.specs.OnlyReads.{OnlyReads};
ghost use Rattle.script_grammar.specs.Spells.{View, Spells};
ghost use Rattle.report.specs.Proved as spec;
ghost use Rattle.check_command.specs.Checked.{CheckPrints, IsAcceptable};

use cert_bytes::Reader;
use cert_checker::{CheckStop, Lines, bytes_are_accepted};
use command_runs::Status;
use fx_edge::Folder;
use report::certificates::{cert_fault_line, check_fault_line};
use report::proved::answer_text;
use script_checker::check_script;
use script_grammar::{Script, parse, script_or_refusal};
use script_texts::refused_line;
use std::alloc::{AllocError, Global};
use whole_texts::ReadStop;

// The lines of an accepted certificate.
fn checked_text(alloc: Global, script: &Script<'_>, lines: &Lines) -> Result<Vec<u8>, AllocError>
    ensures { IfOk result (λ text. text.items ≡ spec.answer_text
        script.now.text script.now.tokens script.now.spans lines.now.rows lines.now.marks) }
{
    answer_text(
        alloc,
        script.text(),
        script.tokens(),
        script.goal_spans(),
        lines.rows.as_slice(),
        lines.marks.as_slice(),
    )
}

// The status and the lines for a script and the certificate of this name.
fn check_certificate<F: Folder>(
    alloc: Global,
    script: &Script<'_>,
    name: &str,
    folder: &mut F,
) -> Result<(Status, Vec<u8>), ReadStop>
    ensures prints { IfOk result (λ r.
        CheckPrints script.now.text (F.told folder.old name.now) r.0 r.1.items) }
    ensures accepted { (all : List ℕ) → F.told folder.old name.now ≡ Some all
        → IsAcceptable script.now.text all → IfOk result (λ r. r.0 ≡ Status.Answered) }
    ensures only_reads { OnlyReads F.Folder folder.old folder.new (IsErrOf result ReadStop.Fault) }
{
    script.laws();
    script_or_refusal();
    bytes_are_accepted();
    let mut reader = Reader::new(alloc, name)?;
    match check_script(alloc, script, &mut reader, folder) {
        Ok(lines) => Ok((Status::Answered, checked_text(alloc, script, &lines)?)),
        Err(CheckStop::Cert(fault)) => Ok((Status::Certificate, cert_fault_line(alloc, fault)?)),
        Err(CheckStop::Check(fault)) => Ok((Status::Certificate, check_fault_line(alloc, fault)?)),
        Err(CheckStop::Failed) => Err(ReadStop::Fault),
        Err(CheckStop::OutOfMemory) => Err(ReadStop::OutOfMemory),
    }
}

/// What is answered to a text and the certificate of this name: the status and all lines. The
/// certificate is read only where the text spells a script. `Fault` comes only where a read of it
/// failed in this call, `OutOfMemory` only where memory runs out.
pub fn check_answer<F: Folder>(
    alloc: Global,
    text: &[u8],
    name: &str,
    folder: &mut F,
) -> Result<(Status, Vec<u8>), ReadStop>
    ensures prints { IfOk result (λ r.
        CheckPrints text.now (F.told folder.old name.now) r.0 r.1.items) }
    ensures accepted { (all : List ℕ) → F.told folder.old name.now ≡ Some all
        → IsAcceptable text.now all → IfOk result (λ r. r.0 ≡ Status.Answered) }
    ensures script { IsErrOf result ReadStop.Fault → (s : View) × Spells text.now s }
    ensures only_reads { OnlyReads F.Folder folder.old folder.new (IsErrOf result ReadStop.Fault) }
{
    script_or_refusal();
    match parse(alloc, text) {
        Ok(script) => check_certificate(alloc, &script, name, folder),
        Err(stop) => Ok((Status::Script, refused_line(alloc, text, stop)?)),
    }
}
