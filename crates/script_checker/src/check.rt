//! A certificate under some name of a folder, checked for a script.
ghost use Rattle.std.specs.Prelude.{◌≡◌, ℕ, List, Some, length, IfOk, IsErrOf};
ghost use Rattle.fx_model.specs.Expression.{Assignment};
ghost use Rattle.fx_edge.specs.OnlyReads.{OnlyReads};
ghost use Rattle.script_meets.specs.Meets.{Meets};
ghost use Rattle.script_meets.specs.Held.{AreHeld};
ghost use Rattle.rewrite_hints.specs.Marks.{AreMarks};
ghost use Rattle.cert_bytes.specs.Pieces.{AgreesTold, name_of};
ghost use Rattle.cert_bytes.specs.Calls.{ReadsOn};
ghost use Rattle.cert_checker.specs.declared.fault.CheckStop.TheVariants as CheckStop;
ghost use Rattle.cert_checker.specs.Checking.{IsFresh};
ghost use Rattle.script_checker.specs.Checking.{AnswersFor};

use crate::subject::subject_of;
use cert_bytes::Reader;
use cert_checker::{CheckStop, Lines, check_subject};
use fx_edge::Folder;
use rewrite_hints::rows_are_true;
use script_claims::{goals_are_enough, hypotheses_hold};
use script_grammar::Script;
use script_meets::met_scripts;
use std::alloc::Global;

/// Checks the certificate under the reader's name for the script: its lines where it is accepted,
/// or else the first fault in the order of reading. `Failed` comes only where a read of the folder
/// failed in this call.
pub fn check_script<F: Folder>(
    alloc: Global,
    script: &Script<'_>,
    reader: &mut Reader,
    folder: &mut F,
) -> Result<Lines, CheckStop>
    requires fresh { IsFresh reader.old }
    requires agrees { AgreesTold (F.told folder.old reader.old.ahead.name) reader.old.ahead }
    // Where the folder tells the bytes, the answer is that of them.
    ensures of_told { (all : List ℕ) → F.told folder.old reader.old.ahead.name ≡ Some all
        → AnswersFor script.now all reader.old.ahead result }
    // Whatever the bytes are, lines hold of every assignment that meets the script, and the goals
    // are true of it.
    ensures holds { IfOk result (λ lines. (a : Assignment) → Meets a script.now
        → AreHeld script.now a lines.rows) }
    ensures count { IfOk result (λ lines. length lines.rows ≡ length script.now.goals) }
    ensures marks { IfOk result
        (λ lines. AreMarks script.now.nodes script.now.hints.rewrites lines.marks) }
    ensures reads_on { ReadsOn name_of (F.told folder.new) reader.old.ahead reader.new.ahead }
    ensures only_reads { OnlyReads F.Folder folder.old folder.new
        (IsErrOf result CheckStop.Failed) }
{
    script.laws();
    goals_are_enough();
    hypotheses_hold();
    rows_are_true();
    met_scripts();
    let subject = subject_of(alloc, script)?;
    check_subject(alloc, subject, reader, folder)
}
