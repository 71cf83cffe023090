//! A script's certificate, written to a file.
ghost use Rattle.std.specs.Prelude.{IsErrOf, OnOk, OnErr};
ghost use Rattle.rewrite_hints.specs.Marks.{AreMarks};
ghost use Rattle.settler.specs.Jobs.{IsJob};
ghost use Rattle.whole_texts.specs.OnlyWrites.{OnlyWrites};
ghost use Rattle.cert_writer.specs.Written.{IsProvedWith, OfProved, HoldsCertificate, HoldsFront};
ghost use Rattle.cert_writer.specs.declared.walk.WriteStop.TheVariants as WriteStop;

use crate::cases::{write_cases, write_end};
use crate::head::spell_head;
use crate::laws::writing_goes_on;
use crate::walk::WriteStop;
use answer_certificates::{
    script_has_room, scripts_have_roots, subjects_are_written, universes_are_small,
};
use facts::HintMark;
use fx_edge::Folder;
use settler::Job;
use std::alloc::Global;
use whole_texts::append_all;

/// Makes the file new and writes to it the certificate of a job that is proved, in version 2. The
/// marks are those of its script's hints. Each box is settled again: what was known of it is gone.
/// `Failed` comes only where a write of the folder failed in this call, `OutOfMemory` only where
/// memory runs out. After a stop the file holds what it held, where making it new failed, or a
/// front of such a certificate.
pub fn write_cert<F: Folder>(
    alloc: Global,
    job: &mut Job<'_, '_>,
    marks: &[HintMark],
    folder: &mut F,
    name: &str,
) -> Result<(), WriteStop>
    requires job { IsJob job.old }
    requires marks { AreMarks job.old.script.now.nodes job.old.script.now.hints.rewrites marks.now }
    requires proved { IsProvedWith
        job.old.script.now job.old.options.rounds job.old.options.depth }
    ensures ok { OnOk result (OfProved
        job.old.script.now job.old.options.rounds job.old.options.depth (λ lines.
        HoldsCertificate job.old.script.now lines
        (F.told folder.old name.now) (F.told folder.new name.now))) }
    ensures err { OnErr result (OfProved
        job.old.script.now job.old.options.rounds job.old.options.depth (λ lines.
        HoldsFront job.old.script.now lines
        (F.told folder.old name.now) (F.told folder.new name.now))) }
    ensures only_writes { OnlyWrites F.Folder name.now folder.old folder.new
        (IsErrOf result WriteStop.Failed) }
{
    writing_goes_on();
    job.script.laws();
    script_has_room(job.script, &job.universe);
    scripts_have_roots();
    subjects_are_written();
    universes_are_small();
    folder.fresh(name)?;
    let mut bytes = Vec::new(alloc);
    spell_head(job.universe.dag(), marks, job.cases.len(), &mut bytes)?;
    append_all(folder, name, &bytes)?;
    let seen = write_cases(alloc, job, folder, name)?;
    write_end(alloc, folder, name, seen)?;
    Ok(())
}
