//! The sections of a script's cases, one after the other.
ghost use Rattle.std.specs.Prelude.{◌≡◌, ◌<◌, ◌+◌, length, IfOk, IsErrOf, OnOk, OnErr};
ghost use Rattle.std.specs.Io.KnownBytes.{Appends};
ghost use Rattle.settler.specs.Jobs.{IsJob, IsSameJob};
ghost use Rattle.cert_bytes.specs.declared.item.Item.TheVariants as item;
ghost use Rattle.cert_bytes.specs.Styles.{none_seen};
ghost use Rattle.cert_bytes.specs.Spelling.{spelling_of};
ghost use Rattle.whole_texts.specs.OnlyWrites.{OnlyWrites};
ghost use Rattle.whole_texts.specs.Pieces.{AppendsFront};
ghost use Rattle.cert_writer.specs.Cases.{bare, Stands, OfStanding, GoesOn, IsCompleted};
ghost use Rattle.cert_writer.specs.Cases.{GrewFront};
ghost use Rattle.cert_writer.specs.declared.walk.WriteStop.TheVariants as WriteStop;

use crate::laws::writing_goes_on;
use crate::walk::{Boxes, WriteStop, write_box};
use answer_certificates::script_has_room;
use cert_bytes::{Item, Seen, write_item2};
use fx_edge::{Folder, Path};
use settler::Job;
use std::alloc::Global;
use universe::assume;
use whole_texts::append_all;

// Writes the root section of the case with this number, where this was seen before it. It answers
// what was seen behind it.
fn write_case<F: Folder>(
    alloc: Global,
    job: &mut Job<'_, '_>,
    folder: &mut F,
    name: &str,
    number: usize,
    seen: Seen,
) -> Result<Seen, WriteStop>
    requires job { IsJob job.old }
    requires number { number < length job.old.cases.items }
    requires stands { Stands job.old.script.now (bare job.old.universe)
        job.old.options.rounds job.old.options.depth number seen }
    ensures ok { IfOk result (λ next.
        OfStanding job.old.script.now (bare job.old.universe)
        job.old.options.rounds job.old.options.depth number seen
        (λ w items. GoesOn w (number + 1) next items
        (F.told folder.old name.now) (F.told folder.new name.now))) }
    ensures err { OnErr result (OfStanding job.old.script.now (bare job.old.universe)
        job.old.options.rounds job.old.options.depth number seen
        (λ w items. GrewFront w items (F.told folder.old name.now) (F.told folder.new name.now))) }
    ensures job { IsJob job.new }
    ensures same { IsSameJob job.old job.new }
    ensures bare { bare job.new.universe ≡ bare job.old.universe }
    ensures only_writes { OnlyWrites F.Folder name.now folder.old folder.new
        (IsErrOf result WriteStop.Failed) }
{
    writing_goes_on();
    let case = &job.cases[number];
    assume(alloc, &mut job.universe, job.script, case.claims.as_slice())?;
    case.plan.laws();
    job.universe.laws();
    script_has_room(job.script, &job.universe);
    let boxes = Boxes {
        alloc,
        universe: &job.universe,
        plan: &case.plan,
        rounds: job.options.rounds,
    };
    let next = write_box(&boxes, folder, name, Path::root(), None, seen)?;
    Ok(next)
}

// Writes the root sections of these cases of the script, in order. It answers what was seen.
pub(crate) fn write_cases<F: Folder>(
    alloc: Global,
    job: &mut Job<'_, '_>,
    folder: &mut F,
    name: &str,
) -> Result<Seen, WriteStop>
    requires job { IsJob job.old }
    requires stands { Stands job.old.script.now (bare job.old.universe)
        job.old.options.rounds job.old.options.depth 0 none_seen }
    ensures ok { IfOk result (λ seen.
        OfStanding job.old.script.now (bare job.old.universe)
        job.old.options.rounds job.old.options.depth 0 none_seen
        (λ w items. IsCompleted w seen items
        (F.told folder.old name.now) (F.told folder.new name.now))) }
    ensures err { OnErr result (OfStanding job.old.script.now (bare job.old.universe)
        job.old.options.rounds job.old.options.depth 0 none_seen
        (λ w items. GrewFront w items (F.told folder.old name.now) (F.told folder.new name.now))) }
    ensures only_writes { OnlyWrites F.Folder name.now folder.old folder.new
        (IsErrOf result WriteStop.Failed) }
{
    let mut next = Seen::none();
    for number in 0..job.cases.len() {
        next = write_case(alloc, job, folder, name, number, next)?;
    }
    Ok(next)
}

// Writes what stands behind the last section: how many sections and steps there are.
pub(crate) fn write_end<F: Folder>(
    alloc: Global,
    folder: &mut F,
    name: &str,
    seen: Seen,
) -> Result<(), WriteStop>
    ensures ok { OnOk result (Appends (F.told folder.old name.now) (F.told folder.new name.now)
        (spelling_of seen item.End)) }
    ensures err { OnErr result (AppendsFront (F.told folder.old name.now)
        (F.told folder.new name.now) (spelling_of seen item.End)) }
    ensures only_writes { OnlyWrites F.Folder name.now folder.old folder.new
        (IsErrOf result WriteStop.Failed) }
{
    let mut bytes = Vec::new(alloc);
    write_item2(&Item::End, seen, &mut bytes)?;
    append_all(folder, name, &bytes)?;
    Ok(())
}
