// Items without unused steps, written to the new file.
ghost use Rattle.std.specs.Prelude.{◌≡◌, ◌⊎◌, IfOk, IsErrOf};
ghost use Rattle.std.specs.List.{AllByRecursion};
ghost use Rattle.cert_bytes.specs.Certificates.{HasSpelling};
ghost use Rattle.cert_trim.specs.Law.{AreLedBySome};
ghost use Rattle.whole_texts.specs.OnlyWrites.{OnlyWrites};
ghost use Rattle.cert_rewriting.specs.declared.writing.WriteStop.TheVariants as WriteStop;
ghost use Rattle.trim_command.specs.Writing.{Writes, IsBegun};

use crate::lines::trimmed_line;
use cert_bytes::Item;
use cert_rewriting::{MOST, WriteStop, spelled_length, write_items};
use cert_trim::trim;
use command_runs::Status;
use fx_edge::Folder;
use report::certificates::new_too_long_line;
use std::alloc::Global;

// The status and the line of items, with which nothing is wrong, that are written without unused
// steps. The new file is made once the line is.
pub(crate) fn write_trimmed<F: Folder>(
    alloc: Global,
    items: Vec<Item>,
    folder: &mut F,
    new: &str,
) -> Result<(Status, Vec<u8>), WriteStop>
    requires led { AreLedBySome items.items }
    requires spelled { AllByRecursion HasSpelling items.items }
    ensures writes { IfOk result (λ r. Writes items.items r.0 r.1.items
        (F.told folder.old new.now) (F.told folder.new new.now)) }
    ensures begun { IsErrOf result WriteStop.Failed
        → IsBegun items.items (F.told folder.old new.now) (F.told folder.new new.now) }
    ensures starved { IsErrOf result WriteStop.OutOfMemory
        → (F.told folder.new new.now ≡ F.told folder.old new.now)
        ⊎ IsBegun items.items (F.told folder.old new.now) (F.told folder.new new.now) }
    ensures only_writes { OnlyWrites F.Folder new.now folder.old folder.new
        (IsErrOf result WriteStop.Failed) }
{
    let left = trim(alloc, items)?;
    let length = spelled_length(alloc, left.items.as_slice())?;
    if length > MOST {
        return Ok((Status::Certificate, new_too_long_line().to_vec(alloc)?));
    }
    let line = trimmed_line(alloc, left.kept, left.all)?;
    match write_items(alloc, left.items.as_slice(), folder, new) {
        Ok(()) => Ok((Status::Answered, line)),
        Err(stop) => Err(stop),
    }
}
