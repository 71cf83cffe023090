// Items written to a new file.
ghost use Rattle.std.specs.Prelude.{◌≡◌, IsErrOf, OnOk, OnErr};
ghost use Rattle.std.specs.List.{AllByRecursion};
ghost use Rattle.std.specs.Io.KnownBytes.{Appends};
ghost use Rattle.cert_bytes.specs.Certificates.{HasSpelling};
ghost use Rattle.cert_bytes.specs.Spelling.{certificate_of};
ghost use Rattle.whole_texts.specs.OnlyWrites.{OnlyWrites};
ghost use Rattle.whole_texts.specs.Pieces.{AppendsFront, HoldsAll, HoldsFront};
ghost use Rattle.cert_rewriting.specs.declared.writing.WriteStop.TheVariants.{Failed as FailedStop};
ghost use Rattle.cert_rewriting.specs.declared.writing.WriteStop.TheVariants.{OutOfMemory};

use cert_bytes::{Item, Seen, write_item2};
use fx_edge::{Failed, Folder};
use std::alloc::{AllocError, Global};
use whole_texts::{append_all, pass_on};

/// Why items weren't written, or not whole.
#[derive(Clone, Copy, Debug, PartialEq, Eq)]
pub enum WriteStop {
    /// A write of the folder failed.
    Failed,
    /// Memory ran out.
    OutOfMemory,
}

impl From<Failed> for WriteStop {
    ghost from_gives = { λ _ e. e ≡ FailedStop };

    fn from(_: Failed) -> Self {
        WriteStop::Failed
    }
}

impl From<AllocError> for WriteStop {
    ghost from_gives = { λ _ e. e ≡ OutOfMemory };

    fn from(_: AllocError) -> Self {
        WriteStop::OutOfMemory
    }
}

// Adds what the items spell in version 2 to the file, or a front of it.
fn add_items<F: Folder>(
    alloc: Global,
    items: &[Item],
    folder: &mut F,
    name: &str,
) -> Result<(), WriteStop>
    requires { AllByRecursion HasSpelling items.now }
    ensures ok { OnOk result (Appends (F.told folder.old name.now) (F.told folder.new name.now)
        (certificate_of items.now)) }
    ensures err { OnErr result (AppendsFront (F.told folder.old name.now)
        (F.told folder.new name.now) (certificate_of items.now)) }
    ensures only_writes { OnlyWrites F.Folder name.now folder.old folder.new
        (IsErrOf result FailedStop) }
{
    let mut waiting = Vec::new(alloc);
    let mut seen = Seen::none();
    let mut left = items;
    while let [item, later @ ..] = left {
        write_item2(item, seen, &mut waiting)?;
        pass_on(folder, name, &mut waiting, false)?;
        seen = seen.after(item);
        left = later;
    }
    append_all(folder, name, waiting.as_slice())?;
    Ok(())
}

/// Makes the file new, and writes what the items spell in version 2 to it, piece by piece. After an
/// error the file holds what it held, or a front of that. `Failed` comes only where a write of the
/// folder failed in this call, `OutOfMemory` only where memory runs out, which is asked for 65,536
/// bytes and one item's spelling.
pub fn write_items<F: Folder>(
    alloc: Global,
    items: &[Item],
    folder: &mut F,
    name: &str,
) -> Result<(), WriteStop>
    requires { AllByRecursion HasSpelling items.now }
    ensures ok { OnOk result (HoldsAll (certificate_of items.now)
        (F.told folder.old name.now) (F.told folder.new name.now)) }
    ensures err { OnErr result (HoldsFront (certificate_of items.now)
        (F.told folder.old name.now) (F.told folder.new name.now)) }
    ensures only_writes { OnlyWrites F.Folder name.now folder.old folder.new
        (IsErrOf result FailedStop) }
{
    folder.fresh(name)?;
    add_items(alloc, items, folder, name)
}
