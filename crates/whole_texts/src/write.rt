// Whole texts written to a new file.
ghost use Rattle.std.specs.Prelude.{◌≡◌, [], IsErr, IsTrue, OnOk, OnErr};
ghost use Rattle.std.specs.Io.KnownBytes.{Appends};
ghost use Rattle.whole_texts.specs.OnlyWrites.{OnlyWrites};
ghost use Rattle.whole_texts.specs.Pieces.{AppendsFront, PassesOn, HoldsAll, HoldsFront};

use crate::PIECE;
use fx_edge::{Failed, Folder};

/// Adds all of the bytes to the file, in as many pieces as the folder takes. `Failed` where a write
/// failed; the file then took a front of them.
pub fn append_all<F: Folder>(folder: &mut F, name: &str, bytes: &[u8]) -> Result<(), Failed>
    ensures ok { OnOk result
        (Appends (F.told folder.old name.now) (F.told folder.new name.now) bytes.now) }
    ensures err { OnErr result
        (AppendsFront (F.told folder.old name.now) (F.told folder.new name.now) bytes.now) }
    ensures only_writes { OnlyWrites F.Folder name.now folder.old folder.new (IsErr result) }
{
    let mut done = 0;
    while done < bytes.len() {
        done += folder.append(name, &bytes[done..])?;
    }
    Ok(())
}

/// Adds the bytes that wait to the file where they are the last, or 65,536 at least; else they go
/// on waiting. `Failed` where a write failed; the file then took a front of them.
pub fn pass_on<F: Folder>(
    folder: &mut F,
    name: &str,
    waiting: &mut Vec<u8>,
    last: bool,
) -> Result<(), Failed>
    ensures ok { OnOk result (PassesOn (F.told folder.old name.now) (F.told folder.new name.now)
        waiting.old.items waiting.new.items) }
    ensures whole { OnOk result (IsTrue last → waiting.new.items ≡ []) }
    ensures err { OnErr result (AppendsFront
        (F.told folder.old name.now) (F.told folder.new name.now) waiting.old.items) }
    ensures only_writes { OnlyWrites F.Folder name.now folder.old folder.new (IsErr result) }
{
    if !last && waiting.len() < PIECE {
        return Ok(());
    }
    append_all(folder, name, waiting.as_slice())?;
    waiting.clear();
    Ok(())
}

/// Makes the file new, and writes all of the bytes to it. `Failed` where a write failed; the file
/// then holds what it held, or a front of the bytes.
pub fn write_new<F: Folder>(folder: &mut F, name: &str, bytes: &[u8]) -> Result<(), Failed>
    ensures ok { OnOk result
        (HoldsAll bytes.now (F.told folder.old name.now) (F.told folder.new name.now)) }
    ensures err { OnErr result
        (HoldsFront bytes.now (F.told folder.old name.now) (F.told folder.new name.now)) }
    ensures only_writes { OnlyWrites F.Folder name.now folder.old folder.new (IsErr result) }
{
    folder.fresh(name)?;
    append_all(folder, name, bytes)
}
