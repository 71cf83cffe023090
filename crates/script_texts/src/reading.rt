// The text of a script, read from a folder.
ghost use Rattle.std.specs.Prelude.{IfOk, IsErrOf};
ghost use Rattle.fx_edge.specs.OnlyReads.{OnlyReads};
ghost use Rattle.script_texts.specs.Texts.{IsScriptText};

use fx_edge::Folder;
use std::alloc::Global;
use whole_texts::{ReadStop, read_text};

// How much of a script's text is read, in bytes: one more than a script may have.
const MOST: usize = (1 << 20) + 1;

/// What is read of the text of a script, by its name. No byte behind the first that a script may
/// not have is asked for. `Fault` comes only where a read of the folder failed in this call,
/// `OutOfMemory` only where memory runs out.
pub fn read_script<F: Folder>(
    alloc: Global,
    folder: &mut F,
    name: &str,
) -> Result<Vec<u8>, ReadStop>
    ensures text { IfOk result (λ text. IsScriptText (F.told folder.old name.now) text.items) }
    ensures only_reads { OnlyReads F.Folder folder.old folder.new (IsErrOf result ReadStop.Fault) }
{
    read_text(alloc, folder, name, MOST)
}
