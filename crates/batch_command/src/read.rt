// The texts of a list's names.
ghost use Rattle.std.specs.Prelude.{IfOk, map, string_bytes};
ghost use Rattle.fx_edge.specs.OnlyReads.{OnlyReads};
ghost use Rattle.fx_edge.specs.Outside.{Rose};
ghost use Rattle.batch_command.specs.Told.{AreTexts};

use command_runs::read_fault_line;
use fx_edge::Folder;
use script_texts::read_script;
use std::alloc::{AllocError, Global};
use whole_texts::ReadStop;

/// What came of reading the names of a list.
#[derive(Drop)]
pub enum Texts {
    /// The text of each name, in order.
    Read(Vec<Vec<u8>>),
    /// A read of the folder failed: its line.
    Unread(Vec<u8>),
}

/// The texts of these names. `Err` only where memory runs out.
pub fn read_scripts<F: Folder>(
    alloc: Global,
    folder: &mut F,
    names: &[String],
) -> Result<Texts, AllocError>
    ensures texts { IfOk result (AreTexts (F.told folder.old)
        (Rose (F.read_faults folder.old) (F.read_faults folder.new)) (map string_bytes names.now)) }
    ensures only_reads { OnlyReads F.Folder folder.old folder.new ⊥ }
{
    let mut texts = Vec::new(alloc);
    for name in names {
        match read_script(alloc, folder, name) {
            Ok(text) => texts.push(text)?,
            Err(ReadStop::Fault) => return Ok(Texts::Unread(read_fault_line(alloc, name)?)),
            Err(ReadStop::OutOfMemory) => return Err(AllocError),
        }
    }
    Ok(Texts::Read(texts))
}
