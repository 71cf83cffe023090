// Whole texts read from a folder.
ghost use Rattle.std.specs.Prelude.{◌≡◌, IfOk, IsErrOf};
ghost use Rattle.fx_edge.specs.OnlyReads.{OnlyReads};
ghost use Rattle.whole_texts.specs.Texts.{IsText};
ghost use Rattle.whole_texts.specs.declared.read.ReadStop.TheVariants.{Fault, OutOfMemory};

use crate::PIECE;
use fx_edge::{Failed, Folder};
use std::alloc::{AllocError, Global};

/// Why a text wasn't read to its end.
#[derive(Clone, Copy, Debug, PartialEq, Eq)]
pub enum ReadStop {
    /// A read of the folder failed.
    Fault,
    /// Memory ran out.
    OutOfMemory,
}

impl From<Failed> for ReadStop {
    ghost from_gives = { λ _ e. e ≡ Fault };

    fn from(_: Failed) -> Self {
        ReadStop::Fault
    }
}

impl From<AllocError> for ReadStop {
    ghost from_gives = { λ _ e. e ≡ OutOfMemory };

    fn from(_: AllocError) -> Self {
        ReadStop::OutOfMemory
    }
}

/// The first bytes of a name, `most` of them or all; no byte behind them is asked for. `Fault`
/// comes only where a read of the folder failed in this call, `OutOfMemory` only where memory runs
/// out.
pub fn read_text<F: Folder>(
    alloc: Global,
    folder: &mut F,
    name: &str,
    most: usize,
) -> Result<Vec<u8>, ReadStop>
    ensures text { IfOk result (λ text. IsText most (F.told folder.old name.now) text.items) }
    ensures only_reads { OnlyReads F.Folder folder.old folder.new (IsErrOf result ReadStop.Fault) }
{
    let mut text = Vec::new(alloc);
    let mut buffer = [0u8; PIECE];
    while text.len() < most {
        let left = buffer.len().min(most - text.len());
        let count = folder.read(name, text.len() as u64, &mut buffer[..left])?;
        if count == 0 {
            return Ok(text);
        }
        text.extend_from_slice(&buffer[..count])?;
    }
    Ok(text)
}
