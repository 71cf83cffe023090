// The line of a certificate that is written anew.
ghost use Rattle.std.specs.Prelude.{◌≡◌, IfOk};
ghost use Rattle.trim_command.specs.Lines as spec;

use std::alloc::{AllocError, Global};

// How many steps are left, and how many there were. `Err` only where memory runs out.
pub(crate) fn trimmed_line(alloc: Global, kept: u64, all: u64) -> Result<Vec<u8>, AllocError>
    ensures { IfOk result (λ line. line.items ≡ spec.trimmed_line kept all) }
{
    let line = format!(in alloc; "trimmed: {kept} of {all} steps\n")?;
    Ok(line.into_bytes())
}
