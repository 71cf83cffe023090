//! Lines of scripts that are past a limit.

ghost use Rattle.std.specs.Prelude.{◌≡◌, IfOk};
ghost use Rattle.report.specs.Lines as spec;

use std::alloc::{AllocError, Global};

/// The line of a script that needs more expressions than a universe may have.
pub fn expressions_text() -> &'static [u8]
    ensures { result.now ≡ spec.expressions_text }
{
    "limit: more than 1024 expressions\n".as_bytes()
}

/// The line of a script with more boxes than are allowed, which is `most`. `Err` only where memory
/// runs out.
pub fn boxes_text(alloc: Global, most: u32) -> Result<Vec<u8>, AllocError>
    ensures { IfOk result (λ line. line.items ≡ spec.boxes_text most) }
{
    let line = format!(in alloc; "limit: more than {most} boxes\n")?;
    Ok(line.into_bytes())
}
