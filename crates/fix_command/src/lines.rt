// The printed lines.
ghost use Rattle.std.specs.Prelude.{◌≡◌, IfOk};
ghost use Rattle.fix_command.specs.Lines as spec;

use fixprog::fault::{ProgFault, ProgKind};
use std::alloc::{AllocError, Global};

// The kind's name.
fn kind_text(kind: ProgKind) -> &'static str
    ensures { result.now ≡ spec.kind_text kind }
{
    match kind {
        ProgKind::NotText => "NotText",
        ProgKind::BadToken => "BadToken",
        ProgKind::Unexpected => "Unexpected",
        ProgKind::BadFormat => "BadFormat",
        ProgKind::Undefined => "Undefined",
        ProgKind::NameUsed => "NameUsed",
        ProgKind::BadRange => "BadRange",
        ProgKind::LiteralLimit => "LiteralLimit",
        ProgKind::BadDirection => "BadDirection",
        ProgKind::Limit => "Limit",
    }
}

/// The line of a turned program: how many steps and outputs it has. `Err` only where memory runs
/// out.
pub fn fix_line(alloc: Global, steps: u16, outs: u16) -> Result<Vec<u8>, AllocError>
    ensures { IfOk result (λ line. line.items ≡ spec.fix_line steps outs) }
{
    let line = format!(in alloc; "fix: {steps} steps, {outs} outputs\n")?;
    Ok(line.into_bytes())
}

/// The line of a text that is no program: why, and at which byte, counted from 0. `Err` only where
/// memory runs out.
pub fn program_fault_line(alloc: Global, fault: ProgFault) -> Result<Vec<u8>, AllocError>
    ensures { IfOk result (λ line. line.items ≡ spec.program_fault_line fault) }
{
    let kind = kind_text(fault.kind);
    let at = fault.at;
    let line = format!(in alloc; "program: {kind} at {at}\n")?;
    Ok(line.into_bytes())
}
