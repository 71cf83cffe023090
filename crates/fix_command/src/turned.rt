// What comes of a text.
ghost use Rattle.std.specs.Prelude.{IfOk, string_bytes};
ghost use Rattle.std.specs.Option.{option_map};
ghost use Rattle.fix_command.specs.Command.{FixText, left_of};

use crate::lines::{fix_line, program_fault_line};
use command_runs::Status;
use fixprog::fault::ProgStop;
use fixprog::turn::turn;
use std::alloc::{AllocError, Global};

/// What comes of a text: the status and its line, and the script that is to be written, if there is
/// one.
#[derive(Drop)]
pub struct Outcome {
    pub status: Status,
    pub line: Vec<u8>,
    pub script: Option<String>,
}

/// What comes of a text. `Err` only where memory runs out.
pub fn outcome_of(alloc: Global, text: &[u8]) -> Result<Outcome, AllocError>
    ensures { IfOk result (λ o.
        FixText text.now o.status o.line.items (left_of (option_map string_bytes o.script))) }
{
    match turn(alloc, text) {
        Ok(turned) => {
            let line = fix_line(alloc, turned.steps, turned.outs)?;
            Ok(Outcome {
                status: Status::Answered,
                line,
                script: Some(turned.text),
            })
        }
        Err(ProgStop::Fault(fault)) => {
            let line = program_fault_line(alloc, fault)?;
            Ok(Outcome {
                status: Status::Program,
                line,
                script: None,
            })
        }
        Err(ProgStop::OutOfMemory) => Err(AllocError),
    }
}
