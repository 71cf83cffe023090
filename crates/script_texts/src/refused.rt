// The line of a text that spells no script.
ghost use Rattle.std.specs.Prelude.{◌≡◌, IfOk};
ghost use Rattle.script_judge.specs.declared.refusal.Refusal.{Refusal};
ghost use Rattle.script_grammar.specs.Spells.{IsRefused};
ghost use Rattle.script_texts.specs.Texts.{IsRefusedWith};

use report::refusals::refusal_line;
use script_grammar::ParseStop;
use std::alloc::{AllocError, Global};

/// The line of a text that gives no script: why, and at which byte. `Err` only where memory runs
/// out.
pub fn refused_line(alloc: Global, text: &[u8], stop: ParseStop) -> Result<Vec<u8>, AllocError>
    requires { (r : Refusal) → stop ≡ ParseStop.Refused r → IsRefused text.now r }
    ensures { IfOk result (λ line. IsRefusedWith text.now line.items) }
{
    match stop {
        ParseStop::Refused(refusal) => refusal_line(alloc, refusal),
        ParseStop::OutOfMemory => Err(AllocError),
    }
}
