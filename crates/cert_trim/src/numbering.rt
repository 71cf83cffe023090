//! New numbers of the steps that are left.
ghost use Rattle.std.specs.Prelude.{◌≡◌, ◌<◌, ◌+◌, ◌^◌, length, IfOk, vec_len};
ghost use Rattle.cert_trim.specs.Flags.{stays_by, AreNumbers};
ghost use Rattle.cert_trim.specs.Trimmed.{new_number};

use std::alloc::{AllocError, Global};

// The new number of each step, and that of the next one behind them.
#[derive(Drop)]
pub(crate) struct Numbers {
    pub(crate) new: Vec<u64>,
    pub(crate) next: u64,
}

// They are counted from start on.
pub(crate) fn new_numbers(alloc: Global, start: u64, flags: &[bool]) -> Result<Numbers, AllocError>
    requires room { start + length flags.now < 2 ^ 64 }
    ensures many { IfOk result (λ n. vec_len n.new ≡ length flags.now) }
    ensures new { IfOk result (λ n. AreNumbers start flags.now n.new.items) }
    ensures next { IfOk result (λ n.
        n.next ≡ new_number (stays_by start flags.now) (start + length flags.now)) }
{
    let mut new = Vec::with_capacity(alloc, flags.len())?;
    let mut next = start;
    for flag in flags {
        new.push_reserved(next);
        if *flag {
            next += 1;
        }
    }
    Ok(Numbers { new, next })
}
