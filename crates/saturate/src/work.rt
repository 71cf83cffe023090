//! Memory for rounds, whatever keeps what they conclude.
ghost use Rattle.std.specs.Prelude.{◌≡◌, OnOk, true, replicate};

use facts::Fact;
use rule_universe::Placed;
use std::alloc::{AllocError, Global};

/// Memory for rounds, whatever keeps what they conclude. What it holds doesn't matter to any call.
#[derive(Drop)]
pub struct Work {
    // Which instances the round looks at.
    pub(crate) due: Vec<bool>,
    // The slots that the round changed.
    pub(crate) changed: Vec<Placed>,
    // The premises of one instance.
    pub(crate) premises: Vec<Fact>,
}

impl Work {
    /// Asks for no memory yet.
    pub fn new(alloc: Global) -> Work {
        Work {
            due: Vec::new(alloc),
            changed: Vec::new(alloc),
            premises: Vec::new(alloc),
        }
    }

    // Makes it ready for rounds of which the first looks at so many instances.
    pub(crate) fn begin(&mut self, count: usize) -> Result<(), AllocError>
        ensures { OnOk result (self.new.due.items ≡ replicate count true) }
    {
        self.due.clear();
        self.due.resize(count, true)?;
        Ok(())
    }
}
