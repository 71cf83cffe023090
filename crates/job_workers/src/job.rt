//! What is done by number.
ghost use Rattle.std.specs.Prelude.{ℕ, IfOk};

use std::alloc::AllocError;

/// Jobs by number. What is a result of a number's job is a relation: a number may have more than
/// one.
pub trait Job: Sync {
    /// What a job gives.
    type Out: Drop + Send;

    // This is a result of the job with this number.
    ghost is_result: { Self → ℕ → Self.Out → Type 0 };

    /// How long the job with this number may take, in any measure. Those that may take longest are
    /// begun first; no result depends on it.
    fn size(&self, number: u16) -> usize;

    /// Does the job with this number. Lack of memory is the only error.
    fn run(&self, number: u16) -> Result<Self::Out, AllocError>
        ensures { IfOk result (is_result self.now number) };
}
