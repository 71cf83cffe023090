//! The results in the order of their numbers.
ghost use Rattle.std.specs.Prelude.{◌≡◌, ◌<◌, ℕ, None, IfOk, IfSome, length, slice_index_or};
ghost use Rattle.std.specs.Prelude.{vec_len};
ghost use Rattle.job_workers.specs.Results.{AreResultsOf, AreSlots, AreResults};

use crate::job::Job;
use crate::post::Post;
use box_deques::Naming;
use std::alloc::{AllocError, Global};

// So many empty slots.
pub(crate) fn slots_for<J: Job>(
    alloc: Global,
    job: &J,
    count: u8,
) -> Result<Vec<Option<J::Out>>, AllocError>
    ensures many { IfOk result (λ v. vec_len v ≡ count) }
    ensures slots { IfOk result (λ v. AreSlots (J.is_result job.now) v.items) }
{
    let _ = job;
    let mut slots = Vec::with_capacity(alloc, count as usize)?;
    for _ in 0..count {
        slots.push_reserved(None);
    }
    Ok(slots)
}

// Puts each result into the slot of its number.
fn put_results<J: Job>(job: &J, slots: &mut [Option<J::Out>], done: &mut Vec<(u8, J::Out)>)
    requires slots { AreSlots (J.is_result job.now) slots.old }
    requires done { AreResultsOf (J.is_result job.now) done.old.items }
    ensures { AreSlots (J.is_result job.now) slots.new }
{
    let _ = job;
    while let Some((number, out)) = done.pop() {
        let at = number as usize;
        if at < slots.len() {
            slots[at] = Some(out);
        }
    }
}

// The same of all posts.
pub(crate) fn put_all<J: Job, Q: Naming<u8>>(
    job: &J,
    slots: &mut [Option<J::Out>],
    posts: &mut [Post<J::Out, Q>],
)
    requires slots { AreSlots (J.is_result job.now) slots.old }
    requires posts { (k : ℕ) (d : _) → k < length posts.old
        → AreResultsOf (J.is_result job.now) (slice_index_or posts.old k d).done.items }
    ensures { AreSlots (J.is_result job.now) slots.new }
{
    for k in 0..posts.len() {
        let post = &mut posts[k];
        put_results(job, slots, &mut post.done);
    }
}

// The result that stands in the slot, which is taken out. Where none does, the job is done here.
fn result_of<J: Job>(job: &J, number: u16, slot: &mut Option<J::Out>) -> Result<J::Out, AllocError>
    requires { IfSome slot.old (J.is_result job.now number) }
    ensures result { IfOk result (J.is_result job.now number) }
    ensures taken { slot.new ≡ None }
{
    match slot.take() {
        Some(out) => Ok(out),
        None => job.run(number),
    }
}

// The results in order. The jobs whose slots are empty are done here.
pub(crate) fn finish<J: Job>(
    alloc: Global,
    job: &J,
    slots: &mut [Option<J::Out>],
) -> Result<Vec<J::Out>, AllocError>
    requires few { length slots.old < 256 }
    requires slots { AreSlots (J.is_result job.now) slots.old }
    ensures many { IfOk result (λ v. vec_len v ≡ length slots.old) }
    ensures results { IfOk result (λ v. AreResults (J.is_result job.now) 0 v.items) }
{
    let mut outs = Vec::with_capacity(alloc, slots.len())?;
    for number in 0..slots.len() {
        let slot = &mut slots[number];
        let out = result_of(job, number as u16, slot)?;
        outs.push_reserved(out);
    }
    Ok(outs)
}
