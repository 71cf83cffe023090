//! A certificate without its unused steps.
ghost use Rattle.std.specs.Prelude.{◌≡◌, IfOk};
ghost use Rattle.std.specs.List.{AllByRecursion};
ghost use Rattle.cert_bytes.specs.Certificates.{HasSpelling};
ghost use Rattle.cert_trim.specs.Law.{AreLedBySome, AreAcceptedAlike};
ghost use Rattle.cert_trim.specs.Trimmed.{step_count};
ghost use Rattle.cert_trim.specs.Used.{trimmed, AreAllUsed};

use crate::behind::left_behind;
use crate::laws::trimmed_are_accepted;
use crate::steps::count_steps;
use cert_bytes::Item;
use std::alloc::{AllocError, Global};

/// A certificate without its unused steps.
#[derive(Drop)]
pub struct Trimmed {
    pub items: Vec<Item>,
    /// How many steps are left.
    pub kept: u64,
    /// How many there were.
    pub all: u64,
}

/// The items of a certificate, with which nothing is wrong for some subject, without the steps that
/// aren't used. The steps that are left are numbered anew in their order. It takes time in
/// proportion to the items and what they cite. Lack of memory is the only error, and drops the
/// items.
pub fn trim(alloc: Global, items: Vec<Item>) -> Result<Trimmed, AllocError>
    requires { AreLedBySome items.items }
    ensures items { IfOk result (λ t. t.items.items ≡ trimmed items.items) }
    ensures kept { IfOk result (λ t. t.kept ≡ step_count t.items.items) }
    ensures all { IfOk result (λ t. t.all ≡ step_count items.items) }
    // What the first clause comes to.
    ensures used { IfOk result (λ t. AreAllUsed t.items.items) }
    ensures accepted { IfOk result (λ t. AreAcceptedAlike items.items t.items.items) }
    ensures spelled { AllByRecursion HasSpelling items.items
        → IfOk result (λ t. AllByRecursion HasSpelling t.items.items) }
{
    trimmed_are_accepted();
    let all = count_steps(items.as_slice());
    let left = left_behind(alloc, items, 0, all)?;
    Ok(Trimmed {
        items: left.items,
        kept: left.next,
        all,
    })
}
