//! Items behind other steps, without those of their own that aren't used.
ghost use Rattle.std.specs.Prelude.{◌≡◌, ◌<◌, ◌+◌, ◌^◌, IfOk, vec_len};
ghost use Rattle.cert_trim.specs.Behind.{trimmed_behind};
ghost use Rattle.cert_trim.specs.Trimmed.{number_behind_all, step_count};
ghost use Rattle.cert_trim.specs.Used.{CiteEarlier};

use crate::left::left_items;
use crate::numbering::new_numbers;
use crate::steps::count_steps;
use crate::used::used_flags;
use cert_bytes::Item;
use std::alloc::{AllocError, Global};

// The items that are left, and the number of the next step behind them.
#[derive(Drop)]
pub(crate) struct Left {
    pub(crate) items: Vec<Item>,
    pub(crate) next: u64,
}

// They are gone over twice: for flags from the last one, and to be moved. Between, the flags give
// new numbers. So many steps are their own, from start on.
pub(crate) fn left_behind(
    alloc: Global,
    items: Vec<Item>,
    start: u64,
    all: u64,
) -> Result<Left, AllocError>
    requires count { all ≡ step_count items.items }
    requires room { start + all < 2 ^ 64 }
    requires earlier { CiteEarlier start items.items }
    ensures items { IfOk result (λ l. l.items.items ≡ trimmed_behind start items.items) }
    ensures next { IfOk result (λ l. l.next ≡ number_behind_all start l.items.items) }
{
    let flags = used_flags(alloc, start, items.as_slice(), all)?;
    let numbers = new_numbers(alloc, start, flags.as_slice())?;
    let items = left_items(
        alloc,
        items,
        start,
        flags.as_slice(),
        numbers.new.as_slice(),
    )?;
    Ok(Left {
        items,
        next: numbers.next,
    })
}

/// The items, whose own steps begin with number `start`, without those of their own that aren't
/// used by what stands behind them. Those that are left are numbered anew from `start` on; what the
/// items cite below keeps its number. It takes time in proportion to the items and what they cite.
/// Lack of memory is the only error, and drops the items.
pub fn trim_behind(alloc: Global, items: Vec<Item>, start: u64) -> Result<Vec<Item>, AllocError>
    requires room { start + vec_len items < 2 ^ 64 }
    requires earlier { CiteEarlier start items.items }
    ensures items { IfOk result (λ left. left.items ≡ trimmed_behind start items.items) }
{
    let all = count_steps(items.as_slice());
    let left = left_behind(alloc, items, start, all)?;
    Ok(left.items)
}
