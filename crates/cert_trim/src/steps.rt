//! The numbers of steps.
ghost use Rattle.std.specs.Prelude.{◌≡◌, ◌≤◌, ◌<◌, ◌+◌, ◌^◌};
ghost use Rattle.cert_trim.specs.Trimmed.{number_behind, step_count};

use cert_bytes::Item;

// The number of the next step behind the item.
pub(crate) fn number_behind(number: u64, item: &Item) -> u64
    requires { number + 1 < 2 ^ 64 }
    ensures is { result ≡ number_behind number item.now }
    ensures next { result ≤ number + 1 }
{
    match item {
        Item::Step(_) => number + 1,
        _ => number,
    }
}

// How many steps the items have.
pub(crate) fn count_steps(items: &[Item]) -> u64
    ensures { result ≡ step_count items.now }
{
    let mut count = 0;
    for item in items {
        count = number_behind(count, item);
    }
    count
}
