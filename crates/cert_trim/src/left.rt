//! The items that are left.
ghost use Rattle.std.specs.Prelude.{◌≡◌, ◌<◌, ◌+◌, length, map, IfOk};
ghost use Rattle.cert_trim.specs.Flags.{flag_at, stays_by, number_of, renumbered, renumbered_row};
ghost use Rattle.cert_trim.specs.Flags.{stays, AreNumbers};
ghost use Rattle.cert_trim.specs.Trimmed.{step_count, trimmed_by};
ghost use Rattle.cert_trim.specs.Used.{AllBelow, CiteEarlier, cited, cited_by};

use crate::steps::number_behind;
use cert_bytes::{Item, StepRow};
use fx_edge::Items;
use std::alloc::{AllocError, Global};

// The new number of a step; below start each keeps its own.
fn new_number(step: u64, start: u64, numbers: &[u64]) -> u64
    requires { step < start + length numbers.now }
    ensures { result ≡ number_of start numbers.now step }
{
    if step < start {
        step
    } else {
        numbers[(step - start) as usize]
    }
}

// Each step by its new number.
fn renumber(steps: &mut [u64], start: u64, numbers: &[u64])
    requires { AllBelow (start + length numbers.now) steps.old }
    ensures { steps.new ≡ map (number_of start numbers.now) steps.old }
{
    for step in steps.iter_mut() {
        *step = new_number(*step, start, numbers);
    }
}

fn renumbered_steps(steps: Items<u64>, start: u64, numbers: &[u64]) -> Items<u64>
    requires { AllBelow (start + length numbers.now) steps }
    ensures { result ≡ map (number_of start numbers.now) steps }
{
    let mut steps = steps.into_vec();
    renumber(steps.as_mut_slice(), start, numbers);
    Items::from_vec(steps)
}

fn renumbered_row(row: StepRow, start: u64, numbers: &[u64]) -> StepRow
    requires { AllBelow (start + length numbers.now) (cited row) }
    ensures { result ≡ renumbered_row (number_of start numbers.now) row }
{
    let StepRow {
        rule,
        arg,
        fact,
        with,
        premises,
    } = row;
    let with = match with {
        Some(step) => Some(new_number(step, start, numbers)),
        None => None,
    };
    StepRow {
        rule,
        arg,
        fact,
        with,
        premises: renumbered_steps(premises, start, numbers),
    }
}

// The item with what it cites by new numbers.
fn renumbered(item: Item, start: u64, numbers: &[u64]) -> Item
    requires { AllBelow (start + length numbers.now) (cited_by item) }
    ensures { result ≡ renumbered (number_of start numbers.now) item }
{
    match item {
        Item::Step(row) => Item::Step(renumbered_row(row, start, numbers)),
        Item::Leaf(steps) => Item::Leaf(renumbered_steps(steps, start, numbers)),
        Item::Dead(step) => Item::Dead(new_number(step, start, numbers)),
        other => other,
    }
}

// The item stays, where the next step has this place.
fn stays(flags: &[bool], place: u64, item: &Item) -> bool
    ensures { result ≡ stays (flag_at flags.now) place item.now }
{
    match item {
        Item::Step(_) => match flags.get(place as usize) {
            Some(flag) => *flag,
            None => false,
        },
        _ => true,
    }
}

// The items without the steps that have no flag, where the first has number start.
pub(crate) fn left_items(
    alloc: Global,
    items: Vec<Item>,
    start: u64,
    flags: &[bool],
    numbers: &[u64],
) -> Result<Vec<Item>, AllocError>
    requires many { length numbers.now ≡ step_count items.items }
    requires numbers { AreNumbers start flags.now numbers.now }
    requires earlier { CiteEarlier start items.items }
    ensures { IfOk result (λ v.
        v.items ≡ trimmed_by (stays_by start flags.now) start items.items) }
{
    let mut left = Vec::with_capacity(alloc, items.len())?;
    let mut place = 0;
    for item in items {
        let here = place;
        place = number_behind(place, &item);
        if stays(flags, here, &item) {
            left.push_reserved(renumbered(item, start, numbers));
        }
    }
    Ok(left)
}
