//! Which steps are used.
ghost use Rattle.std.specs.Prelude.{◌≡◌, ◌≤◌, ◌<◌, ◌+◌, ℕ, List, [], ◌∷◌, ◌++◌, length, IfOk};
ghost use Rattle.std.specs.Prelude.{vec_len};
ghost use Rattle.cert_trim.specs.Flags.{AreFlags, used_with};
ghost use Rattle.cert_trim.specs.Trimmed.{number_behind, step_count};
ghost use Rattle.cert_trim.specs.Used.{AllBelow, CiteEarlier, cited, cited_by, used_from};

use cert_bytes::{Item, StepRow};
use std::alloc::{AllocError, Global};

// The step of this number is used, too; below start there are no flags.
fn flag_step(flags: &mut [bool], start: u64, number: u64)
    requires { number < start + length flags.old }
    ensures { (later : List ℕ)
        → AreFlags start flags.old later → AreFlags start flags.new (number ∷ later) }
{
    if number >= start {
        flags[(number - start) as usize] = true;
    }
}

// So are the steps of these numbers.
fn flag_all(flags: &mut [bool], start: u64, numbers: &[u64])
    requires { AllBelow (start + length flags.old) numbers.now }
    ensures { (later : List ℕ)
        → AreFlags start flags.old later → AreFlags start flags.new (numbers.now ++ later) }
{
    for number in numbers {
        flag_step(flags, start, *number);
    }
}

// So are those that a step cites.
fn flag_cited(flags: &mut [bool], start: u64, row: &StepRow)
    requires { AllBelow (start + length flags.old) (cited row.now) }
    ensures { (later : List ℕ)
        → AreFlags start flags.old later → AreFlags start flags.new (cited row.now ++ later) }
{
    flag_all(flags, start, row.premises.as_slice());
    if let Some(with) = row.with {
        flag_step(flags, start, with);
    }
}

// Goes over an item, and from the place of the next step behind it to that before it.
fn flag_item(flags: &mut [bool], start: u64, behind: u64, item: &Item) -> u64
    requires room { behind ≤ length flags.old }
    requires number { (before : ℕ) × (behind ≡ number_behind before item.now) }
    requires cites { AllBelow (start + length flags.old) (cited_by item.now) }
    ensures before { behind ≡ number_behind result item.now }
    ensures flags { (later : List ℕ) → AreFlags start flags.old later
        → AreFlags start flags.new (used_with (start + result) item.now later) }
{
    match item {
        Item::Step(row) => {
            let place = behind - 1;
            if flags[place as usize] {
                flag_cited(flags, start, row);
            }
            place
        }
        Item::Leaf(steps) => {
            flag_all(flags, start, steps.as_slice());
            behind
        }
        Item::Dead(step) => {
            flag_step(flags, start, *step);
            behind
        }
        _ => behind,
    }
}

// Goes over the items from the last one, as those behind a step tell whether it is used.
fn flag_items(flags: &mut [bool], start: u64, items: &[Item], all: u64)
    requires count { all ≡ step_count items.now }
    requires many { all ≤ length flags.old }
    requires none { AreFlags start flags.old [] }
    requires earlier { CiteEarlier start items.now }
    ensures { AreFlags start flags.new (used_from start items.now) }
{
    let mut place = all;
    for done in 0..items.len() {
        let at = items.len() - 1 - done;
        let item = &items[at];
        place = flag_item(flags, start, place, item);
    }
}

// Which of the items' own steps are used, of so many, where the first has number start.
pub(crate) fn used_flags(
    alloc: Global,
    start: u64,
    items: &[Item],
    all: u64,
) -> Result<Vec<bool>, AllocError>
    requires count { all ≡ step_count items.now }
    requires earlier { CiteEarlier start items.now }
    ensures many { IfOk result (λ v. vec_len v ≡ all) }
    ensures flags { IfOk result (λ v. AreFlags start v.items (used_from start items.now)) }
{
    let mut flags = vec![in alloc; false; all as usize]?;
    flag_items(flags.as_mut_slice(), start, items, all);
    Ok(flags)
}
