//! What is spelled of a box.
ghost use Rattle.std.specs.Prelude.{◌≡◌, ◌<◌, ◌≤◌, ◌+◌, ◌^◌, ◌++◌, length, vec_len, IfOk, OnOk};
ghost use Rattle.std.specs.List.{AllByRecursion};
ghost use Rattle.cert_bytes.specs.declared.item.Item.TheVariants as item;
ghost use Rattle.cert_bytes.specs.Certificates.{HasSpelling};
ghost use Rattle.cert_bytes.specs.Styles.{seen_behind};
ghost use Rattle.cert_bytes.specs.Spelling.{spelled_behind};
ghost use Rattle.cert_trim.specs.Used.{CiteEarlier};
ghost use Rattle.cert_trim.specs.Behind.{section_of};
ghost use Rattle.tree_certificates.specs.Trees.{AllSettled};
ghost use Rattle.box_trace.specs.Tables.{known_at};
ghost use Rattle.cert_writer.specs.Boxes.{refs_in, written_of};

use box_trace::Known;
use cert_bytes::{Item, Seen, StepRow, write_item2};
use cert_trim::trim_behind;
use goals::Goal;
use rule_universe::Universe;
use std::alloc::{AllocError, Global};

// A box's own items: its steps, and the last behind them. `Err` only where memory runs out.
pub(crate) fn own_items(
    alloc: Global,
    steps: Vec<StepRow>,
    last: Item,
) -> Result<Vec<Item>, AllocError>
    ensures { IfOk result (λ items. items.items ≡ section_of steps.items last) }
{
    let mut items = Vec::with_capacity(alloc, steps.len() + 1)?;
    for row in steps {
        items.push_reserved(Item::Step(row));
    }
    items.push_reserved(last);
    Ok(items)
}

// Those of them that are written, where the first step has number start and the box goes into so
// many pieces: all of one that is cut, as its pieces may cite each step; of another the last and
// what it needs. `Err` only where memory runs out.
pub(crate) fn written_items(
    alloc: Global,
    items: Vec<Item>,
    pieces: u8,
    start: u64,
) -> Result<Vec<Item>, AllocError>
    requires room { start + vec_len items < 2 ^ 64 }
    requires earlier { pieces ≡ 0 → CiteEarlier start items.items }
    ensures { IfOk result (λ left. left.items ≡ written_of pieces start items.items) }
{
    if pieces == 0 {
        trim_behind(alloc, items, start)
    } else {
        Ok(items)
    }
}

// The step of each goal's fact. `Err` only where memory runs out.
pub(crate) fn refs_of(
    alloc: Global,
    uni: &Universe,
    known: &Known,
    goals: &[Goal],
) -> Result<Vec<u64>, AllocError>
    requires { AllSettled (known_at uni.now known.now) goals.now }
    ensures { IfOk result (λ refs. refs.items ≡ refs_in uni.now known.now goals.now) }
{
    let mut refs = Vec::new(alloc);
    let mut goals = goals;
    while let [goal, later @ ..] = goals {
        let Some(number) = known.step(uni, goal.of) else {
            unreachable!()
        };
        refs.push(number)?;
        goals = later;
    }
    Ok(refs)
}

// Appends the items, where this was seen before them, and answers what is behind them. `Err` only
// where memory runs out; a front of the items may then be there.
fn spell_items(items: &[Item], seen: Seen, out: &mut Vec<u8>) -> Result<Seen, AllocError>
    requires spelled { AllByRecursion HasSpelling items.now }
    requires steps { seen.steps + length items.now ≤ 2 ^ 63 }
    requires sections { seen.sections + length items.now ≤ 2 ^ 63 }
    ensures spelled { OnOk result (out.new.items ≡ out.old.items ++ spelled_behind seen items.now) }
    ensures seen { IfOk result (λ next. next ≡ seen_behind seen items.now) }
{
    let mut next = seen;
    for item in items {
        write_item2(item, next, out)?;
        next = next.after(item);
    }
    Ok(next)
}

// The bytes of a box's items, where this was seen before them; and what is seen behind them. `Err`
// only where memory runs out.
pub(crate) fn spell_box(
    alloc: Global,
    items: &[Item],
    seen: Seen,
) -> Result<(Vec<u8>, Seen), AllocError>
    requires spelled { AllByRecursion HasSpelling items.now }
    requires steps { seen.steps + length items.now ≤ 2 ^ 63 }
    requires sections { seen.sections + length items.now ≤ 2 ^ 63 }
    ensures spelled { IfOk result (λ r. r.0.items ≡ spelled_behind seen items.now) }
    ensures seen { IfOk result (λ r. r.1 ≡ seen_behind seen items.now) }
{
    let mut bytes = Vec::new(alloc);
    let next = spell_items(items, seen, &mut bytes)?;
    Ok((bytes, next))
}
