//! Rows one behind another in one list.
ghost use Rattle.std.specs.Prelude.{◌≡◌, ◌<◌, ◌≤◌, ◌-◌, ◌++◌, ◌∷◌, [], Some, length, take, drop};
ghost use Rattle.std.specs.Prelude.{slice_get, map, IfOk, OnOk};
ghost use Rattle.rule_universe.specs.Flat.{rows_in, IsFlat};

use std::alloc::{AllocError, Global};
use std::marker::Model;

/// A list of rows, whose elements stand one behind another in one list. So it takes two blocks of
/// memory, however many rows there are.
#[derive(Drop)]
pub struct FlatRows<T> {
    // Where each row begins among the elements, and where the last one ends.
    starts: Vec<u32>,
    items: Vec<T>,
}

impl<T> Model for FlatRows<T> {
    ghost use Rattle.std.specs.Prelude.{List, length};
    ghost use Rattle.std.specs.Coded.{coded_list};
    ghost use Rattle.rule_universe.specs.Flat.{rows_in, IsFlat};

    ghost Value = { List (List T) };

    ghost coded = { coded_list (coded_list T.code) };

    ghost view = { λ rows. rows_in rows.items.items rows.starts.items };

    ghost invariant = { λ rows. IsFlat (length rows.items.items) rows.starts.items };
}

// The elements from one number up to another.
fn part<T>(items: &[T], start: usize, end: usize) -> &[T]
    requires order { start ≤ end }
    requires within { end ≤ length items.now }
    ensures { result.now ≡ take (end - start) (drop start items.now) }
{
    &items[start..end]
}

impl<T> FlatRows<T> {
    /// The rows of these elements that begin at these numbers, of which the last is where the last
    /// row ends.
    pub fn from_parts(starts: Vec<u32>, items: Vec<T>) -> FlatRows<T>
        requires { IsFlat (length items.items) starts.items }
        ensures { result ≡ rows_in items.items starts.items }
    {
        FlatRows { starts, items }
    }

    /// How many rows there are.
    pub fn len(&self) -> usize
        ensures { result ≡ length self.now }
    {
        self.starts.len() - 1
    }

    /// The row with this number, from 0.
    pub fn row(&self, k: usize) -> &[T]
        requires { k < length self.now }
        ensures { slice_get self.now k ≡ Some result.now }
    {
        let start = self.starts[k] as usize;
        let end = self.starts[k + 1] as usize;
        part(&self.items, start, end)
    }
}

/// Ends a row behind `count` elements in all. It fails past 2^32 - 1 elements or without memory.
pub fn end_row(starts: &mut Vec<u32>, count: usize) -> Result<(), AllocError>
    ensures { OnOk result (starts.new.items ≡ starts.old.items ++ count ∷ []) }
{
    if count > u32::MAX as usize {
        return Err(AllocError);
    }
    starts.push(count as u32)?;
    Ok(())
}

/// The same rows, one behind another.
pub fn flat_rows(alloc: Global, rows: &[Vec<u32>]) -> Result<FlatRows<u32>, AllocError>
    ensures { IfOk result (λ flat. flat ≡ map (λ row. row.items) rows.now) }
{
    let mut starts = Vec::new(alloc);
    let mut items = Vec::new(alloc);
    starts.push(0)?;
    for row in rows {
        items.extend_from_slice(row.as_slice())?;
        end_row(&mut starts, items.len())?;
    }
    Ok(FlatRows::from_parts(starts, items))
}
