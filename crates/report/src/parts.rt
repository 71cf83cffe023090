//! Parts of lists.

ghost use Rattle.std.specs.Prelude.{◌≡◌, slice_range};

/// The items from the place `first` up to `end`, as far as there are any.
pub fn part<T>(items: &[T], first: usize, end: usize) -> &[T]
    ensures { result.now ≡ slice_range items.now first end }
{
    let end = end.min(items.len());
    if first < end {
        &items[first..end]
    } else {
        &items[..0]
    }
}
