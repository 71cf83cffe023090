// What a test finds, beside what it wants: each assertion is proved here, once.
use accounts::{Event, EventRefused};
use std::fmt::Debug;
use std::process::Abort;

/// What was found is what is wanted, in the row or the run with this number.
pub fn equal<T: Debug + PartialEq + Drop>(rt: &impl Abort, row: u64, found: T, wanted: T) {
    assert_eq!(rt; found, wanted, "{row}");
}

/// All that was found is what is wanted.
pub fn all_equal<T: Debug + PartialEq>(rt: &impl Abort, row: u64, found: &[T], wanted: &[T]) {
    assert_eq!(rt; found, wanted, "{row}");
}

/// The text of the box with this path is the one that is wanted.
pub fn text_is(rt: &impl Abort, path: &[u8], found: &str, wanted: &str) {
    assert_eq!(rt; found, wanted, "{path:?}");
}

/// The event's answer is the one that is wanted.
pub fn answer_is(
    rt: &impl Abort,
    event: Event,
    found: Result<(), EventRefused>,
    wanted: Result<(), EventRefused>,
) {
    assert_eq!(rt; found, wanted, "{event:?}");
}

/// This holds of the row or the run with this number.
pub fn holds(rt: &impl Abort, row: u64, is_so: bool) {
    assert!(rt; is_so, "{row}");
}
