// What a test finds, beside what it wants: each assertion is proved here, once.
use std::fmt::Debug;
use std::process::Abort;

/// What was found is what is wanted, in the row that is named.
pub fn equal<T: Debug + PartialEq + Drop>(rt: &impl Abort, row: &str, found: T, wanted: T) {
    assert_eq!(rt; found, wanted, "{row}");
}

/// This holds, in the row that is named.
pub fn holds(rt: &impl Abort, row: &str, is_so: bool) {
    assert!(rt; is_so, "{row}");
}
