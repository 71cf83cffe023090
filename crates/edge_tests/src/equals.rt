// What a test finds, beside what it wants: each assertion is proved here, once.
use std::fmt::Debug;
use std::process::Abort;

/// What was found is what is wanted, at the step that is named.
pub fn equal<T: Debug + PartialEq + Drop>(rt: &impl Abort, step: &str, found: T, wanted: T) {
    assert_eq!(rt; found, wanted, "{step}");
}

/// So are all of a list.
pub fn all_equal<T: Debug + PartialEq>(rt: &impl Abort, step: &str, found: &[T], wanted: &[T]) {
    assert_eq!(rt; found, wanted, "{step}");
}

/// This holds at the step that is named.
pub fn holds(rt: &impl Abort, step: &str, is_so: bool) {
    assert!(rt; is_so, "{step}");
}
