// What a test finds, beside what it wants: each assertion is proved here, once.
use std::fmt::Debug;
use std::process::Abort;

/// What was found of the text is what is wanted.
pub fn equal<T: Debug + PartialEq + Drop>(rt: &impl Abort, text: &[u8], found: T, wanted: T) {
    assert_eq!(rt; found, wanted, "{text:?}");
}

/// All that was found of the text is what is wanted.
pub fn all_equal<T: Debug + PartialEq>(rt: &impl Abort, text: &[u8], found: &[T], wanted: &[T]) {
    assert_eq!(rt; found, wanted, "{text:?}");
}

/// This holds of the text.
pub fn holds(rt: &impl Abort, text: &[u8], is_so: bool) {
    assert!(rt; is_so, "{text:?}");
}
