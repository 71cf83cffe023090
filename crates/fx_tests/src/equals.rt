// What a run ends with, beside what it should: each assertion is proved here, once. A run is named
// by its line, and by the number of the call that fails in it, 0 where none does.
use std::fmt::Debug;
use std::process::Abort;

/// What was found is what is wanted.
pub fn equal<T: Debug + PartialEq + Drop>(
    rt: &impl Abort,
    run: &str,
    call: u64,
    found: T,
    wanted: T,
) {
    assert_eq!(rt; found, wanted, "{run}, call {call}");
}

/// The bytes are those that are wanted.
pub fn bytes_are(rt: &impl Abort, run: &str, call: u64, found: &[u8], wanted: &[u8]) {
    assert_eq!(rt; found, wanted, "{run}, call {call}");
}

/// This holds.
pub fn holds(rt: &impl Abort, run: &str, call: u64, is_so: bool) {
    assert!(rt; is_so, "{run}, call {call}");
}
