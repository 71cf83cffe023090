// What a run ends with, beside what it should: each assertion is proved here, once. A run is named
// by a text, and by the numbers of the folder's calls that fail in it.
use std::fmt::Debug;
use std::process::Abort;

/// What was found is what is wanted.
pub fn equal<T: Debug + PartialEq + Drop>(
    rt: &impl Abort,
    run: &str,
    failing: &[u64],
    found: T,
    wanted: T,
) {
    assert_eq!(rt; found, wanted, "{run}, failing calls {failing:?}");
}

/// The bytes are those that are wanted.
pub fn bytes_are(rt: &impl Abort, run: &str, failing: &[u64], found: &[u8], wanted: &[u8]) {
    assert_eq!(rt; found, wanted, "{run}, failing calls {failing:?}");
}

/// There is a file, and its bytes are those that are wanted.
pub fn file_is(rt: &impl Abort, run: &str, found: Option<&[u8]>, wanted: &[u8]) {
    match found {
        Some(bytes) => bytes_are(rt, run, &[], bytes, wanted),
        None => holds(rt, run, &[], false),
    }
}

/// This holds.
pub fn holds(rt: &impl Abort, run: &str, failing: &[u64], is_so: bool) {
    assert!(rt; is_so, "{run}, failing calls {failing:?}");
}
