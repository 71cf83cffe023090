// What a test finds, beside what it wants: each assertion is proved here, once.
use std::process::Abort;

/// The text is the one that is wanted, in the row or at the place with this number.
pub fn text_is(rt: &impl Abort, row: usize, found: &str, wanted: &str) {
    assert_eq!(rt; found, wanted, "{row}");
}

/// The bytes are those that are wanted, `row` as above.
pub fn bytes_are(rt: &impl Abort, row: usize, found: &[u8], wanted: &[u8]) {
    assert_eq!(rt; found, wanted, "{row}");
}
