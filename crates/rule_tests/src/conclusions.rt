// What a rule concludes, beside what it should: the assertion is proved here, once.
use facts::{Fact, Slot};
use std::process::Abort;

/// The rule with this number, at this target, has concluded what is wanted.
pub fn concludes(
    rt: &impl Abort,
    rule: u8,
    target: Slot,
    found: Option<Fact>,
    wanted: Option<Fact>,
) {
    assert!(rt; found == wanted, "rule {rule} on {target:?}");
}
