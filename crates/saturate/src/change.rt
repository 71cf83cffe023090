//! A change of facts that were closed before.
use facts::Slot;

/// A change of facts from which no instance concluded more before, and how far it is followed. So
/// only instances that take the changed slot may have something to add.
#[derive(Clone, Copy)]
pub struct Change {
    /// The slot whose fact changed; none where no fact did.
    pub slot: Option<Slot>,
    /// The place of that slot among all slots of the universe. Without a slot it doesn't matter.
    pub place: u16,
    /// The greatest height of the facts that are to come, over those with the change.
    pub height: u8,
}
