use crate::fact::Slot;
use fx_edge::Items;

/// A rule with the slots of its premises, in their order, and the slot of its conclusion.
#[derive(Debug, Drop)]
pub struct Instance {
    /// The rule's number in the list.
    pub rule: u8,
    /// The hint's number, from 0, for the rule of rewriting hints; 0 for every other.
    pub arg: u16,
    /// The slot of the conclusion.
    pub target: Slot,
    /// The slots of the premises, in the order in which the rule takes them.
    pub premises: Items<Slot>,
}
