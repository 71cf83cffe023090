// How a script is to be proved.

/// How a script is to be proved.
#[derive(Clone, Copy, Debug, PartialEq, Eq)]
pub struct Options {
    /// The height of derivations: 1 to 64.
    pub rounds: u8,
    /// How often boxes are halved at most: 0 to 32.
    pub depth: u8,
    /// How many boxes there may be: 1 to 8,192.
    pub boxes: u32,
    /// How many workers settle boxes: 1 to 16. It changes no answer.
    pub workers: u8,
}
