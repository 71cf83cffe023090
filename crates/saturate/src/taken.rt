// How a sweep goes on.

/// What became of what an instance concluded.
#[derive(Clone, Copy, Debug)]
pub enum Taken {
    /// What was known is as strong, and nothing changed.
    Same,
    /// More is known on the slot, and VOID isn't.
    More,
    /// VOID is known.
    Void,
    /// There was no room for it.
    Full,
}

/// How a sweep stands.
#[derive(Clone, Copy, Debug)]
pub(crate) enum Course {
    /// It goes on.
    On,
    /// It ended with VOID, and what is known is best.
    Best,
    /// It ended before what is known was best.
    Lost,
}
