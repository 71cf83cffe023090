//! Which words of a script are the expression part of each goal.
#![tactic(auto)]

mod laws;
mod reader;
mod span;

pub use laws::spans_are_read;
pub use reader::goal_spans;
pub use span::Span;
