//! Whole texts: read from a folder, written to a new file, put into a sink.
#![tactic(auto)]

mod put;
mod read;
mod write;

pub use put::put_all;
pub use read::{ReadStop, read_text};
pub use write::{append_all, pass_on, write_new};

/// How many bytes a file is asked for, or is given, at once. Each call opens it anew.
const PIECE: usize = 1 << 16;
