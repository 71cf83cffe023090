//! The words of the command line.
#![tactic(auto)]

mod at;
mod batch;
mod check;
mod fix;
mod made;
mod names;
mod numbers;
mod options;
mod prove;
mod simple;
mod trim;
mod upgrade;
mod usage_line;

pub use at::{AtRequest, read_at};
pub use batch::{BatchRequest, read_batch};
pub use check::{CheckRequest, read_check};
pub use fix::{FixRequest, read_fix};
pub use made::read_gen;
pub use prove::{Request, read_prove};
pub use simple::WordsError;
pub use trim::{TrimRequest, read_trim};
pub use upgrade::{UpgradeRequest, read_upgrade};
pub use usage_line::usage;
