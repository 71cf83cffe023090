//! Literals of scripts: their spellings, normal forms, and the powers of two that divide them.
#![tactic(auto)]

mod multiple;
mod normal;
mod number;
mod reading;
mod scan;

pub use fx_model::Literal;
pub use multiple::fix_of;
pub use reading::{LiteralFault, read, read_bytes};
pub use scan::{Form, Mark};
