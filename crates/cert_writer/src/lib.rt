//! Writes the certificate of a proved script to a file, box by box.
#![tactic(auto)]

mod cases;
mod ending;
mod head;
mod laws;
mod spell;
mod walk;
mod whole;

pub use laws::writing_goes_on;
pub use walk::WriteStop;
pub use whole::write_cert;
