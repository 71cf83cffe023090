//! Laws on two runs: what one leaves for another. Nothing here is done at run time.
#![tactic(auto)]

mod laws;

pub use laws::{
    fixed_programs_are_sound, meeting_points_are_held, trimmed_certificates_are_answered,
    upgraded_certificates_are_answered, written_certificates_are_answered,
};
