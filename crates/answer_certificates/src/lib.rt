//! The certificates of scripts' answers: each script that is proved has one that is accepted, with
//! its lines.
#![tactic(auto)]

mod laws;
mod room;

pub use laws::{
    answers_have_certificates, pieces_are_of_cuts, scripts_have_roots, subjects_are_written,
    universes_are_small,
};
pub use room::{script_has_room, scripts_have_room};
