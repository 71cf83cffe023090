//! What is answered to a script's text under options: a status and lines.
#![tactic(auto)]

mod answers;
mod found;
mod laws;
mod made;

pub use answers::{answer, proved_lines};
pub use found::{Found, prove_job, prove_job_alone, unbuilt_line};
pub use laws::{made_answers_are_one, text_answers_are_one};
pub use made::made_answer;
