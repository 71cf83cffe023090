//! Normal forms of expressions: whether two of them are equal as rational functions.
#![tactic(auto)]

mod answer;
mod arithmetic;
mod forms;
mod law;
mod limited;
mod literals;
mod parts;
mod sameness;
mod shared;
mod sides;
mod terms;

pub use answer::same as same_of_nodes;
pub use law::equal_forms_have_equal_values;
pub use sameness::Sameness;
pub use shared::{Forms, same};
