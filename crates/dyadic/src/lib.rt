//! Numbers m * 2^e with exact comparison and outward rounding.
#![tactic(auto)]

mod cut;
mod floor;
mod middle;
mod number;
mod order;
mod points;
mod products;
mod reciprocal;
mod rounding;
mod shift;
mod sums;
mod text;

pub use middle::{halve_between, part_down};
pub use number::{Dyadic, End};
pub use order::{greater, lesser};
pub use points::Points;
pub use products::{div_down, div_up, mul_down, mul_up, ratio_down, ratio_up};
pub use sums::{add_down, add_up};
