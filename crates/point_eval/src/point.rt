//! Points: a number for each variable of a script.

use fx_edge::Items;
use fx_model::Literal;
use literal_order::Written;

/// For each variable of a script, by its number, what it is set to: a number, or a number over a
/// literal that isn't 0.
#[derive(Debug, Drop)]
pub struct Point {
    pub rows: Items<(Written, Option<Literal>)>,
}
