//! What is printed of each goal.
ghost use Rattle.std.specs.Prelude.{◌≡◌, IfOk};
ghost use Rattle.bisect.specs.Gathered as spec;

use crate::outcome::Leaf;
use crate::settler::State;
use fx_edge::Items;
use goals::Line;
use std::alloc::{AllocError, Global};

// The line with what a box's state knows of the goal.
fn with_state(line: Line, state: &State, goal: usize) -> Line
    ensures { result ≡ spec.with_state goal line state.now }
{
    match state {
        State::Settled(facts) => match facts.as_slice().get(goal) {
            Some(fact) => line.joined(fact),
            None => line,
        },
        _ => line,
    }
}

fn line_with(line: Line, leaves: &[Leaf], goal: usize) -> Line
    ensures { result ≡ spec.line_with goal line leaves.now }
{
    let mut line = line;
    let mut leaves = leaves;
    while let [leaf, later @ ..] = leaves {
        line = with_state(line, &leaf.state, goal);
        leaves = later;
    }
    line
}

/// The line of each goal: the hull of what the leaves know of it. Lack of memory is the only error.
pub fn lines_of(alloc: Global, leaves: &[Leaf], goals: usize) -> Result<Items<Line>, AllocError>
    ensures { IfOk result (λ lines. lines ≡ spec.lines_of leaves.now goals) }
{
    let mut lines = Vec::new(alloc);
    for goal in 0..goals {
        lines.push(line_with(Line::Empty, leaves, goal))?;
    }
    Ok(Items::from_vec(lines))
}
