//! The lines that leaves show.
ghost use Rattle.std.specs.Prelude.{◌≡◌, map, IfOk};
ghost use Rattle.goals.specs.declared.line.Line.TheVariants as line;
ghost use Rattle.cert_checker.specs.After.{lines_with, with_cited};

use crate::open::OpenSteps;
use facts::{Fact, HintMark};
use fx_edge::Items;
use goals::{Goal, Line};
use std::alloc::{AllocError, Global};

/// What an accepted certificate shows.
#[derive(Debug, Drop)]
pub struct Lines {
    /// One for each goal.
    pub rows: Items<Line>,
    /// One for each rewriting hint.
    pub marks: Items<HintMark>,
}

/// The line of each goal, before any leaf.
pub fn no_lines(alloc: Global, goals: &[Goal]) -> Result<Vec<Line>, AllocError>
    ensures { IfOk result (λ lines. lines.items ≡ map (λ g. line.Empty) goals.now) }
{
    let mut lines = Vec::new(alloc);
    for _goal in goals {
        lines.push(Line::Empty)?;
    }
    Ok(lines)
}

// The line with a further leaf, where the step that it cites was found.
fn with_cited(line: Line, found: Option<Fact>) -> Line
    ensures { result ≡ with_cited line found }
{
    match found {
        Some(fact) => line.joined(&fact),
        None => line,
    }
}

/// The lines with a further leaf, which cites these steps.
pub fn add_leaf(lines: &mut Vec<Line>, steps: &OpenSteps, refs: &[u64])
    ensures { lines.new.items ≡ lines_with steps.now.rows lines.old.items refs.now }
{
    let partners = lines.len().min(refs.len());
    for k in 0..partners {
        lines[k] = with_cited(lines[k], steps.find(refs[k]));
    }
}
