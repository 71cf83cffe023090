//! What the reading of words gives. Nothing here is done at run time.

ghost use Rattle.script_hints.specs.ReadingLaw.{ReadsHints, HintsGrow};
ghost use Rattle.script_hints.specs.Meets.{NeedsAreEnough, MetSidesAreEqual};

use script_bounds::needs_are_enough;
use script_nodes::laws::{nodes_only_grow, reads_trees};

/// Reading the words of hints from the left gives what the hints say, and the nodes of their
/// expressions.
pub fn reads_hints()
    ensures { ReadsHints }
{
    reads_trees();
}

/// Nodes never go while the words of hints are read.
pub fn hints_only_grow()
    ensures { HintsGrow }
{
    nodes_only_grow();
}

/// Nothing is done. The clauses tell a caller that what meets a rounded need meets the constraint
/// as it is written; and that an assignment that meets a rewriting gives its sides equal values
/// where all its rounded needs are met.
pub fn rounded_needs_are_enough()
    ensures needs { NeedsAreEnough }
    ensures sides { MetSidesAreEqual }
{
    needs_are_enough();
}
