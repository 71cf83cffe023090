// Whole scripts have few nodes, hints and goals: what the judge lets pass has room in the list.
ghost use Rattle.script_grammar.specs.Counted.{NodesAreCounted, CasesAreCounted};
ghost use Rattle.script_grammar.specs.CountedHints.{HintsAreFew, GoalsAreFew};
ghost use Rattle.script_grammar.specs.SplitRanges.{SplitsHaveRanges};

use script_claims::formulas_are_read;
use script_hints::laws::reads_hints;
use script_nodes::laws::reads_trees;
use script_shape::shape::{leaves_are_of_trees, roles_are_unique};

/// Nothing is done. The clause tells a caller that a script of a text whose words pass the judge
/// has no more than 512 nodes.
pub fn nodes_are_counted()
    ensures { NodesAreCounted }
{
    reads_trees();
    formulas_are_read();
    reads_hints();
    leaves_are_of_trees();
    roles_are_unique();
}

/// Nothing is done. The clause tells a caller that the hypotheses of a formula whose words pass the
/// judge have 64 cases at most.
pub fn cases_are_counted()
    ensures { CasesAreCounted }
{}

/// Nothing is done. The clause tells a caller that a script whose words pass the judge has no more
/// than 64 rewritings, 64 likes, 4 cuts, each into 64 pieces at most, 4 variables that are halved,
/// and 8 in all splits.
pub fn hints_are_counted()
    ensures { HintsAreFew }
{}

/// Nothing is done. The clause tells a caller that a script whose words the judge lets pass has no
/// more than 128 goals.
pub fn goals_are_counted()
    ensures { GoalsAreFew }
{}

/// Nothing is done. The clause tells a caller that in a script whose words pass the judge the
/// hypotheses have 64 cases at most, and in each of them each variable that a hint splits has a
/// hypothesis on its node, with two bounds that are finite when they are rounded outward.
pub fn splits_have_ranges()
    ensures { SplitsHaveRanges }
{}
