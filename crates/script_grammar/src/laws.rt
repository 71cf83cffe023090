// What the reading of scripts promises, for callers to cite. Nothing here is done at run time.
ghost use Rattle.script_grammar.specs.Steps.{ReadsScripts};
ghost use Rattle.script_grammar.specs.Names.{SpelledNamesNodes};
ghost use Rattle.script_grammar.specs.Few.{SpelledHaveFewHints, SpelledHaveFewGoals};
ghost use Rattle.script_grammar.specs.Few.{SpelledHaveFewConstraints};
ghost use Rattle.script_grammar.specs.Ranges.{SpelledHaveRanges, SpelledHaveFewCases};
ghost use Rattle.script_grammar.specs.Spells.{SpellsOnce, NeverBoth, SpellsAll, FirstsExist};
ghost use Rattle.script_grammar.specs.Spells.{GoalsHaveSpans, SpelledAreShort};
ghost use Rattle.script_grammar.specs.Read.{SpelledAreRead};

use crate::counts::{goals_are_counted, hints_are_counted, nodes_are_counted, splits_have_ranges};
use goal_spans::spans_are_read;
use script_claims::parts_have_hypotheses;
use script_hints::laws::reads_hints;
use script_judge::{firsts_are_unique, fronts_are_read, reads_scripts};
use script_nodes::laws::literals_are_told;
use script_shape::shape::{leaves_are_of_trees, shapes_exist};
use script_words::lex::{lexed_all, lexed_once, tokens_are_few};

/// Nothing is done. The clause tells a caller that the words of a script, read from the left, are
/// read as its tree.
pub fn scripts_are_read()
    ensures { ReadsScripts }
{
    fronts_are_read();
    reads_hints();
}

/// Nothing is done. The clauses tell a caller that each text spells one script or has one refusal,
/// never both and never neither; and that each goal of a script has its words.
pub fn script_or_refusal()
    ensures once { SpellsOnce }
    ensures never_both { NeverBoth }
    ensures all { SpellsAll }
    ensures answered { FirstsExist }
    ensures spans { GoalsHaveSpans }
{
    spans_are_read();
    scripts_are_read();
    lexed_once();
    lexed_all();
    shapes_exist();
    literals_are_told();
    leaves_are_of_trees();
    fronts_are_read();
    firsts_are_unique();
    reads_scripts();
}

/// Nothing is done. The clause tells a caller that a script that a text spells has no more than 512
/// nodes.
pub fn spelled_are_short()
    ensures { SpelledAreShort }
{
    nodes_are_counted();
    fronts_are_read();
    lexed_once();
    leaves_are_of_trees();
}

/// Nothing is done. The clause tells a caller that in a script that a text spells each literal is
/// read, within its limits, and digits alone stand for the number that they write.
pub fn spelled_are_read()
    ensures { SpelledAreRead }
{
    literals_are_told();
    lexed_once();
    leaves_are_of_trees();
}

/// Nothing is done. The clause tells a caller that each expression that the claims and the hints of
/// a script name is one of its nodes.
pub fn spelled_name_nodes()
    ensures { SpelledNamesNodes }
{}

/// Nothing is done. The clause tells a caller that a script that a text spells has no more than 64
/// rewritings, 64 likes, 4 cuts, each into 64 pieces at most, 4 variables that are halved, and 8 in
/// all splits.
pub fn spelled_have_few_hints()
    ensures { SpelledHaveFewHints }
{
    hints_are_counted();
    lexed_once();
    leaves_are_of_trees();
}

/// Nothing is done. The clause tells a caller that a script that a text spells has no more than 128
/// goals.
pub fn spelled_have_few_goals()
    ensures { SpelledHaveFewGoals }
{
    goals_are_counted();
    lexed_once();
    leaves_are_of_trees();
}

/// Nothing is done. The clause tells a caller that the rewritings of a script that a text spells
/// have no more than 2^18 constraints together.
pub fn spelled_have_few_constraints()
    ensures { SpelledHaveFewConstraints }
{
    tokens_are_few();
}

/// Nothing is done. The clause tells a caller that in each case of a script that a text spells each
/// variable that a hint splits has a hypothesis on its node, with two bounds that are finite when
/// they are rounded outward.
pub fn spelled_have_ranges()
    ensures { SpelledHaveRanges }
{
    splits_have_ranges();
    fronts_are_read();
    lexed_once();
    leaves_are_of_trees();
}

/// Nothing is done. The clause tells a caller that the hypotheses of a script that a text spells
/// are the claims of its conjunctions in their order, and that they have 64 cases at most.
pub fn spelled_have_few_cases()
    ensures { SpelledHaveFewCases }
{
    parts_have_hypotheses();
    splits_have_ranges();
    fronts_are_read();
    lexed_once();
    leaves_are_of_trees();
}
