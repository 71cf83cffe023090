// What holds of derivations, for callers to cite. Nothing here is done at run time.
ghost use Rattle.derivation.specs.Laws.{TablesExist, TablesAreOne, HeightsExist};
ghost use Rattle.derivation.specs.Laws.{BoxesComeToOneState, KnownFactsHold, SettledBoxesHold};
ghost use Rattle.derivation.specs.Laws.{KnownFactsAreOfSets};

use goals::settling_facts;

/// Nothing is done. The clauses tell a caller that each box has a table with the best facts that
/// are known there, whether or not memory is found for it; and that, where VOID isn't known, two
/// such tables have the same facts. The same of each height below the box's.
pub fn best_tables_exist()
    ensures exist { TablesExist }
    ensures one { TablesAreOne }
    ensures heights { HeightsExist }
{}

/// Nothing is done. The clause tells a caller that a box comes to just one thing, which its best
/// table decides.
pub fn boxes_come_to_one_state()
    ensures { BoxesComeToOneState }
{
    settling_facts();
}

/// Nothing is done. The clauses tell a caller that what is known at a box holds of every assignment
/// that meets the hypotheses and lies in the box; so each goal of a settled box has an interval
/// with its value, and no such assignment lies in a box where VOID is known.
pub fn known_facts_hold()
    ensures known { KnownFactsHold }
    ensures boxes { SettledBoxesHold }
{}

/// For readers alone; nothing is done. The clause says that the order of hypotheses and of
/// instances doesn't matter: two settings with the same ones know the same facts, and their boxes
/// come to the same.
pub fn known_facts_are_of_sets()
    ensures { KnownFactsAreOfSets }
{}
