//! That there is room for the certificates of scripts, for callers to cite. Nothing here is done at
//! run time.
ghost use Rattle.std.specs.Prelude.{List};
ghost use Rattle.script_claims.specs.declared.claim.Claim.{Claim};
ghost use Rattle.universe.specs.Universes.{IsUniverse};
ghost use Rattle.answer_certificates.specs.Scripts.{HasCases, ScriptsHaveRoom, HasSlots};
ghost use Rattle.answer_certificates.specs.Scripts.{GoalsHaveSlots};

use rule_universe::Universe;
use script_grammar::{
    Script, spelled_are_short, spelled_have_few_cases, spelled_have_few_constraints,
    spelled_have_few_hints,
};
use script_shape::shape::leaves_are_of_trees;
use script_words::lex::lexed_once;
use universe::hypotheses_have_slots;

/// Nothing is done. The clauses tell a caller that certificates have room for each case of a
/// script that a text spells, with a universe that was built; and that the goals of a script are
/// about slots of its universe.
pub fn scripts_have_room()
    ensures room { ScriptsHaveRoom }
    ensures slots { GoalsHaveSlots }
{
    spelled_are_short();
    spelled_have_few_hints();
    spelled_have_few_constraints();
    spelled_have_few_cases();
    lexed_once();
    leaves_are_of_trees();
    hypotheses_have_slots();
}

/// Nothing is done. The clauses tell a caller who has a script and its universe, whatever is
/// assumed in that, that certificates have room for each of its cases, and that its goals are about
/// slots of the universe.
pub fn script_has_room(script: &Script<'_>, universe: &Universe)
    requires { (before : List Claim) × IsUniverse script.now before universe.now }
    ensures cases { HasCases script.now universe.now }
    ensures slots { HasSlots universe.now universe.now.goals }
{
    script.laws();
    universe.laws();
    universe.dag().laws();
    scripts_have_room();
}
