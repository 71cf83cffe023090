// What scripts of programs promise, for callers to cite. Nothing here is done at run time.
ghost use Rattle.program_truths.specs.Promise.{ScriptsTellRuns, ScriptsAreScripts, NoRunWraps};
ghost use Rattle.program_truths.specs.Outputs.{OutputsLie};

use expr_dag::values_stay;
use fixprog::turn::{spelled_are_sound, words_are_alone};
use script_grammar::script_or_refusal;
use script_nodes::laws::literals_are_told;
use script_shape::shape::leaves_are_of_trees;
use script_words::laws::ends_before_quiet;

/// Nothing is done. The clauses tell a caller that each program's script is a script, which tells
/// the program's runs, and so that where its goals are true no run wraps; and where lines hold of
/// the script, that the value of each step and output lies in its line's interval.
pub fn no_run_wraps()
    ensures tells { ScriptsTellRuns }
    ensures scripts { ScriptsAreScripts }
    ensures never { NoRunWraps }
    ensures lie { OutputsLie }
{
    ends_before_quiet();
    values_stay();
    literals_are_told();
    leaves_are_of_trees();
    script_or_refusal();
    words_are_alone();
    spelled_are_sound();
}
