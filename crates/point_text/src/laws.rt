//! What is true of points. Nothing here is done at run time.

ghost use Rattle.point_text.specs.Once.{SpelledOnce, NeverBoth, FaultsAreOne};

use script_nodes::laws::reads_literals;
use script_words::lex::lexed_once;

/// Nothing is done. The clauses tell a caller that a text spells one point of a script at most,
/// that a text with a fault spells none, and that it has one fault.
pub fn points_are_one()
    ensures once { SpelledOnce }
    ensures apart { NeverBoth }
    ensures faults { FaultsAreOne }
{
    reads_literals();
    lexed_once();
}
