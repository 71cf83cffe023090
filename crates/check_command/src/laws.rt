// One answer is defined for a text and a certificate.
ghost use Rattle.check_command.specs.Laws.{CheckAnswersAreOne};

use script_checker::checks_are_one;
use script_grammar::script_or_refusal;
use script_judge::firsts_are_unique;

/// The law that a text and a certificate have one status and one text of lines, where the
/// certificate's bytes are told or the text is no script. Nothing is done.
pub fn check_answers_are_one()
    ensures { CheckAnswersAreOne }
{
    script_or_refusal();
    firsts_are_unique();
    checks_are_one();
}
