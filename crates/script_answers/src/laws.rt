// One answer is defined for a text.
ghost use Rattle.script_answers.specs.Laws.{MadeAnswersAreOne, TextAnswersAreOne};

use script_grammar::script_or_refusal;
use script_judge::firsts_are_unique;
use settler::answers_are_one;

/// The law that a text has one status and one text of lines, under given options. Nothing is done.
pub fn text_answers_are_one()
    ensures { TextAnswersAreOne }
{
    script_or_refusal();
    firsts_are_unique();
    answers_are_one();
}

/// The law that the made script of a degree has one status and one text of lines. Nothing is done.
pub fn made_answers_are_one()
    ensures { MadeAnswersAreOne }
{
    script_or_refusal();
    firsts_are_unique();
    answers_are_one();
}
