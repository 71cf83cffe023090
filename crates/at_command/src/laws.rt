// One answer is defined for a text and a point, and what the last line says is so.
ghost use Rattle.at_command.specs.Laws.{AtAnswersAreOne, MeetingIsMet};

use point_eval::meeting_is_told;
use point_text::points_are_one;
use script_grammar::script_or_refusal;
use script_judge::firsts_are_unique;

/// The law that a text and a point have one status and one text of lines, where the point's bytes
/// are told or the text is no script. Nothing is done.
pub fn at_answers_are_one()
    ensures { AtAnswersAreOne }
{
    script_or_refusal();
    points_are_one();
    firsts_are_unique();
}

/// The law that a point's assignment meets the script wherever the last line of its evaluation says
/// so. Nothing is done.
pub fn meeting_points_meet()
    ensures { MeetingIsMet }
{
    meeting_is_told();
}
