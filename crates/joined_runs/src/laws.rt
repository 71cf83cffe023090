// What a run leaves for another.
ghost use Rattle.joined_runs.specs.Laws.{FixedProgramsAreSound, PointsAreHeld};
ghost use Rattle.joined_runs.specs.Laws.{TrimmedAreAnswered, UpgradedAreAnswered};
ghost use Rattle.joined_runs.specs.Laws.{WrittenAreAnswered};

use at_command::meeting_points_meet;
use cert_bytes::certificates_are_spelled_once;
use cert_checker::bytes_are_accepted;
use check_command::check_answers_are_one;
use program_truths::no_run_wraps;
use script_checker::checks_are_one;
use script_grammar::script_or_refusal;

/// For readers alone, the law that `check` answers what `prove --cert` wrote with the lines that
/// were printed then. Nothing is done.
pub fn written_certificates_are_answered()
    ensures { WrittenAreAnswered }
{
    bytes_are_accepted();
    check_answers_are_one();
}

/// For readers alone, the law that `check` answers what `trim` wrote, with the lines that the old
/// certificate has. Nothing is done.
pub fn trimmed_certificates_are_answered()
    ensures { TrimmedAreAnswered }
{
    script_or_refusal();
    checks_are_one();
    bytes_are_accepted();
    check_answers_are_one();
}

/// For readers alone, the law that `check` answers what `upgrade` wrote for each script for which
/// it answered the old certificate, whose numbers are bytes, with the same lines. Nothing is done.
pub fn upgraded_certificates_are_answered()
    ensures { UpgradedAreAnswered }
{
    certificates_are_spelled_once();
    bytes_are_accepted();
    check_answers_are_one();
}

/// For readers alone, the law that where `prove` answers the script that `fix` wrote, no run of the
/// program on words in range wraps, and the value of each step and output lies in its printed
/// interval. Nothing is done.
pub fn fixed_programs_are_sound()
    ensures { FixedProgramsAreSound }
{
    no_run_wraps();
}

/// For readers alone, the law that where `prove` answers a script, and `at` says of a point that it
/// meets, each goal's value at the point lies in its printed interval. Nothing is done.
pub fn meeting_points_are_held()
    ensures { PointsAreHeld }
{
    script_or_refusal();
    meeting_points_meet();
}
