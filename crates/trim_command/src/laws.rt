// One answer is defined for a text and a certificate, and those that are accepted are trimmed.
ghost use Rattle.trim_command.specs.Laws.{AcceptableAreTrimmed, TrimAnswersAreOne};

use cert_bytes::certificates_are_spelled_once;
use cert_checker::bytes_are_accepted;
use cert_trim::trimmed_are_accepted;
use check_command::check_answers_are_one;
use script_checker::checks_are_one;
use script_grammar::script_or_refusal;

/// Nothing is done. The clauses tell a caller that a text and a certificate have one status, one
/// text of lines and one new file, where the certificate's bytes are told or the text is no script;
/// and that told bytes which are accepted for a script are trimmed, where what is written of them
/// isn't too long.
pub fn trim_answers_are_one()
    ensures one { TrimAnswersAreOne }
    ensures comes { AcceptableAreTrimmed }
{
    script_or_refusal();
    checks_are_one();
    check_answers_are_one();
    bytes_are_accepted();
    trimmed_are_accepted();
    certificates_are_spelled_once();
}
