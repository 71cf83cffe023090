//! What acceptance promises, for callers to cite. Nothing here is done at run time.
ghost use Rattle.cert_checker.specs.Accepted.{HaveEachRoot};
ghost use Rattle.cert_checker.specs.Met.{HoldsOverCertificates, AcceptedHolds, InOrderHolds};
ghost use Rattle.cert_checker.specs.Outcomes.{ComesOnce, CheckedHolds, AcceptedAreSpelled};
ghost use Rattle.cert_checker.specs.Outcomes.{SpelledAreAccepted};
ghost use Rattle.cert_checker.specs.Once.{JudgedOnce, LeadsOnce, LeadsOrFails, FailsOnce};

use cert_bytes::certificates_are_spelled_once;
use expr_dag::values_stay;
use goals::{lines_hold, settling_facts};
use theorem_list::conclusions_are_sound;

/// Nothing is done. The clauses tell a caller that the lines of an accepted certificate hold of
/// every assignment that meets the subject: of which the rows of its hints are true, and the facts
/// of one of its cases hold; and so does a fact that settles each goal. The last two speak of items
/// in order, whatever spells them, and of bytes that are accepted.
pub fn accepted_lines_hold()
    ensures certificate { HoldsOverCertificates }
    ensures script { AcceptedHolds }
    ensures order { InOrderHolds }
    ensures bytes { CheckedHolds }
{
    lines_hold();
    settling_facts();
    conclusions_are_sound();
    values_stay();
}

/// Nothing is done. The clauses tell a caller that each item is judged in one way: items lead to
/// one context or have one first fault, and never both.
pub fn items_are_judged_once()
    ensures judged { JudgedOnce }
    ensures leads { LeadsOnce }
    ensures apart { LeadsOrFails }
    ensures fails { FailsOnce }
    ensures bytes { ComesOnce }
{}

/// Nothing is done. The clause tells a caller that a certificate has a root section for each case
/// of the subject.
pub fn each_case_has_its_root()
    ensures { HaveEachRoot }
{}

/// Nothing is done. The clauses tell a caller that bytes are accepted exactly where they spell a
/// certificate that is accepted.
pub fn bytes_are_accepted()
    ensures spelled { AcceptedAreSpelled }
    ensures accepted { SpelledAreAccepted }
{
    certificates_are_spelled_once();
}
