//! What trimming promises, for callers to cite. Nothing here is done at run time.
ghost use Rattle.cert_trim.specs.Behind.{LeavesAreTrimmed, CertificatesStaySo, AreFewer};
ghost use Rattle.cert_trim.specs.Law.{TrimmedAreAccepted, AcceptsTrimmed, AllLeftAreUsed};
ghost use Rattle.cert_trim.specs.Law.{LedCiteEarlier, SpelledStaySo};

/// Nothing is done. The clauses tell a caller that items with which nothing is wrong have nothing
/// wrong without steps that no other item cites, and lead to the same lines; that they cite earlier
/// steps alone; that without its unused steps each step of a certificate is used; and that what is
/// left has spellings.
pub fn trimmed_are_accepted()
    ensures any { TrimmedAreAccepted }
    ensures used { AcceptsTrimmed }
    ensures left { AllLeftAreUsed }
    ensures earlier { LedCiteEarlier }
    ensures spelled { SpelledStaySo }
{}

/// Nothing is done. The clauses tell a caller that a section that isn't cut has nothing wrong
/// without its unused steps, and that all is the same behind it but the number of the next step;
/// that a certificate stays one where steps go; and that what is left has no more items and steps,
/// and no greater bound of its bytes.
pub fn leaves_are_trimmed()
    ensures leaves { LeavesAreTrimmed }
    ensures order { CertificatesStaySo }
    ensures fewer { AreFewer }
{}
