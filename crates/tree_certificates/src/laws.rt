//! What holds of steps and certificates, for callers to cite. Nothing here is done at run time.
ghost use Rattle.tree_certificates.specs.Laws.{TracesExist, CertificatesExist, RulesFitSteps};
ghost use Rattle.tree_certificates.specs.Moves.{WalksGoOn, WalksMove};

/// Nothing is done. The clauses tell a caller that for every box there are steps that the checker
/// accepts and that conclude its best facts, or VOID; and that trees whose leaves are settled, one
/// for each case, have a certificate that is accepted with the lines of all leaves. Both say so
/// whether or not memory is found to write them.
pub fn certificates_exist()
    ensures traces { TracesExist }
    ensures certificates { CertificatesExist }
    ensures walks { WalksGoOn }
{}

/// Nothing is done. The clause tells a caller how a walk over a tree's boxes moves on: behind any
/// trace of a box it is cut, and its first piece entered, or it ends; behind a section the next
/// piece is entered, or its box ends, and there are items to the end; behind a case's tree that of
/// the next is entered.
pub fn walks_move()
    ensures { WalksMove }
{}

/// Nothing is done. The clause tells a caller that what the list of rules concludes can be written
/// as steps.
pub fn rules_fit_steps()
    ensures { RulesFitSteps }
{}
