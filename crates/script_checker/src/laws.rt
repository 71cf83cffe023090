//! What an accepted certificate of a script says. Nothing here is done at run time.
ghost use Rattle.script_checker.specs.Checking.{AcceptedHoldsOfScripts, CheckedHoldsOfScripts};
ghost use Rattle.script_checker.specs.Checking.{ChecksAreOne};

use cert_checker::{accepted_lines_hold, items_are_judged_once};
use rewrite_hints::rows_are_true;
use script_claims::{goals_are_enough, hypotheses_hold};
use script_meets::met_scripts;

/// For readers alone; nothing is done. The clauses say that the lines of an accepted certificate,
/// and of bytes that are accepted, hold of every assignment that meets the script; and that its
/// goals are true of it.
pub fn accepted_lines_hold_of_scripts()
    ensures items { AcceptedHoldsOfScripts }
    ensures bytes { CheckedHoldsOfScripts }
{
    accepted_lines_hold();
    goals_are_enough();
    hypotheses_hold();
    rows_are_true();
    met_scripts();
}

/// Nothing is done. The clause tells a caller that one thing comes of a certificate's bytes for a
/// script: they are accepted, with what that comes to, or have one first fault.
pub fn checks_are_one()
    ensures { ChecksAreOne }
{
    items_are_judged_once();
}
