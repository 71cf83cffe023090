//! What holds of a certificate that is written box by box, for callers to cite. Nothing here is
//! done at run time.
ghost use Rattle.cert_writer.specs.Laws.{WritingGoesOn};
ghost use Rattle.cert_writer.specs.Walks.{WalkGoesOn};

use answer_certificates::pieces_are_of_cuts;
use box_tree::Plan;
use cert_bytes::spellings_are_short;
use cert_trim::leaves_are_trimmed;
use derivation::{best_tables_exist, boxes_come_to_one_state};
use saturate::rules_are_lawful;
use tree_certificates::{certificates_exist, walks_move};

/// Nothing is done. The clause tells a caller how a certificate goes on from box to box, that it is
/// whole behind the last, and that before it is a front of an accepted one with all its lines.
pub fn writing_goes_on()
    ensures { WritingGoesOn }
{
    certificates_exist();
    walks_move();
    spellings_are_short();
    leaves_are_trimmed();
}

// Nothing is done. The clause tells what the walk over the plan's boxes goes by.
pub(crate) fn walk_goes_on(plan: &Plan)
    ensures { WalkGoesOn plan.now }
{
    writing_goes_on();
    walks_move();
    best_tables_exist();
    boxes_come_to_one_state();
    rules_are_lawful();
    pieces_are_of_cuts();
    plan.covers();
}
