// What spans promise, for callers to cite. Nothing here is done at run time.
ghost use Rattle.goal_spans.specs.Reading.{ReadsSpans};

use script_shape::shape::leaves_are_of_trees;

/// Nothing is done. The clause tells a caller that the words of a script, read from the left by
/// their roles, give the spans of its tree.
pub fn spans_are_read()
    ensures { ReadsSpans }
{
    leaves_are_of_trees();
}
