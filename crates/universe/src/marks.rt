//! How far the rewriting hints of a script are trusted.

ghost use Rattle.std.specs.Prelude.{IfOk};
ghost use Rattle.rewrite_hints.specs.Marks.{AreMarks};

use facts::HintMark;
use rewrite_hints::marks_of;
use script_grammar::Script;
use std::alloc::{AllocError, Global};

/// The mark of each rewriting hint of the script, in order. Lack of memory is the only error.
pub fn classify(alloc: Global, script: &Script<'_>) -> Result<Vec<HintMark>, AllocError>
    ensures { IfOk result (λ marks.
        AreMarks script.now.nodes script.now.hints.rewrites marks.items) }
{
    script.laws();
    marks_of(alloc, script.nodes(), script.hints().rewrites.as_slice())
}
