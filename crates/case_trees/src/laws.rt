//! What holds of the answers of several trees, for callers to cite. Nothing here is done at run
//! time.
ghost use Rattle.std.specs.Prelude.{◌≡◌, ◌≤◌, ℕ, List, length};
ghost use Rattle.box_tree.specs.declared.cut.Cut.{Cut};
ghost use Rattle.box_tree.specs.Pieces.{piece_count};
ghost use Rattle.bisect.specs.declared.settler.State.{State};
ghost use Rattle.bisect.specs.Trees.{tree_of};
ghost use Rattle.case_trees.specs.Gathered.{HasBoxes};
ghost use Rattle.case_trees.specs.Laws.{AnswersAreWithin, FirstIsFirst, GoesOn, HaveOneAnswer};
ghost use Rattle.case_trees.specs.Laws.{LinesHoldOfEach, NoneIsOpen, OneIsAll, StartsFromNothing};
ghost use Rattle.case_trees.specs.Laws.{StopsAtEnd, StopsAtNone, StopsOver};

use bisect::{answers_are_told, boxes_are_listed, one_answer};
use goals::lines_hold;

/// Nothing is done. The clauses tell a caller that several trees have one answer under a limit, and
/// that what one tree comes to is the answer of it alone.
pub fn cases_answer_once()
    ensures once { HaveOneAnswer }
    ensures one { OneIsAll }
{
    one_answer();
}

/// Nothing is done. The clauses tell a caller of `Gathered` that it goes on tree by tree to the
/// answer of all: from nothing; a tree joins, or has more boxes than are left; none may be left; or
/// no other tree follows. And that trees have boxes of which none is cut that lies 36 cuts below
/// the root.
pub fn trees_are_gathered()
    ensures within { AnswersAreWithin }
    ensures starts { StartsFromNothing }
    ensures goes_on { GoesOn }
    ensures over { StopsOver }
    ensures none { StopsAtNone }
    ensures end { StopsAtEnd }
    ensures boxes { (cuts : List ℕ → Cut) (states : List ℕ → State)
        → ((path : List ℕ) → 36 ≤ length path → piece_count (cuts path) ≡ 0)
        → HasBoxes (tree_of cuts states) }
{
    boxes_are_listed();
}

/// Nothing is done. The clauses tell a caller what is read off the boxes of several trees: the
/// first open leaf is the first of its case, and no earlier case has one; and there is none only
/// where no leaf of any tree is open.
pub fn cases_are_told()
    ensures first { FirstIsFirst }
    ensures none { NoneIsOpen }
{
    answers_are_told();
}

/// Nothing is done. The clause tells a caller that the line over the leaves of all trees holds of
/// what one leaf's fact holds of.
pub fn lines_cover_cases()
    ensures { LinesHoldOfEach }
{
    answers_are_told();
    lines_hold();
}
