//! What answers promise, for callers to cite. Nothing here is done at run time.
ghost use Rattle.std.specs.Prelude.{◌≡◌, ◌≤◌, ◌+◌, ◌++◌, ◌⊎◌, ◌↔◌, ℕ, List, [], length, Some, None};
ghost use Rattle.std.specs.Prelude.{slice_get};
ghost use Rattle.std.specs.List.{Contains};
ghost use Rattle.fx_model.specs.Expression.{Assignment, value};
ghost use Rattle.fx_model.specs.declared.Node.{Node};
ghost use Rattle.facts.specs.Holds.{Holds};
ghost use Rattle.facts.specs.declared.fact.Slot.{Slot};
ghost use Rattle.goals.specs.Holds.{LineHolds};
ghost use Rattle.box_tree.specs.Covers.{Values, LieInBox};
ghost use Rattle.box_tree.specs.Pieces.{piece_count};
ghost use Rattle.box_tree.specs.Plans.{cut_at};
ghost use Rattle.box_tree.specs.declared.cut.Cut.{Cut};
ghost use Rattle.bisect.specs.Trees.{Tree, tree_of, IsLeaf};
ghost use Rattle.bisect.specs.Boxes.{AreBoxes, IsBefore, IsOpenLeaf, first_open, leaves_of};
ghost use Rattle.bisect.specs.Answers.{IsAnswer};
ghost use Rattle.bisect.specs.Walks.{Seen, IsListed, after};
ghost use Rattle.bisect.specs.declared.outcome.Leaf.{Leaf};
ghost use Rattle.bisect.specs.Gathered.{line_of, IsTrueState};
ghost use Rattle.bisect.specs.declared.settler.State.{State};
ghost use Rattle.bisect.specs.declared.outcome.Outcome.{Outcome};

use box_tree::Plan;
use goals::lines_hold;

/// Nothing is done. The clauses tell a caller that all values of the whole box lie in some leaf's
/// box; and that where no leaf is open, and each leaf's state is true wherever the values lie in
/// its box, the gathered line of each goal holds.
pub fn leaves_cover(plan: &Plan)
    ensures some { (states : List ℕ → State) (v : Values) → LieInBox plan.now v []
        → (path : List ℕ) × IsLeaf (tree_of (cut_at plan.now) states) path
        × LieInBox plan.now v path }
    ensures lines { (states : List ℕ → State) (nodes : List Node) (a : Assignment)
        (slots : List Slot) (boxes : List (List ℕ))
        → LieInBox plan.now (value nodes a) []
        → ((path : List ℕ) → IsLeaf (tree_of (cut_at plan.now) states) path
        → LieInBox plan.now (value nodes a) path → IsTrueState (Holds nodes a) slots (states path))
        → AreBoxes (tree_of (cut_at plan.now) states) boxes
        → first_open (tree_of (cut_at plan.now) states) boxes ≡ None
        → (k : ℕ) (s : Slot) → slice_get slots k ≡ Some s
        → LineHolds nodes a s (line_of (leaves_of (tree_of (cut_at plan.now) states) boxes) k) }
{
    plan.laws();
    plan.covers();
    lines_hold();
}

/// Nothing is done. The clause tells a caller that a tree has one answer under a limit.
pub fn one_answer()
    ensures { (t : Tree) (limit : ℕ) (found other : Outcome) → IsAnswer t limit found
        → IsAnswer t limit other → found ≡ other }
{}

/// Nothing is done. The clauses tell a caller what is read off the list of a tree's boxes: the
/// first open leaf is one, and each other lies after it; there is none exactly where no leaf is
/// open; and the leaves are those of the tree, with their states.
pub fn answers_are_told()
    ensures first { (t : Tree) (boxes : List (List ℕ)) (path : List ℕ) (goal : ℕ) → AreBoxes t boxes
        → first_open t boxes ≡ Some (path, goal)
        → IsOpenLeaf t path goal
        × ((other : List ℕ) (g : ℕ) → IsOpenLeaf t other g → (path ≡ other) ⊎ IsBefore path other) }
    ensures none { (t : Tree) (boxes : List (List ℕ)) → AreBoxes t boxes → first_open t boxes ≡ None
        → (path : List ℕ) (goal : ℕ) → ¬ (IsOpenLeaf t path goal) }
    ensures leaves { (t : Tree) (boxes : List (List ℕ)) → AreBoxes t boxes
        → (leaf : Leaf) → Contains (leaves_of t boxes) leaf
        ↔ (IsLeaf t leaf.path × (leaf.state ≡ t.state_at leaf.path)) }
{}

/// Nothing is done. The clause tells a caller of `visit` which list it walks over.
pub fn boxes_are_listed()
    ensures { (cuts : List ℕ → Cut) (states : List ℕ → State)
        → ((path : List ℕ) → 36 ≤ length path → piece_count (cuts path) ≡ 0)
        → IsListed (tree_of cuts states) }
{}

/// Nothing is done. The clauses tell a caller of `visit` what a walk over boxes has seen.
pub fn walks_see()
    ensures boxes { (t : Tree) (w : Seen) (paths : List (List ℕ))
        → (after t w paths).boxes ≡ w.boxes + length paths }
    ensures leaves { (t : Tree) (w : Seen) (paths : List (List ℕ))
        → (after t w paths).leaves ≡ w.leaves ++ leaves_of t paths }
{}
