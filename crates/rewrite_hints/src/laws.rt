//! Why rows are true. Nothing here is done at run time.

ghost use Rattle.rewrite_hints.specs.Rows.{RowsAreTrue, EqualSidesAreMet};

use script_hints::laws::rounded_needs_are_enough;

/// Nothing is done. The clauses tell a caller that a row is true of each assignment that meets its
/// hint, and that a hint whose sides have equal values wherever both have one is met by each.
pub fn rows_are_true()
    ensures rows { RowsAreTrue }
    ensures equal { EqualSidesAreMet }
{
    rounded_needs_are_enough();
}
