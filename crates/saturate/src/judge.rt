//! What a box with a best table comes to.
ghost use Rattle.std.specs.Prelude.{◌≡◌, ◌≤◌, length};
ghost use Rattle.derivation.specs.Decided.{is_settled, first_open, state_in};
ghost use Rattle.saturate.specs.Tables.{fact_at};
ghost use Rattle.saturate.specs.Boxes.{table_of, state_of};

use crate::kept::Table;
use crate::settled::Settled;
use goals::{Goal, has_wanted};

// Whether the table's fact on the goal's slot is what is wanted.
fn is_settled(table: &Table, goal: Goal) -> bool
    ensures { result ≡ is_settled (fact_at table.now) goal }
{
    match table.strongest(goal.of) {
        Some(found) => has_wanted(goal.want, &found),
        None => false,
    }
}

// The least goal that isn't settled.
fn first_open(table: &Table, goals: &[Goal]) -> Option<u16>
    requires { length goals.now ≤ 65535 }
    ensures { result ≡ first_open (fact_at table.now) goals.now }
{
    for (k, goal) in goals.iter().enumerate() {
        if !is_settled(table, *goal) {
            return Some(k as u16);
        }
    }
    None
}

/// What the box comes to whose best table this is.
pub(crate) fn judge(table: Table, goals: &[Goal]) -> Settled
    requires { length goals.now ≤ 65535 }
    ensures table { table_of result ≡ table }
    ensures state { state_of result ≡ state_in (fact_at table) goals.now }
{
    if table.void {
        return Settled::Void(table);
    }
    match first_open(&table, goals) {
        Some(k) => Settled::Open(table, k),
        None => Settled::Done(table),
    }
}
