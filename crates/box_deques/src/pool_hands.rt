//! The hands of a whole pool.
ghost use Rattle.std.specs.Prelude.{◌≡◌, ℕ, ◌<◌, ◌≤◌, [], length, vec_len, IfOk, OnErr, OnOk};
ghost use Rattle.std.specs.Prelude.{slice_index_or};
ghost use Rattle.box_deques.specs.Seen as seen;
ghost use Rattle.box_deques.specs.Seen.{with_hand, with_pass, seat_at, Each, IsBare, IsBareHand};
ghost use Rattle.box_deques.specs.Seen.{IsSeated, Lent};

use crate::hand::{Hand, Seat};
use crate::lane::Lane;
use crate::task::{Naming, Task};
use std::alloc::{AllocError, Global};

// As many seats as there are lanes, without passes.
fn seats_for<T: Drop>(
    alloc: Global,
    hand: u8,
    lanes: usize,
    room: u32,
) -> Result<Vec<Seat<T>>, AllocError>
    ensures { IfOk result (λ v. (vec_len v ≡ lanes)
        × Each (λ (k : ℕ) (seat : seen.Seat). IsBare hand room seat) lanes v.items) }
{
    let mut seats = Vec::with_capacity(alloc, lanes)?;
    for _ in 0..lanes {
        let takes = Vec::with_capacity(alloc, room as usize)?;
        seats.push_reserved(Seat {
            pass: None,
            hand,
            room,
            takes,
            empty: 0,
        });
    }
    Ok(seats)
}

// Gives a hand its pass on each lane.
fn give_passes<T: Task, Q: Naming<T::World>>(hand: &mut Hand<T>, lanes: &mut [Lane<T, Q>])
    requires seats { (length hand.old.seats ≡ length lanes.old)
        × ((k : ℕ) → k < length lanes.old → (seat_at hand.old.seats k).takes ≡ []) }
    requires next { Each (λ (k : ℕ) (lane : seen.Lane). lane.hands
        ≡ (seat_at hand.old.seats k).hand)
        (length lanes.old) lanes.old }
    ensures number { hand.new.number ≡ hand.old.number }
    ensures lanes { (k : ℕ) (d : seen.Lane) → k < length lanes.old
        → slice_index_or lanes.new k d ≡ with_hand (slice_index_or lanes.old k d) }
    ensures seats { Each (λ (k : ℕ) (lane : seen.Lane). seat_at hand.new.seats k
        ≡ with_pass (seat_at hand.old.seats k) lane.name) (length lanes.old) lanes.old }
    ensures long { length hand.new.seats ≡ length hand.old.seats }
{
    for k in 0..lanes.len() {
        let lane = &mut lanes[k];
        let pass = lane.lend();
        hand.take_pass(k, pass);
    }
}

// The hands, without passes.
fn bare_hands<T: Drop>(alloc: Global, count: u8, room: u32) -> Result<Vec<Hand<T>>, AllocError>
    ensures { IfOk result (λ v. (vec_len v ≡ count)
        × Each (λ (k : ℕ) (hand : seen.Hand). IsBareHand k count room hand) count v.items) }
{
    let mut hands = Vec::with_capacity(alloc, count as usize)?;
    for number in 0..count {
        let seats = seats_for(alloc, number, count as usize, room)?;
        hands.push_reserved(Hand { number, seats });
    }
    Ok(hands)
}

// Gives each hand its passes, in their order.
fn give_all<T: Task, Q: Naming<T::World>>(hands: &mut [Hand<T>], lanes: &mut [Lane<T, Q>])
    requires bare { Each (λ (k : ℕ) (hand : seen.Hand).
        IsBareHand k (length lanes.old) Q.capacity hand)
        (length hands.old) hands.old }
    requires new { Each (λ (k : ℕ) (lane : seen.Lane). lane.hands ≡ 0)
        (length lanes.old) lanes.old }
    ensures lanes { Lent (length hands.old) lanes.old lanes.new }
    ensures hands { Each (λ (k : ℕ) (hand : seen.Hand). IsSeated k Q.capacity lanes.old hand)
        (length hands.old) hands.new }
{
    for k in 0..hands.len() {
        let hand = &mut hands[k];
        give_passes(hand, lanes);
    }
}

/// One hand per lane, numbered as the lanes are, with a pass on every lane, no takes, and room for
/// all that the pool can be pushed. The lanes are a whole pool, for which no hands were made. After
/// lack of memory they are as they were.
pub fn hands<T: Task, Q: Naming<T::World>>(
    alloc: Global,
    lanes: &mut [Lane<T, Q>],
) -> Result<Vec<Hand<T>>, AllocError>
    requires some { (0 < length lanes.old) × (length lanes.old ≤ 16) }
    requires new { Each (λ (k : ℕ) (lane : seen.Lane). lane.hands ≡ 0)
        (length lanes.old) lanes.old }
    ensures err { OnErr result (lanes.new ≡ lanes.old) }
    ensures lanes { OnOk result (Lent (length lanes.old) lanes.old lanes.new) }
    ensures many { IfOk result (λ hands. vec_len hands ≡ length lanes.old) }
    ensures hands { IfOk result (λ hands.
        Each (λ (k : ℕ) (hand : seen.Hand). IsSeated k Q.capacity lanes.old hand)
        (length lanes.old) hands.items) }
{
    let room = lanes[0].capacity();
    let mut hands = bare_hands(alloc, lanes.len() as u8, room)?;
    give_all(hands.as_mut_slice(), lanes);
    Ok(hands)
}
