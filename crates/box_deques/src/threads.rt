//! Which types go to other threads, and which are shared there, for every task type. Each function
//! is the proof of its line.
use crate::close::LaneEnd;
use crate::hand::Hand;
use crate::lane::Lane;
use crate::task::{Naming, Task};
use crate::thief::Thief;

fn sends<X: Send>(value: &X) {
    let _ = value;
}

fn shares<X: Sync>(value: &X) {
    let _ = value;
}

// A lane is sent where tasks are sent.
fn lane_is_sent<T: Task + Send, Q: Naming<T::World>>(lane: &Lane<T, Q>) {
    sends(lane);
}

// A thief is sent where tasks are sent.
fn thief_is_sent<T: Task + Send, Q: Naming<T::World>>(thief: &Thief<T, Q>) {
    sends(thief);
}

// A thief is shared where tasks are sent.
fn thief_is_shared<T: Task + Send, Q: Naming<T::World>>(thief: &Thief<T, Q>) {
    shares(thief);
}

// A hand is sent where tasks are sent.
fn hand_is_sent<T: Drop + Send>(hand: &Hand<T>) {
    sends(hand);
}

// What became of a lane is sent where tasks are sent.
fn end_is_sent<T: Drop + Send>(end: &LaneEnd<T>) {
    sends(end);
}

// What became of a lane is shared where tasks are shared.
fn end_is_shared<T: Drop + Sync>(end: &LaneEnd<T>) {
    shares(end);
}
