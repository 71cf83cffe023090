//! How the workers start.
ghost use Rattle.std.specs.Prelude.{◌≡◌, ◌<◌, ◌≤◌, ℕ, All, IfOk, length, slice_index_or, vec_len};
ghost use Rattle.box_deques.specs.Seen.{Each, IsNew};
ghost use Rattle.job_workers.specs.Members.{CanTake};
ghost use Rattle.job_workers.specs.Posts.{IsThief};
ghost use Rattle.job_workers.specs.Ready.{IsReady};

use crate::job::Job;
use crate::post::Post;
use crate::task::JobTask;
use box_deques::{Hand, Lane, Naming, Thief, hands};
use std::alloc::{AllocError, Global};
use std::cmp::Reverse;

// By what a worker takes jobs of other lanes.
#[derive(Drop)]
pub(crate) struct Member<Q: Naming<u8>> {
    pub(crate) hand: Hand<JobTask>,
    pub(crate) thieves: Vec<Thief<JobTask, Q>>,
}

// Thieves of all lanes but one.
fn thieves_of<Q: Naming<u8>>(
    alloc: Global,
    lanes: &[Lane<JobTask, Q>],
    me: usize,
) -> Result<Vec<Thief<JobTask, Q>>, AllocError>
    requires { (k : ℕ) (d : _) → k < length lanes.now → (slice_index_or lanes.now k d).number ≡ k }
    ensures { IfOk result (λ v. All (IsThief lanes.now me) v.items) }
{
    let mut thieves = Vec::new(alloc);
    for number in 0..lanes.len() {
        if number == me {
            continue;
        }
        let lane = &lanes[number];
        thieves.push(lane.thief()?)?;
    }
    Ok(thieves)
}

// A member for each lane.
pub(crate) fn members<Q: Naming<u8>>(
    alloc: Global,
    lanes: &mut [Lane<JobTask, Q>],
) -> Result<Vec<Member<Q>>, AllocError>
    requires some { (0 < length lanes.old) × (length lanes.old ≤ 16) }
    requires new { Each IsNew (length lanes.old) lanes.old }
    ensures many { IfOk result (λ v. vec_len v ≡ length lanes.old) }
    ensures members { IfOk result (λ v. All (CanTake Q.capacity) v.items) }
{
    let mut hands = hands(alloc, lanes)?;
    let mut members = Vec::new(alloc);
    for number in 0..lanes.len() {
        let thieves = thieves_of(alloc, lanes, number)?;
        let hand = hands.remove(0);
        members.push(Member { hand, thieves })?;
    }
    Ok(members)
}

// So many jobs, the longest first. Of those that may take as long, the lower number is first.
pub(crate) fn longest_first<J: Job>(
    alloc: Global,
    job: &J,
    count: u8,
) -> Result<Vec<JobTask>, AllocError>
    requires { count ≤ 64 }
{
    let mut tasks = Vec::with_capacity(alloc, count as usize)?;
    for number in 0..count {
        tasks.push_reserved(JobTask { number });
    }
    tasks.sort_unstable_by_key(|task: &JobTask| -> (Reverse<usize>, u8) {
        (Reverse(job.size(u16::from(task.number))), task.number)
    });
    Ok(tasks)
}

// Puts the jobs into the lanes, one after the other. The last lane, whose worker is the caller's
// thread and begins before the others, has the first.
pub(crate) fn deal<Q: Naming<u8>>(lanes: &mut [Lane<JobTask, Q>], tasks: Vec<JobTask>)
    requires { 0 < length lanes.old }
{
    for (k, task) in tasks.into_iter().enumerate() {
        let last = lanes.len() - 1;
        let lane = &mut lanes[last - k % lanes.len()];
        let _ = lane.push(task);
    }
}

// The post of one worker, with room for the results of so many jobs.
fn post_of<O: Drop, Q: Naming<u8>>(
    alloc: Global,
    lane: Lane<JobTask, Q>,
    member: Member<Q>,
    count: u8,
) -> Result<Post<O, Q>, AllocError>
    requires { CanTake Q.capacity member }
    ensures { IfOk result (IsReady Q.capacity count) }
{
    let done = Vec::with_capacity(alloc, count as usize)?;
    let Member { hand, thieves } = member;
    Ok(Post {
        lane,
        hand,
        thieves,
        done,
    })
}

// A post for each lane.
pub(crate) fn posts_of<O: Drop, Q: Naming<u8>>(
    alloc: Global,
    mut lanes: Vec<Lane<JobTask, Q>>,
    mut members: Vec<Member<Q>>,
    count: u8,
) -> Result<Vec<Post<O, Q>>, AllocError>
    requires many { length members.items ≡ length lanes.items }
    requires members { All (CanTake Q.capacity) members.items }
    ensures many { IfOk result (λ v. vec_len v ≡ length lanes.items) }
    ensures ready { IfOk result (λ v. All (IsReady Q.capacity count) v.items) }
{
    let mut posts = Vec::new(alloc);
    for number in 0..lanes.len() {
        let _ = number;
        let lane = lanes.remove(0);
        let member = members.remove(0);
        posts.push(post_of(alloc, lane, member, count)?)?;
    }
    Ok(posts)
}
