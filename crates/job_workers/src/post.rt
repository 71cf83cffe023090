//! What each worker has, and all workers at work.
ghost use Rattle.std.specs.Prelude.{◌≡◌, ◌<◌, ◌≤◌, ℕ, [], All, IfSome, length, slice_index_or};
ghost use Rattle.std.specs.Prelude.{vec_capacity};
ghost use Rattle.box_deques.specs.Stealing.{CanSteal};
ghost use Rattle.job_workers.specs.Ready.{IsReady};
ghost use Rattle.job_workers.specs.Results.{AreResultsOf};

use crate::job::Job;
use crate::take::next_job;
use crate::task::JobTask;
use box_deques::{Hand, Lane, Naming, Task, Thief};
use fx_edge::Gate;
use std::sync::Wait;
use std::thread;
use std::thread::Threads;

/// What a worker has while it runs, and the results that it found, each with its number.
#[derive(Drop)]
pub struct Post<O: Drop, Q: Naming<u8>> {
    pub lane: Lane<JobTask, Q>,
    pub hand: Hand<JobTask>,
    pub thieves: Vec<Thief<JobTask, Q>>,
    pub done: Vec<(u8, O)>,
}

// Does one job between the two calls of the gate. None where memory was wanting.
fn run_task<J: Job, G: Gate>(job: &J, gate: &G, task: &JobTask) -> Option<J::Out>
    ensures { IfSome result (J.is_result job.now task.now.number) }
{
    let path = task.path();
    gate.enter(&path);
    let out = job.run(u16::from(task.number));
    gate.leave(&path);
    match out {
        Ok(out) => Some(out),
        Err(_) => None,
    }
}

// The whole loop of one worker: it does jobs until it finds none, as many as there are at most. One
// for which memory was wanting is left out.
fn work<J: Job, G: Gate, Q: Naming<u8>, R: Wait>(
    rt: &R,
    job: &J,
    gate: &G,
    count: u8,
    post: &mut Post<J::Out, Q>,
)
    requires passes { CanSteal Q.capacity post.old.hand post.old.thieves.items }
    requires none { post.old.done.items ≡ [] }
    requires room { count ≤ vec_capacity post.old.done }
    ensures { AreResultsOf (J.is_result job.now) post.new.done.items }
{
    let Post {
        lane,
        hand,
        thieves,
        done,
    } = post;
    for _ in 0..count {
        let Some(task) = next_job(rt, lane, thieves.as_slice(), hand) else {
            return;
        };
        if let Some(out) = run_task(job, gate, &task) {
            done.push_reserved((task.number, out));
        }
    }
}

// All workers, each at its post, in as many threads.
pub(crate) fn run_posts<J: Job, G: Gate, Q: Naming<u8> + Send + Sync, R: Threads + Wait + Sync>(
    rt: &R,
    job: &J,
    gate: &G,
    count: u8,
    posts: &mut [Post<J::Out, Q>],
)
    requires some { 0 < length posts.old }
    requires ready { (k : ℕ) (d : _) → k < length posts.old
        → IsReady Q.capacity count (slice_index_or posts.old k d) }
    ensures { (k : ℕ) (d : _) → k < length posts.old
        → AreResultsOf (J.is_result job.now) (slice_index_or posts.new k d).done.items }
{
    let threads = posts.len();
    thread::for_each_mut(
        rt,
        posts,
        threads,
        &|_, post: &mut Post<J::Out, Q>|
            requires { IsReady Q.capacity count post.old }
            ensures { AreResultsOf (J.is_result job.entry.now) post.new.done.items }
        { work(rt, job, gate, count, post) },
    );
}
