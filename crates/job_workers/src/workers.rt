//! The results of all jobs by several workers.
ghost use Rattle.std.specs.Prelude.{◌≡◌, ◌≤◌, ◌<◌, All, IfOk, length, vec_len};
ghost use Rattle.job_workers.specs.Ready.{IsReady};
ghost use Rattle.job_workers.specs.Results.{AreResults};

use crate::gather::{finish, put_all, slots_for};
use crate::job::Job;
use crate::post::{Post, run_posts};
use crate::start::{deal, longest_first, members, posts_of};
use crate::task::JobTask;
use box_deques::{Naming, pool};
use fx_edge::Gate;
use std::alloc::{AllocError, Global};
use std::marker::Brand;
use std::sync::Wait;
use std::thread::Threads;

// The posts of so many workers, with the jobs in their lanes.
fn start<O: Drop, Q: Naming<u8>>(
    alloc: Global,
    tasks: Vec<JobTask>,
    count: u8,
    workers: u8,
) -> Result<Vec<Post<O, Q>>, AllocError>
    requires count { (1 ≤ count) × (count ≤ 64) }
    requires workers { (1 ≤ workers) × (workers ≤ 16) }
    requires named { count ≡ Q.capacity }
    ensures many { IfOk result (λ v. vec_len v ≡ workers) }
    ensures ready { IfOk result (λ v. All (IsReady Q.capacity count) v.items) }
{
    let mut lanes = pool::<JobTask, Q>(alloc, workers, u32::from(count))?;
    let members = members(alloc, lanes.as_mut_slice())?;
    deal(lanes.as_mut_slice(), tasks);
    posts_of(alloc, lanes, members, count)
}

// The results, by the posts' workers and then by the caller.
fn run_all<J: Job, G: Gate, Q: Naming<u8> + Send + Sync, R: Threads + Wait + Sync>(
    rt: &R,
    alloc: Global,
    job: &J,
    gate: &G,
    count: u8,
    posts: &mut [Post<J::Out, Q>],
) -> Result<Vec<J::Out>, AllocError>
    requires some { 0 < length posts.old }
    requires ready { All (IsReady Q.capacity count) posts.old }
    ensures many { IfOk result (λ v. vec_len v ≡ count) }
    ensures results { IfOk result (λ v. AreResults (J.is_result job.now) 0 v.items) }
{
    let mut slots = slots_for(alloc, job, count)?;
    run_posts(rt, job, gate, count, posts);
    put_all(job, slots.as_mut_slice(), posts);
    finish(alloc, job, slots.as_mut_slice())
}

fn run_on<J: Job, G: Gate, Q: Naming<u8> + Send + Sync, R: Threads + Wait + Sync>(
    rt: &R,
    alloc: Global,
    job: &J,
    gate: &G,
    count: u8,
    workers: u8,
) -> Result<Vec<J::Out>, AllocError>
    requires count { (1 ≤ count) × (count ≤ 64) }
    requires workers { (1 ≤ workers) × (workers ≤ 16) }
    requires named { count ≡ Q.capacity }
    ensures many { IfOk result (λ v. vec_len v ≡ count) }
    ensures results { IfOk result (λ v. AreResults (J.is_result job.now) 0 v.items) }
{
    let tasks = longest_first(alloc, job, count)?;
    let mut posts = start::<J::Out, Q>(alloc, tasks, count, workers)?;
    run_all(rt, alloc, job, gate, count, posts.as_mut_slice())
}

/// A result of each job from 0 on, so many (1 to 64), by so many workers (1 to 16), whatever their
/// schedule. No more workers start than there are jobs. A worker calls the gate before and after
/// each job, with the path that has the job's number alone. What no worker took or finished the
/// caller does, once all have ended. It may wait.
pub fn run_jobs<J: Job, G: Gate, R: Threads + Wait + Sync>(
    rt: &R,
    alloc: Global,
    job: &J,
    gate: &G,
    count: u16,
    workers: u8,
) -> Result<Vec<J::Out>, AllocError>
    requires count { (1 ≤ count) × (count ≤ 64) }
    requires workers { (1 ≤ workers) × (workers ≤ 16) }
    ensures many { IfOk result (λ v. vec_len v ≡ count) }
    ensures results { IfOk result (λ v. AreResults (J.is_result job.now) 0 v.items) }
{
    let few = count as u8;
    run_on::<J, G, Brand, R>(rt, alloc, job, gate, few, workers.min(few))
}
