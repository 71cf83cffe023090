//! Lanes of three places, each with one hand.
ghost use Rattle.std.specs.Prelude.{◌≡◌, None};

use crate::equals::{equal, holds};
use box_deques::{Naming, Task, pool};
use fx_edge::Path;
use std::alloc::{AllocError, Global};
use std::marker::Brand;
use std::test::Fail;

// A task that belongs to every world.
#[derive(Drop)]
pub(crate) struct Job {
    pub path: Path,
}

impl Task for Job {
    ghost use Rattle.std.specs.Prelude.{None};

    type World = u8;

    ghost path_of = { λ job. job.path };

    ghost world = { λ job. None };

    fn path(&self) -> Path {
        self.path
    }
}

// The job of this number, below 64.
pub(crate) fn numbered(number: u8) -> Job {
    Job {
        path: Path::root().child(number % 64),
    }
}

// What came back from four pushes of the jobs 1 to 4, each as its number or 0, and then from four
// pops.
fn pushes_and_pops<Q: Naming<u8>>(alloc: Global) -> Result<([u8; 4], [u8; 4]), AllocError>
    requires { Q.capacity ≡ 3 }
{
    let mut lanes = pool::<Job, Q>(alloc, 1, 3)?;
    let Some(mut lane) = lanes.pop() else {
        return Err(AllocError);
    };
    let mut back = [0; 4];
    for i in 0..4u8 {
        if let Err(refused) = lane.push(numbered(i + 1)) {
            back[i as usize] = last_number(refused.path());
        }
    }
    let mut popped = [0; 4];
    for i in 0..4usize {
        if let Some(task) = lane.pop() {
            popped[i] = last_number(task.path());
        }
    }
    Ok((back, popped))
}

// The number of a path with one number.
pub(crate) fn last_number(path: Path) -> u8 {
    if path.len() == 0 {
        return 0;
    }
    path.number(0)
}

#[test]
fn the_fourth_push_comes_back(rt: HostRuntime) -> Result<(), Fail> {
    let (back, popped) = pushes_and_pops::<Brand>(rt.alloc())?;
    equal(&rt, "back", back, [0, 0, 0, 4]);
    equal(&rt, "popped", popped, [1, 2, 3, 0]);
    Ok(())
}

fn first_pop<Q: Naming<u8>>(alloc: Global) -> Result<bool, AllocError>
    requires { Q.capacity ≡ 3 }
{
    let mut lanes = pool::<Job, Q>(alloc, 1, 3)?;
    let Some(mut lane) = lanes.pop() else {
        return Err(AllocError);
    };
    Ok(lane.pop().is_some())
}

#[test]
fn a_new_lane_has_no_task(rt: HostRuntime) -> Result<(), Fail> {
    holds(&rt, "no task", !first_pop::<Brand>(rt.alloc())?);
    Ok(())
}
