// The marks of the plan, found by asking the equations again: each gives the earliest position before that has the least time. The walk goes back from the last
// task over the disk copies, between two of them over the memory copies, and between two of those over the verifications.
ghost use Rattle.std.specs.Prelude.{◌≡◌};
ghost use Rattle.units.specs.Limits.{none};
ghost use Rattle.chain.specs.Working.Walk.{disk_place, Before, PlannedMarks};
ghost use Rattle.costs.specs.Stretch.{chain_of};
ghost use Rattle.engine.specs.Working.Places.{place_of, ReadyAtDisk, ReadyToStep, ReadyForMarks};

use chain::{DISK, MEMORY, VERIFICATION};
use equations::{e_disk, e_mem, e_verif};
use job::Job;
use units::TASK_LIMIT;

// A place of the walk: v has mark k, and the last copies before it are d and m.
#[derive(Clone, Copy)]
pub struct Place {
    pub k: u8,
    pub d: usize,
    pub m: usize,
    pub v: usize,
}

// The place at the disk copy v.
fn at_disk(job: Job, v: usize) -> Place
    requires { ReadyAtDisk job v }
    ensures { place_of result ≡ disk_place (chain_of job) none v }
{
    let d = e_disk(job, v).at;
    Place {
        k: DISK,
        d,
        m: e_mem(job, d, v).at,
        v,
    }
}

// The place before w; at 0 where the walk is over.
fn step_back(job: Job, w: Place) -> Place
    requires { ReadyToStep job w }
    ensures { Before (chain_of job) none (place_of w) (place_of result) }
{
    let d = w.d;
    let m = w.m;
    let mem = e_mem(job, d, m);
    let u = e_verif(job, d, m, mem.time, w.v).at;
    if u != m {
        return Place {
            k: VERIFICATION,
            d,
            m,
            v: u,
        };
    }
    if m != d {
        return Place {
            k: MEMORY,
            d,
            m: mem.at,
            v: m,
        };
    }
    if d != 0 {
        return at_disk(job, d);
    }
    Place { k: 0, d, m, v: 0 }
}

// The marks of the plan, whose least time is below none.
pub fn plan_marks(job: Job) -> [u8; TASK_LIMIT]
    requires { ReadyForMarks job }
    ensures { PlannedMarks (chain_of job) none job.tasks result }
{
    let mut marks = [0u8; TASK_LIMIT];
    let mut w = at_disk(job, job.tasks);
    // a `while`, as each step finds where the next one stands
    while 0 < w.v {
        let v = w.v;
        let k = w.k;
        marks[v - 1] = k;
        w = step_back(job, w);
    }
    marks
}
