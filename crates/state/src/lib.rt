// The state of a run: its values and marks, where it stands, and its five sums; the fresh run, and the state with every field 0.
#![tactic(auto)]

ghost use Rattle.std.specs.Prelude.{◌≡◌};
ghost use Rattle.state.specs.State.{beginning, cleared, fresh, zero_run};
ghost use Rattle.state.specs.Working.Entries.{Entries, First};

use job::Job;
use units::TASK_LIMIT;

// The five sums, in ticks.
#[repr(C)]
#[derive(Clone, Copy)]
pub struct Sums {
    pub kept: u64,
    pub redone: u64,
    pub verify: u64,
    pub saves: u64,
    pub recovery: u64,
}

// Where a run stands, whether a verification is awaited there (not 0) or a task runs (0), and its sums.
#[repr(C)]
#[derive(Clone, Copy)]
pub struct Place {
    pub position: usize,
    pub awaiting: u8,
    pub sums: Sums,
}

// The state of a run. Entries of weights and marks past the last task are carried along unread.
#[repr(C)]
#[derive(Clone, Copy)]
pub struct Run {
    pub job: Job,
    pub marks: [u8; TASK_LIMIT],
    pub place: Place,
}

// How many entries of a list a fresh run takes: those of its tasks, as far as the list and the room go.
fn entries(n: usize, length: usize) -> usize
    ensures { Entries n length result }
{
    TASK_LIMIT.min(n).min(length)
}

// The entries of n tasks, and `zero` past them.
fn first_entries<T: Copy>(list: &[T], n: usize, zero: T) -> [T; TASK_LIMIT]
    ensures { First n zero list.now result }
{
    let most = entries(n, list.len());
    let mut held = [zero; TASK_LIMIT];
    held[..most].copy_from_slice(&list[..most]);
    held
}

impl Place {
    // Before task 1, with all five sums at 0.
    pub fn beginning() -> Place
        ensures { result ≡ beginning }
    {
        Place {
            position: 0,
            awaiting: 0,
            sums: Sums {
                kept: 0,
                redone: 0,
                verify: 0,
                saves: 0,
                recovery: 0,
            },
        }
    }
}

impl Run {
    pub const MAX_POSITION: usize = TASK_LIMIT;

    pub const MAX_TOTAL: u64 = 1 << 40;

    // A fresh run stands before task 1 with all five sums at 0. Entries past task n are 0.
    pub fn fresh(job: Job, marks: &[u8]) -> Run
        ensures { result ≡ fresh job marks.now }
    {
        let weights = first_entries(&job.weights, job.tasks, 0);
        Run {
            job: Job { weights, ..job },
            marks: first_entries(marks, job.tasks, 0),
            place: Place::beginning(),
        }
    }

    // The state with every field 0, which a refused start gives.
    pub fn zero() -> Run
        ensures { result ≡ zero_run }
    {
        Run {
            job: Job::zero(),
            marks: [0u8; TASK_LIMIT],
            place: Place::beginning(),
        }
    }
}
