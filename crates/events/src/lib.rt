// The four events of a run: where it stands after each, and its sums there.
#![tactic(auto)]

ghost use Rattle.std.specs.Prelude.{◌≡◌, cond, eqb};
ghost use Rattle.events.specs.Working.Ready.{InRange, ReadyToGoBack, ReadyToMove};
ghost use Rattle.events.specs.Working.After.{back_at, AfterDone, AfterPassed, AfterFailed, AfterStopped};

use carried::Saved;
use charges::{rd_of, rm_of, saves_paid, v_of, verify_paid};
use job::Platform;
use rules::positions::{mark_at, weight_at};
use state::{Place, Sums};

// What happens in a run; Stopped carries its lost ticks.
#[derive(Clone, Copy)]
pub enum Event {
    Done,
    Passed,
    Failed,
    Stopped(u32),
}

// The run stands at a copy, and the weights after it move from kept to redone.
fn back_to(copy: Saved, sums: Sums) -> Place
    requires { ReadyToMove copy sums }
    ensures { result ≡ back_at copy sums }
{
    let ticks = sums.kept - copy.kept;
    let mut moved = sums;
    moved.kept -= ticks;
    moved.redone += ticks;
    Place {
        position: copy.position,
        awaiting: 0,
        sums: moved,
    }
}

// Whether the verification of a task with this mark is awaited.
fn awaited(mark: u8) -> u8
    ensures { result ≡ cond (eqb mark 0) 0 1 }
{
    if mark == 0 {
        return 0;
    }
    1
}

// Done: the running task's weight joins kept. If its mark is not 0, its verification is awaited.
pub fn after_done(weights: &[u32], marks: &[u8], place: Place) -> Place
    requires { InRange place }
    ensures { AfterDone weights.now marks.now place result }
{
    let p = place.position;
    let next = p + 1;
    let mut sums = place.sums;
    sums.kept += weight_at(weights, p);
    Place {
        position: next,
        awaiting: awaited(mark_at(marks, next)),
        sums,
    }
}

// Passed: the mark's payments join verify and saves.
pub fn after_passed(platform: Platform, marks: &[u8], place: Place) -> Place
    requires { InRange place }
    ensures { AfterPassed platform marks.now place result }
{
    let p = place.position;
    let mark = mark_at(marks, p);
    let mut sums = place.sums;
    sums.verify += verify_paid(platform, mark, p);
    sums.saves += saves_paid(platform, mark, p);
    Place {
        position: p,
        awaiting: 0,
        sums,
    }
}

// Failed: V joins verify, R_M' joins recovery, and the run stands at the last memory copy.
pub fn after_failed(platform: Platform, place: Place, memory: Saved) -> Place
    requires { ReadyToGoBack place memory }
    ensures { AfterFailed platform place memory result }
{
    let mut sums = place.sums;
    sums.verify += v_of(platform, place.position);
    sums.recovery += rm_of(platform, memory.position);
    back_to(memory, sums)
}

// Stopped: the lost ticks join redone, R_D' joins recovery, and the run stands at the last disk copy.
pub fn after_stopped(platform: Platform, place: Place, disk: Saved, lost: u32) -> Place
    requires { ReadyToGoBack place disk }
    ensures { AfterStopped platform place disk lost result }
{
    let mut sums = place.sums;
    sums.redone += u64::from(lost);
    sums.recovery += rd_of(platform, disk.position);
    back_to(disk, sums)
}
