// What a run carries from event to event: its place and its last copies. The copies are looked for once, when the run is taken up.
#![tactic(auto)]

ghost use Rattle.std.specs.Prelude.{◌≡◌, cond, leb, ◌+◌, ◌≤◌};
ghost use Rattle.units.specs.Limits.{task_limit};
ghost use Rattle.rules.specs.Rules.{marks_in, passed_before};
ghost use Rattle.carried.specs.Working.Carried.{SavedBefore, Carries, over_mark};

use chain::{DISK, MEMORY};
use job::totals::weight_to;
use rules::positions::last_copy;
use state::{Place, Run};

// A copy: the position where it was saved, and the weight of the tasks up to there.
#[derive(Clone, Copy)]
pub struct Saved {
    pub position: usize,
    pub kept: u64,
}

// The place of a run, and the copies that it goes back to when a verification fails and when a node stops.
#[derive(Clone, Copy)]
pub struct Carried {
    pub place: Place,
    pub memory: Saved,
    pub disk: Saved,
}

// The last copy before v with a mark of `least` or more.
fn saved_before(run: Run, least: u8, v: usize) -> Saved
    requires { v ≤ task_limit + 1 }
    ensures { SavedBefore run.job.weights (marks_in run) least v result }
{
    let position = last_copy(run, least, v);
    let weights = run.job.weights;
    let kept = weight_to(weights, position);
    Saved { position, kept }
}

// The marks that a run has passed are those before this position.
fn passed_before(place: Place) -> usize
    requires { place.position ≤ task_limit }
    ensures { result ≡ passed_before place }
{
    if place.awaiting == 0 {
        return place.position + 1;
    }
    place.position
}

// A run taken up: the copies that its passed marks have saved. `logs` alone calls this, with a run that has been tested for 21, so that its position is a place of
// the arrays.
pub fn taken_up(run: Run) -> Carried
    requires { run.place.position ≤ task_limit }
    ensures { Carries run result }
{
    let place = run.place;
    let v = passed_before(place);
    let memory = saved_before(run, MEMORY, v);
    let disk = saved_before(run, DISK, v);
    Carried {
        place,
        memory,
        disk,
    }
}

// A copy is the new one where the mark passed saves one of its kind, and else the one before.
fn saved_after(least: u8, mark: u8, here: Saved, before: Saved) -> Saved
    ensures { result ≡ cond (leb least mark) here before }
{
    if least <= mark {
        return here;
    }
    before
}

// The copies after a mark has passed at the place given.
pub fn over_mark(mark: u8, before: Carried, place: Place) -> Carried
    ensures { result ≡ over_mark mark before place }
{
    let here = Saved {
        position: place.position,
        kept: place.sums.kept,
    };
    Carried {
        place,
        memory: saved_after(MEMORY, mark, here, before.memory),
        disk: saved_after(DISK, mark, here, before.disk),
    }
}
