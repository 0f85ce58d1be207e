// Following a run of document 01 from event to event, with refusals 22 to 25. The state has been tested for 21; its weights and marks are lent.
#![tactic(auto)]

ghost use Rattle.std.specs.Prelude.{◌≡◌, not, eqb};
ghost use Rattle.following.specs.Run.{stepped, out_of_turn};
ghost use Rattle.following.specs.Working.Lent.{lent_run, OverWeight, carrying, ReadyForEvent, Moves};

use carried::{Carried, Saved, over_mark};
use events::{Event, after_done, after_failed, after_passed, after_stopped};
use job::Platform;
use refusals::{ACCEPTED, Refusal};
use rules::positions::{mark_at, weight_at};
use rules::{finished, over_total};
use state::{Place, Run};

// The answer to a log: 0 and the next state, or the refusal and the state given. No Result: C takes it.
#[repr(C)]
#[derive(Clone, Copy)]
pub struct Stepped {
    pub number: u64,
    pub run: Run,
}

// What a run lends to each of its events: what stays from event to event.
#[derive(Clone, Copy)]
pub struct Lent<'a> {
    pub tasks: usize,
    pub platform: Platform,
    pub weights: &'a [u32],
    pub marks: &'a [u8],
}

// The answer that tells a run or a refusal, which hands back the run from before.
pub fn answered(before: Run, after: Result<Run, Refusal>) -> Stepped
    ensures { result ≡ stepped before after }
{
    match after {
        Ok(run) => Stepped {
            number: ACCEPTED,
            run,
        },
        Err(refusal) => Stepped {
            number: refusal.number(),
            run: before,
        },
    }
}

// 23: Done or Stopped while a verification is awaited, Passed or Failed otherwise.
fn out_of_turn(awaiting: u8, event: Event) -> bool
    ensures { result ≡ out_of_turn (not (eqb awaiting 0)) event }
{
    match event {
        Event::Done => awaiting != 0,
        Event::Passed => awaiting == 0,
        Event::Failed => awaiting == 0,
        Event::Stopped(_) => awaiting != 0,
    }
}

// 24: lost ticks above the running task's weight.
fn over_weight(weights: &[u32], position: usize, event: Event) -> bool
    ensures { OverWeight weights.now position event result }
{
    match event {
        Event::Done => false,
        Event::Passed => false,
        Event::Failed => false,
        Event::Stopped(lost) => weight_at(weights, position) < u64::from(lost),
    }
}

fn carrying(place: Place, memory: Saved, disk: Saved) -> Carried
    ensures { result ≡ carrying place memory disk }
{
    Carried {
        place,
        memory,
        disk,
    }
}

// One event of a run that 21 accepts: what is carried on, or the first refusal among 22 to 25. A passed mark may save copies, and a stop loses what memory held after
// the last disk copy.
pub fn step(lent: &Lent<'_>, carried: Carried, event: Event) -> Result<Carried, Refusal>
    requires { ReadyForEvent (lent_run lent.now carried) carried }
    ensures { Moves (lent_run lent.now carried) event result }
{
    let Lent {
        tasks,
        platform,
        weights,
        marks,
    } = *lent;
    let Carried {
        place,
        memory,
        disk,
    } = carried;
    if finished(tasks, place) {
        return Err(Refusal::Finished);
    }
    if out_of_turn(place.awaiting, event) {
        return Err(Refusal::OutOfTurn);
    }
    if over_weight(weights, place.position, event) {
        return Err(Refusal::OverWeight);
    }
    let next = match event {
        Event::Done => carrying(after_done(weights, marks, place), memory, disk),
        Event::Passed => over_mark(
            mark_at(marks, place.position),
            carried,
            after_passed(platform, marks, place),
        ),
        Event::Failed => carrying(after_failed(platform, place, memory), memory, disk),
        Event::Stopped(lost) => carrying(after_stopped(platform, place, disk, lost), disk, disk),
    };
    if over_total(next.place.sums) {
        return Err(Refusal::OverTotal);
    }
    Ok(next)
}
