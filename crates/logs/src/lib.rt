// The log of a run: records of 5 bytes, read and applied in turn. 21 is tested once, before the first event; an accepted event leaves a state that it accepts.
#![tactic(auto)]

ghost use Rattle.std.specs.Prelude.{◌≡◌, ◌<◌, false};
ghost use Rattle.rules.specs.Rules.{broken};
ghost use Rattle.following.specs.Working.Lent.{lent_run, ReadyForEvent};
ghost use Rattle.following.specs.Run.{stepped};
ghost use Rattle.refusals.specs.Checks.{told};
ghost use Rattle.logs.specs.Log.{record_count, record_at, read_event, or_before, log_of};
ghost use Rattle.logs.specs.Working.Once.{bad_first, refusal_before, applied_on, Ends, stood};

use carried::{Carried, taken_up};
use events::Event;
use fields::{byte, field};
use following::{Lent, Stepped, answered, step};
use refusals::Refusal;
use rules::broken;
use state::{Place, Run};

const RECORD_LENGTH: usize = 5;

// The codes of the four events: bytes of a log, which `event_of` alone reads, and turns into the enum.
const DONE: u64 = 1;

const PASSED: u64 = 2;

const FAILED: u64 = 3;

const STOPPED: u64 = 4;

// The event of a record, unless it is cut short, has an unknown code, or has lost ticks where 0 is due.
fn event_of(entry: &[u8]) -> Option<Event>
    ensures { result ≡ read_event entry.now }
{
    if entry.len() < RECORD_LENGTH {
        return None;
    }
    let code = byte(entry, 0);
    let lost = field(entry, 1);
    if code == STOPPED {
        return Some(Event::Stopped(lost));
    }
    if lost != 0 {
        return None;
    }
    if code == DONE {
        return Some(Event::Done);
    }
    if code == PASSED {
        return Some(Event::Passed);
    }
    if code == FAILED {
        return Some(Event::Failed);
    }
    None
}

// The bytes of record i; the last may be cut short.
fn record_at(log: &[u8], i: usize) -> &[u8]
    requires { i < record_count log.now }
    ensures { result.now ≡ record_at log.now i }
{
    let start = RECORD_LENGTH * i;
    if log.len() - start < RECORD_LENGTH {
        return &log[start..];
    }
    let end = start + RECORD_LENGTH;
    &log[start..end]
}

// 12 of the first record, which is tested before 21.
fn bad_first(log: &[u8]) -> bool
    ensures { result ≡ bad_first log.now }
{
    !log.is_empty() && event_of(record_at(log, 0)).is_none()
}

// The records in turn, from a run that 21 accepts: what is carried at their end, or the first refusal among 12 and 22 to 25.
fn applied(lent: &Lent<'_>, start: Carried, log: &[u8]) -> Result<Carried, Refusal>
    requires { ReadyForEvent (lent_run lent.now start) start }
    ensures { Ends (lent_run lent.now start) log.now (record_count log.now) result }
{
    let mut carried = start;
    for i in 0..log.len().div_ceil(RECORD_LENGTH) {
        let Some(event) = event_of(record_at(log, i)) else {
            return Err(Refusal::BadRecord);
        };
        carried = step(lent, carried, event)?;
    }
    Ok(carried)
}

// Where a run that 21 accepts stands after the log. Its weights and marks are lent.
fn followed(run: Run, log: &[u8]) -> Result<Place, Refusal>
    requires { broken run ≡ false }
    ensures { stood run result ≡ or_before run (applied_on run log.now (record_count log.now)) }
{
    let lent = Lent {
        tasks: run.job.tasks,
        platform: run.job.platform,
        weights: &run.job.weights,
        marks: &run.marks,
    };
    let carried = applied(&lent, taken_up(run), log)?;
    Ok(carried.place)
}

// What is tested before the first event, even for an empty log: 12 of the first record, then 21.
pub fn check_before(run: Run, log: &[u8]) -> Result<(), Refusal>
    ensures { told result ≡ refusal_before run log.now }
{
    if bad_first(log) {
        return Err(Refusal::BadRecord);
    }
    if broken(run) {
        return Err(Refusal::Broken);
    }
    Ok(())
}

// The records of a log, read and applied in turn: where the run stands after them, or the first refusal.
pub fn place_reached(run: Run, log: &[u8]) -> Result<Place, Refusal>
    ensures { stood run result ≡ log_of run log.now }
{
    check_before(run, log)?;
    followed(run, log)
}

// The same: the run after them.
pub fn after_log(run: Run, log: &[u8]) -> Result<Run, Refusal>
    ensures { stepped run result ≡ log_of run log.now }
{
    let place = place_reached(run, log)?;
    Ok(Run { place, ..run })
}

// The same; a refusal hands back the state from before the log.
pub fn follow(run: Run, log: &[u8]) -> Stepped
    ensures { result ≡ log_of run log.now }
{
    answered(run, after_log(run, log))
}
