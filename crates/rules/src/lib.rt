// What document 01 asks of the state of a run: refusals 21 and 22, and the limit of the sums that 21 and 25 test.
#![tactic(auto)]

ghost use Rattle.std.specs.Prelude.{◌≡◌, ◌≤◌};
ghost use Rattle.refusals.specs.Refusals.{first};
ghost use Rattle.refusals.specs.Checks.{told};
ghost use Rattle.units.specs.Limits.{task_limit};
ghost use Rattle.rules.specs.Rules.{marks_in, marks_read, value_conditions, bad_awaiting, over_total, broken_place, broken, finished_at};

pub mod positions;

use job::checks::{bad_count, check_job};
use job::totals::weight_to;
use marks::check_marks;
use positions::mark_at;
use refusals::Refusal;
use state::{Place, Run, Sums};

// The sums together pass the limit. A total past 64 bits counts as the greatest of them, so that it cannot wrap.
pub fn over_total(sums: Sums) -> bool
    ensures { result ≡ over_total sums }
{
    let total = sums
        .kept
        .saturating_add(sums.redone)
        .saturating_add(sums.verify)
        .saturating_add(sums.saves)
        .saturating_add(sums.recovery);
    Run::MAX_TOTAL < total
}

// A verification is awaited where the mark is 0; the start has none.
fn bad_awaiting(run: Run) -> bool
    ensures { result ≡ bad_awaiting (marks_in run) run.place }
{
    if run.place.awaiting == 0 {
        return false;
    }
    let marks = run.marks;
    mark_at(&marks[..], run.place.position) == 0
}

// What 21 asks of position, awaited verification and sums. The task count has passed check 3.
pub fn broken_place(run: Run) -> bool
    requires { run.job.tasks ≤ task_limit }
    ensures { result ≡ broken_place run.job (marks_in run) run.place }
{
    let p = run.place.position;
    if run.job.tasks < p {
        return true;
    }
    if bad_awaiting(run) {
        return true;
    }
    let weights = run.job.weights;
    if run.place.sums.kept != weight_to(weights, p) {
        return true;
    }
    over_total(run.place.sums)
}

// What 21 asks of task count, sheet values and marks: the first of 3 and 7 to 10. Entries past the last task are not read.
fn check_values(run: Run) -> Result<(), Refusal>
    ensures { told result ≡ first (value_conditions run.job (marks_read run)) }
{
    let n = run.job.tasks;
    if bad_count(n) {
        return Err(Refusal::BadCount);
    }
    check_job(run.job)?;
    let marks = run.marks;
    check_marks(run.job, &marks[..n])
}

// 21: the state breaks a rule.
pub fn broken(run: Run) -> bool
    ensures { result ≡ broken run }
{
    check_values(run).is_err() || broken_place(run)
}

// 22: position n and nothing awaited.
pub fn finished(tasks: usize, place: Place) -> bool
    ensures { result ≡ finished_at tasks place }
{
    place.position == tasks && place.awaiting == 0
}
