// The price of a setting: D(n) of document 01 for a sheet and the marks that a user supplies, or the first refusal that holds.
// The tasks are passed once, carrying what the equations need: the work grows as n, and the room does not grow.
#![tactic(auto)]

ghost use Rattle.std.specs.Prelude.{◌≡◌, min};
ghost use Rattle.units.specs.Limits.{none};
ghost use Rattle.costs.specs.Stretch.{time_of};
ghost use Rattle.refusals.specs.Checks.{answer_of};
ghost use Rattle.pricing.specs.Price.{price_of};
ghost use Rattle.pricing.specs.Working.Ready.{ReadyForTime};

use job::Job;
use marks::check_marks;
use progress::{Progress, past_mark};
use refusals::{Answer, Refusal, answered};
use sheet::read::read_job;
use units::NONE;

// The time of a setting that passed check 10, or none where it is too slow: what is too slow once stays so.
fn setting_time(job: Job, marks: &[u8]) -> u64
    requires { ReadyForTime job marks.now }
    ensures { result ≡ min none (time_of job marks.now) }
{
    let weights = job.weights;
    let mut s = Progress {
        weight: 0,
        m: 0,
        d: 0,
        q: 0,
        mt: 0,
        dt: 0,
    };
    for j in 0..job.tasks {
        s.weight += weights[j] as u64;
        s = past_mark(job, s, j + 1, marks[j]);
        if NONE <= s.dt + s.mt + s.q {
            return NONE;
        }
    }
    s.dt
}

// The time of the marks under the sheet, or the first of checks 1 to 10 and 13 that holds.
fn priced(s: &[u8], marks: &[u8]) -> Result<u64, Refusal>
    ensures { answer_of result ≡ price_of s.now marks.now }
{
    let job = read_job(s)?;
    check_marks(job, marks)?;
    let time = setting_time(job, marks);
    if NONE <= time {
        return Err(Refusal::TooSlow);
    }
    Ok(time)
}

// The same as an answer.
pub fn price(s: &[u8], marks: &[u8]) -> Answer
    ensures { result ≡ price_of s.now marks.now }
{
    answered(priced(s, marks))
}
