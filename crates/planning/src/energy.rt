// The plan by energy of a job sheet (request 106): the marks of least energy, written to a buffer that the caller lends, and their energy, or the first refusal
// that holds.
ghost use Rattle.refusals.specs.Checks.{answer_of};
ghost use Rattle.planning.specs.Energy.{PlansByEnergy};

use crate::plan_job;
use costs::Powers;
use powers::bad_powers;
use refusals::{Answer, Refusal, answered};
use sheet::read::read_job;

// The plan by energy, or the first of checks 1 to 8, 29, 11 and 13 that holds. 29 and 11 are both worked out before the first is taken, so that an edit of their
// order is an edit of these lines alone.
fn plan_sheet(s: &[u8], powers: Powers, buffer: &mut [u8]) -> Result<u64, Refusal>
    ensures { PlansByEnergy powers s.now buffer.old buffer.new (answer_of result) }
{
    let job = read_job(s)?;
    let bad = bad_powers(powers, job);
    let short = buffer.len() < job.tasks;
    if bad {
        return Err(Refusal::BadPower);
    }
    if short {
        return Err(Refusal::ShortBuffer);
    }
    plan_job(powers, job, buffer)
}

// The same as an answer.
pub fn plan_energy(s: &[u8], powers: Powers, buffer: &mut [u8]) -> Answer
    ensures { PlansByEnergy powers s.now buffer.old buffer.new result }
{
    answered(plan_sheet(s, powers, buffer))
}
