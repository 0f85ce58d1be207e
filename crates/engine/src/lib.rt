// The engine of request 104: the plan of a sheet of up to 8 tasks by the equations as printed, without a table, or the first refusal that holds.
#![tactic(auto)]

ghost use Rattle.costs.specs.Stretch.{chain_of};
ghost use Rattle.refusals.specs.Checks.{answer_of};
ghost use Rattle.answers.specs.Promise.{PlansChain};
ghost use Rattle.planning.specs.Working.Ready.{ReadyForJob};
ghost use Rattle.engine.specs.Promise.{PlansAsPrinted};

use answers::copy_marks;
use equations::e_disk;
use job::Job;
use refusals::{Answer, Refusal, answered};
use sheet::read::read_job;
use units::NONE;

mod walk_back;

use walk_back::plan_marks;

// The most tasks: the functions call each other more than three times as often for each task more.
pub const PRINTED_LIMIT: usize = 8;

// The plan of a job for a buffer that holds its marks: E_disk(n), and the marks that give it. The time is known to fit before a byte is written.
fn plan_job(job: Job, buffer: &mut [u8]) -> Result<u64, Refusal>
    requires { ReadyForJob job buffer.old }
    ensures { PlansChain (chain_of job) job.tasks buffer.old buffer.new (answer_of result) }
{
    let n = job.tasks;
    let least = e_disk(job, n).time;
    if NONE <= least {
        return Err(Refusal::TooSlow);
    }
    let marks = plan_marks(job);
    copy_marks(buffer, marks, n);
    Ok(least)
}

// The plan of the sheet, or the first of checks 1 to 8, 27, 11 and 13 that holds.
fn plan_sheet(s: &[u8], buffer: &mut [u8]) -> Result<u64, Refusal>
    ensures { PlansAsPrinted s.now buffer.old buffer.new (answer_of result) }
{
    let job = read_job(s)?;
    let n = job.tasks;
    let room = buffer.len();
    if PRINTED_LIMIT < n {
        return Err(Refusal::LongChain);
    }
    if room < n {
        return Err(Refusal::ShortBuffer);
    }
    plan_job(job, buffer)
}

// The same as an answer.
pub fn printed(s: &[u8], buffer: &mut [u8]) -> Answer
    ensures { PlansAsPrinted s.now buffer.old buffer.new result }
{
    answered(plan_sheet(s, buffer))
}
