// The plan of a job sheet: the cheapest marks, written to a buffer that the caller lends, and their time, or the first refusal that holds.
#![tactic(auto)]

ghost use Rattle.costs.specs.Energy.{energy_chain};
ghost use Rattle.planning.specs.Promise.{Plans};
ghost use Rattle.refusals.specs.Checks.{answer_of};
ghost use Rattle.answers.specs.Promise.{PlansChain};
ghost use Rattle.planning.specs.Working.Ready.{ReadyForTables, ReadyForPowers};

use bounds::BOUNDS_LENGTH;
use costs::Powers;
use filling::fill;
use job::Job;
use refusals::{Answer, Refusal, answered};
use search::plan_chain;
use sheet::read::read_job;
use table::TABLE_LENGTH;

pub mod energy;

// The plan by energy of a job for a buffer that holds its marks, by a table and bounds that are lent and long enough for it.
fn plan_by(
    table: &mut [u32],
    bounds: &mut [u64],
    powers: Powers,
    job: Job,
    buffer: &mut [u8],
) -> Result<u64, Refusal>
    requires { ReadyForTables table.old bounds.old powers job buffer.old }
    ensures { PlansChain (energy_chain powers job) job.tasks buffer.old buffer.new (answer_of result) }
{
    fill(table, powers, job);
    plan_chain(table, bounds, job.tasks, buffer)
}

// The same, by arrays for the longest chain. This is the one class of sizes: a class of shorter arrays is one more function of this kind, and a branch to it by the task
// count.
fn plan_job(powers: Powers, job: Job, buffer: &mut [u8]) -> Result<u64, Refusal>
    requires { ReadyForPowers powers job buffer.old }
    ensures { PlansChain (energy_chain powers job) job.tasks buffer.old buffer.new (answer_of result) }
{
    let mut table = [0u32; TABLE_LENGTH];
    let mut bounds = [0u64; BOUNDS_LENGTH];
    plan_by(&mut table, &mut bounds, powers, job, buffer)
}

// The plan of the sheet, or the first of checks 1 to 8, 11 and 13 that holds.
fn plan_sheet(s: &[u8], buffer: &mut [u8]) -> Result<u64, Refusal>
    ensures { Plans s.now buffer.old buffer.new (answer_of result) }
{
    let job = read_job(s)?;
    if buffer.len() < job.tasks {
        return Err(Refusal::ShortBuffer);
    }
    plan_job(Powers::plain(), job, buffer)
}

// The same as an answer.
pub fn plan(s: &[u8], buffer: &mut [u8]) -> Answer
    ensures { Plans s.now buffer.old buffer.new result }
{
    answered(plan_sheet(s, buffer))
}
