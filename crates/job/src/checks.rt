// Checks 3, 7 and 8 of document 01.
ghost use Rattle.std.specs.Prelude.{◌≡◌, ◌||◌, false, ◌+◌, ◌<◌, ◌≤◌, ltb, eqb, length};
ghost use Rattle.units.specs.Limits.{cost_limit};
ghost use Rattle.lists.specs.Lists.{some};
ghost use Rattle.refusals.specs.Refusals.{first};
ghost use Rattle.refusals.specs.Checks.{told};
ghost use Rattle.units.specs.Limits.{task_limit};
ghost use Rattle.job.specs.Job.{total};
ghost use Rattle.job.specs.Working.Sound.{ReadyForWeights};
ghost use Rattle.job.specs.Working.Heaviest.{heaviest};
ghost use Rattle.job.specs.Checks.{bad_count, bad_cost, bad_weight, job_conditions};

use crate::stretch::is_allowed;
use crate::{Job, Platform};
use refusals::Refusal;
use units::TASK_LIMIT;

const COST_LIMIT: u32 = 1 << 30;

pub const TOTAL_LIMIT: u64 = 1 << 30;

// Check 3, of a sheet's or a run's task count.
pub fn bad_count(n: usize) -> bool
    ensures { result ≡ bad_count n }
{
    n == 0 || TASK_LIMIT < n
}

fn bad_cost(p: Platform) -> bool
    ensures { result ≡ bad_cost p }
{
    let costs = [p.cd, p.cm, p.v, p.rd, p.rm];
    costs.iter().any(|cost| COST_LIMIT < *cost)
}

fn bad_weight(w: u32) -> bool
    ensures { result ≡ (eqb w 0 || ltb cost_limit w) }
{
    w == 0 || COST_LIMIT < w
}

// A weight or the total of weights outside its range. A weight is tested before it joins the total, so that no sum can wrap.
fn bad_weights(weights: &[u32], n: usize) -> bool
    requires { ReadyForWeights n weights.now }
    ensures { result ≡ (some n (bad_weight weights.now) || ltb cost_limit (total weights.now n)) }
{
    let mut sum: u64 = 0;
    for j in 0..n {
        let w = weights[j];
        if bad_weight(w) {
            return true;
        }
        sum += u64::from(w);
    }
    TOTAL_LIMIT < sum
}

// The weight of the heaviest of the first n tasks.
fn heaviest(weights: &[u32], n: usize) -> u32
    requires { n ≤ length weights.now }
    ensures { result ≡ heaviest weights.now n }
{
    let mut most: u32 = 0;
    for j in 0..n {
        let w = weights[j];
        if most < w {
            most = w;
        }
    }
    most
}

// The first of checks 7 and 8 that holds: where some task alone is not allowed as a stretch, the heaviest is not. The task count has passed check 3, so
// that it is a place of the array.
pub fn check_job(job: Job) -> Result<(), Refusal>
    requires { job.tasks ≤ task_limit }
    ensures { told result ≡ first (job_conditions job) }
{
    if bad_cost(job.platform) {
        return Err(Refusal::BadValue);
    }
    let weights = job.weights;
    if bad_weights(&weights[..], job.tasks) {
        return Err(Refusal::BadValue);
    }
    if !is_allowed(job.platform, heaviest(&weights[..], job.tasks) as u64) {
        return Err(Refusal::BadTask);
    }
    Ok(())
}
