// Fills the search's table with the chain of a job in energy, which by the powers 1 and 1 is its time: the factors of each stretch that is allowed, a near end
// and a far end, then the costs of each position.
#![tactic(auto)]

ghost use Rattle.std.specs.Prelude.{◌+◌};
ghost use Rattle.filling.specs.Working.Fill.{PairsTo, TableTo, TableOf, ReadyForCosts, ReadyToFill};

use charges::{cd_of, cm_of, rd_of, rm_of, v_of};
use costs::Powers;
use factors::factors_if_allowed;
use job::Job;
use table::{CD_START, CM_START, RD_START, RM_START, put_firsts, put_in_column, put_pair};

// The factors of each stretch that is allowed. One weight runs with the far end: set to 0 at each near end, and one task more at each step.
fn fill_pairs(t: &mut [u32], powers: Powers, job: Job)
    requires { ReadyToFill powers job t.old }
    ensures { PairsTo powers job job.tasks (job.tasks + 1) t.new }
{
    let n = job.tasks;
    let platform = job.platform;
    let weights = job.weights;
    for u in 0..n {
        let mut weight = 0;
        for v in u + 1..n + 1 {
            weight += weights[v - 1] as u64;
            let f = factors_if_allowed(powers, platform, weight, v_of(platform, v));
            put_pair(t, u, v, f);
        }
    }
}

// The costs of each position.
fn fill_costs(t: &mut [u32], powers: Powers, job: Job)
    requires { ReadyForCosts powers job t.old }
    ensures { TableTo powers job (job.tasks + 1) t.new }
{
    let platform = job.platform;
    for v in 0..job.tasks + 1 {
        let cm = powers.saving * cm_of(platform, v);
        let cd = powers.saving * cd_of(platform, v);
        let rd = powers.saving * rd_of(platform, v);
        let rm = powers.saving * rm_of(platform, v);
        put_in_column(t, CM_START, v, cm);
        put_in_column(t, CD_START, v, cd);
        put_in_column(t, RD_START, v, rd);
        put_in_column(t, RM_START, v, rm);
    }
}

// The chain of the job in energy. Planning alone calls this, with a table that is long enough and a job that has passed checks 3, 7 and 8 and whose products
// with the powers fit.
pub fn fill(t: &mut [u32], powers: Powers, job: Job)
    requires { ReadyToFill powers job t.old }
    ensures { TableOf powers job t.new }
{
    fill_pairs(t, powers, job);
    fill_costs(t, powers, job);
    put_firsts(t, job.tasks);
}
