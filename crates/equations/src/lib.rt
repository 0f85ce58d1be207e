// Section 3.1 of source document 000 as printed. Its functions ask each other, E_verif and E in a cycle in which the end position falls, and nothing is kept.
//
//     0 ───────── d1 ─────── m1 ───── v1 ───── v2
//                disk      memory   verification, and this one
//
// Each gives its min and the earliest position that gives it, by which the marks are found. `mem` is the time E_mem(d1, m1), handed in as a number so that the
// cycle is E_verif and E alone. A min is cut off at NONE, 2^34 ticks, and E over a stretch that is not allowed is NONE.
// The engine calls these, for a job that has passed checks 3, 7 and 8.
#![tactic(auto)]

ghost use Rattle.std.specs.Prelude.{◌≡◌};
ghost use Rattle.units.specs.Limits.{none};
ghost use Rattle.costs.specs.Stretch.{chain_of};
ghost use Rattle.costs.specs.Working.Factors.{factors_at};
ghost use Rattle.equations.specs.Equations.{DiskEquation, MemoryEquation, VerificationEquation, StretchEquation};
ghost use Rattle.equations.specs.Working.Ready.{lesser, ReadyForGrowths, ReadyForE, ReadyForVerification, ReadyForMemory, ReadyForDisk};

use chain::Factors;
use charges::{cd_of, cm_of, rd_of, rm_of, v_of};
use factors::stretch_factors;
use job::Job;
use job::totals::weight_to;
use units::{NONE, UNIT, rounded_up};

// The least time of the positions offered so far, and the earliest that gives it.
#[derive(Clone, Copy)]
pub struct Least {
    pub time: u64,
    pub at: usize,
}

// One position more: the lesser time stays, and on a tie the earlier position.
fn offer(least: Least, at: usize, time: u64) -> Least
    ensures { result ≡ lesser least at time }
{
    if time < least.time {
        return Least { time, at };
    }
    least
}

// E_disk(0) = 0, and E_disk(d2) = min { E_disk(d1) + E_mem(d1, d2) + C_D }, over 0 <= d1 < d2.
pub fn e_disk(job: Job, d2: usize) -> Least
    requires { ReadyForDisk job d2 }
    ensures { DiskEquation (chain_of job) none d2 result.time result.at }
{
    if d2 == 0 {
        return Least { time: 0, at: 0 };
    }
    let mut least = Least { time: NONE, at: 0 };
    for d1 in 0..d2 {
        let time = e_disk(job, d1).time + e_mem(job, d1, d2).time + cd_of(job.platform, d2);
        least = offer(least, d1, time);
    }
    least
}

// E_mem(d1, d1) = 0, and E_mem(d1, m2) = min { E_mem(d1, m1) + E_verif(d1, m1, m2) + C_M }, over d1 <= m1 < m2.
pub fn e_mem(job: Job, d1: usize, m2: usize) -> Least
    requires { ReadyForMemory job d1 m2 }
    ensures { MemoryEquation (chain_of job) none d1 m2 result.time result.at }
{
    if m2 == d1 {
        return Least { time: 0, at: d1 };
    }
    let mut least = Least { time: NONE, at: d1 };
    for m1 in d1..m2 {
        let mem = e_mem(job, d1, m1).time;
        let time = mem + e_verif(job, d1, m1, mem, m2).time + cm_of(job.platform, m2);
        least = offer(least, m1, time);
    }
    least
}

// E_verif(d1, m1, m1) = 0, and
// (1)  E_verif(d1, m1, v2) = min { E_verif(d1, m1, v1) + E(d1, m1, v1, v2) }, over m1 <= v1 < v2.
#[cycle(e_e_verif)]
pub fn e_verif(job: Job, d1: usize, m1: usize, mem: u64, v2: usize) -> Least
    requires { ReadyForVerification job d1 m1 mem v2 }
    ensures { VerificationEquation (chain_of job) none d1 m1 mem v2 result.time result.at }
{
    if v2 == m1 {
        return Least { time: 0, at: m1 };
    }
    let mut least = Least { time: NONE, at: m1 };
    for v1 in m1..v2 {
        let time = e_verif(job, d1, m1, mem, v1).time + e(job, d1, m1, mem, v1, v2);
        least = offer(least, v1, time);
    }
    least
}

// The growths over the stretch from v1 to v2, whose weight is W, and the first part of (4).
fn growths(job: Job, v1: usize, v2: usize) -> Factors
    requires { ReadyForGrowths job v1 v2 }
    ensures { result ≡ factors_at job v1 v2 }
{
    let weights = job.weights;
    let w = weight_to(weights, v2) - weight_to(weights, v1);
    stretch_factors(job.platform, w, v_of(job.platform, v2))
}

// (4)  E(d1, m1, v1, v2) = e^(λ_s W) ((e^(λ_f W) - 1) / λ_f + V*)
//                        + e^(λ_s W) (e^(λ_f W) - 1) (R_D + E_mem(d1, m1))
//                        + (e^((λ_s + λ_f) W) - 1) E_verif(d1, m1, v1)
//                        + (e^(λ_s W) - 1) R_M,
// which is (2) with (3) put in. In units of 2^-24 e^(λ_s W) is f.silent and e^((λ_s + λ_f) W) is f.both, so that e^(λ_s W) (e^(λ_f W) - 1) is f.both - f.silent; the
// first part is f.work. All is rounded as document 01 says, each part up. f.both is 0 where the stretch is not allowed. R_D and R_M are what going back to d1 and to
// m1 costs: R_D has the refill of memory in it, and both are 0 at the start.
#[cycle(e_e_verif)]
fn e(job: Job, d1: usize, m1: usize, mem: u64, v1: usize, v2: usize) -> u64
    requires { ReadyForE job d1 m1 mem v1 v2 }
    ensures { StretchEquation (chain_of job) none d1 m1 mem v1 v2 result }
{
    let f = growths(job, v1, v2);
    if f.both == 0 {
        return NONE;
    }
    f.work
        + rounded_up((f.both - f.silent) * (rd_of(job.platform, d1) + mem))
        + rounded_up((f.both - UNIT) * e_verif(job, d1, m1, mem, v1).time)
        + rounded_up((f.silent - UNIT) * rm_of(job.platform, m1))
}
