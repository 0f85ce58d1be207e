// What a price carries along the tasks of a setting, and one mark's step of it by the equations of document 01.
#![tactic(auto)]

ghost use Rattle.progress.specs.Working.Progress.{ReadyForArrival, ReadyForMark, Arrived, Passed};

use chain::{Recoveries, stretch_time};
use charges::{cd_of, cm_of, rd_of, rm_of, v_of};
use factors::stretch_factors;
use job::Job;
use marks::payments;

// What is carried from one position to the next: the weight since the last mark, the last memory and disk copies, Q', M' and D(d).
#[derive(Clone, Copy)]
pub struct Progress {
    pub weight: u64,
    pub m: usize,
    pub d: usize,
    pub q: u64,
    pub mt: u64,
    pub dt: u64,
}

// Q(v) from what is carried to the marked position v.
fn arrival(job: Job, s: Progress, v: usize) -> u64
    requires { ReadyForArrival job s v }
    ensures { Arrived job s v result }
{
    let factors = stretch_factors(job.platform, s.weight, v_of(job.platform, v));
    let disk = rd_of(job.platform, s.d) + s.mt;
    let recoveries = Recoveries {
        disk,
        memory: rm_of(job.platform, s.m),
    };
    s.q + stretch_time(factors, recoveries, s.q)
}

// What is carried past the mark at v.
pub fn past_mark(job: Job, s: Progress, v: usize, mark: u8) -> Progress
    requires { ReadyForMark job s v mark }
    ensures { Passed job s v mark result }
{
    let pays = payments(mark);
    if !pays.v {
        return s;
    }
    let q = arrival(job, s, v);
    if !pays.cm {
        return Progress {
            weight: 0,
            m: s.m,
            d: s.d,
            q,
            mt: s.mt,
            dt: s.dt,
        };
    }
    let mt = s.mt + q + cm_of(job.platform, v);
    if !pays.cd {
        return Progress {
            weight: 0,
            m: v,
            d: s.d,
            q: 0,
            mt,
            dt: s.dt,
        };
    }
    Progress {
        weight: 0,
        m: v,
        d: v,
        q: 0,
        mt: 0,
        dt: s.dt + mt + cd_of(job.platform, v),
    }
}
