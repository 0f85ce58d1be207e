// The marks of the plan, by walking back from the last task over the earliest positions before. The disk row is what the search has found; the rows of the
// other levels are filled anew, cut where the plan leaves no room, from each disk copy of the plan and each memory copy of it. The search calls `plan_marks`, with the
// row that `find` gave and a least time below none: there are no other marks to find.
#![tactic(auto)]

ghost use Rattle.units.specs.Limits.{none};
ghost use Rattle.chain.specs.Time.{disk};
ghost use Rattle.chain.specs.Working.Search.{back_d};
ghost use Rattle.chain.specs.Working.Walk.{PlannedMarks};
ghost use Rattle.table.specs.Working.Table.{chain_in};
ghost use Rattle.walk.specs.Working.Walk.{StepsBack, AtCopy, ReadyAtDisk, ReadyToStep, ReadyToWalk};

use chain::{DISK, MEMORY, VERIFICATION};
use copies::memory_row;
use table::recoveries;
use units::{NONE, POSITIONS, TASK_LIMIT};
use verifications::{check_before, verification_row};

// A step of the walk: v has mark k, the last copies before it are d and m. `times` and `copies` are the memory row from d, `checks` the row of verifications
// from m.
#[derive(Clone, Copy)]
pub struct Walk {
    pub k: u8,
    pub d: usize,
    pub m: usize,
    pub v: usize,
    pub times: [u64; POSITIONS],
    pub copies: [usize; POSITIONS],
    pub checks: [u64; POSITIONS],
}

// The step at the disk copy v of the plan of n tasks; `time` and `backs` are the disk row.
fn at_disk(t: &[u32], b: &[u64], time: &[u64], backs: &[usize], n: usize, v: usize) -> Walk
    requires { ReadyAtDisk t.now b.now n time.now backs.now v }
    ensures { AtCopy t.now b.now n disk (back_d (chain_in t.now) none v) v result }
{
    let d = backs[v];
    let left = time[n] + 1 - time[d];
    let mut times = [NONE; POSITIONS];
    let mut copies = [0usize; POSITIONS];
    memory_row(&mut times, &mut copies, t, b, n, d, left, v);
    let m = copies[v];
    let r = recoveries(t, d, m, times[m]);
    let mut checks = [NONE; POSITIONS];
    verification_row(&mut checks, t, r, m, v);
    Walk {
        k: DISK,
        d,
        m,
        v,
        times,
        copies,
        checks,
    }
}

// The step before w; at 0 where the walk is over.
fn step_back(t: &[u32], b: &[u64], time: &[u64], backs: &[usize], n: usize, w: Walk) -> Walk
    requires { ReadyToStep t.now b.now n time.now backs.now w }
    ensures { StepsBack t.now b.now n w result }
{
    let mut w = w;
    let d = w.d;
    let m = w.m;
    let v = w.v;
    let r = recoveries(t, d, m, w.times[m]);
    let u = check_before(&w.checks, t, r, m, v);
    if u != m {
        w.k = VERIFICATION;
        w.v = u;
        return w;
    }
    if m != d {
        let before = w.copies[m];
        let s = recoveries(t, d, before, w.times[before]);
        let mut checks = [NONE; POSITIONS];
        verification_row(&mut checks, t, s, before, m);
        w.k = MEMORY;
        w.m = before;
        w.v = m;
        w.checks = checks;
        return w;
    }
    if d != 0 {
        return at_disk(t, b, time, backs, n, d);
    }
    w.v = 0;
    w
}

// The marks of the plan of n tasks, whose least time is below none; `time` and `backs` are the disk row.
pub fn plan_marks(t: &[u32], b: &[u64], time: &[u64], backs: &[usize], n: usize) -> [u8; TASK_LIMIT]
    requires { ReadyToWalk t.now b.now n time.now backs.now }
    ensures { PlannedMarks (chain_in t.now) none n result }
{
    let mut marks = [0u8; TASK_LIMIT];
    let mut w = at_disk(t, b, time, backs, n, n);
    // a `while`, as each step finds where the next one stands
    while 0 < w.v {
        let v = w.v;
        let k = w.k;
        marks[v - 1] = k;
        w = step_back(t, b, time, backs, n, w);
    }
    marks
}
