// The least time of all tasks, and the disk row that has it. The search calls `find`, with the bounds of the chain that the table holds.
#![tactic(auto)]

ghost use Rattle.units.specs.Limits.{none};
ghost use Rattle.chain.specs.Working.Search.{to_disk};
ghost use Rattle.copies.specs.Working.Copies.{Cut, LiveDisk};
ghost use Rattle.table.specs.Working.Table.{chain_in};
ghost use Rattle.walk.specs.Working.Walk.{Found};
ghost use Rattle.finding.specs.Working.Limit.{ReadyForLimit, ReadyForDisks};

use copies::disk_row;
use units::{NONE, POSITIONS};

mod limit;

use limit::first_limit;

// A disk row: least times, and the earliest positions before.
#[derive(Clone, Copy)]
pub struct Disks {
    pub time: [u64; POSITIONS],
    pub backs: [usize; POSITIONS],
}

// The disk row of plans that take no longer than the limit.
fn disks_within(t: &[u32], b: &[u64], limit: u64, n: usize) -> Disks
    requires { ReadyForDisks t.now b.now limit n }
    ensures { Cut none 0 (to_disk (chain_in t.now) none) (LiveDisk t.now b.now limit n) n result.time result.backs }
{
    let mut time = [NONE; POSITIONS];
    let mut backs = [0usize; POSITIONS];
    disk_row(&mut time, &mut backs, t, b, limit, n);
    Disks { time, backs }
}

// The disk row of the plan: by the first limit, and if nothing is found within it, by the longest time, unless that was the first limit.
pub fn find(t: &[u32], b: &[u64], n: usize) -> Disks
    requires { ReadyForLimit t.now b.now n }
    ensures { Found t.now b.now n result.time result.backs }
{
    let limit = first_limit(t, b, n);
    let first = disks_within(t, b, limit, n);
    let time = first.time;
    if time[n] <= limit {
        return first;
    }
    if NONE <= limit + 1 {
        return first;
    }
    disks_within(t, b, NONE - 1, n)
}
