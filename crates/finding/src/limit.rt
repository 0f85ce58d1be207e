// A limit to search by: the time of the setting that the bounds take for the best. It is mostly the plan's. Nothing rests on it: where it is too low, the search is
// made again without it. `find` alone calls `first_limit`, with what it was handed itself.
ghost use Rattle.std.specs.Prelude.{◌*◌, ◌≤◌, ◌<◌};
ghost use Rattle.units.specs.Limits.{none};
ghost use Rattle.finding.specs.Working.Limit.{ReadyForNext, Next, ReadyForCopy, ReadyForLimit};

use bounds::{after, part_low, since};
use table::{CD_START, CM_START, column_at, recoveries};
use units::{NONE, POSITIONS};
use verifications::verification_row;

// The first memory copy after u that the bounds take for the best, with the last disk copy d; n where none before it is.
fn next_copy(t: &[u32], b: &[u64], d: usize, u: usize, n: usize) -> usize
    requires { ReadyForNext t.now b.now d u n }
    ensures { Next u n result }
{
    let x = since(b, t, d, u);
    let rest = after(b, n, d, u);
    for v in u + 1..n {
        if part_low(b, n, t, u, x, v) + after(b, n, d, v) == rest {
            return v;
        }
    }
    n
}

// The time of a memory copy at v after that at u, whose time is mt, with the last disk copy d.
fn copy_time(t: &[u32], d: usize, u: usize, mt: u64, v: usize) -> u64
    requires { ReadyForCopy t.now d u mt v }
    ensures { result ≤ 3 * none }
{
    let r = recoveries(t, d, u, mt);
    let mut q = [NONE; POSITIONS];
    verification_row(&mut q, t, r, u, v);
    mt + q[v] + column_at(t, CM_START, v)
}

// The time of that setting, and at most the longest time.
pub fn first_limit(t: &[u32], b: &[u64], n: usize) -> u64
    requires { ReadyForLimit t.now b.now n }
    ensures { result < none }
{
    let mut d: usize = 0;
    let mut u: usize = 0;
    let mut on_disk: u64 = 0;
    let mut in_memory: u64 = 0;
    // a `while`, as the next position is the copy found and not the next number
    while u < n {
        let v = next_copy(t, b, d, u, n);
        in_memory = NONE.min(copy_time(t, d, u, in_memory, v));
        u = v;
        if after(b, n, d, v) == column_at(t, CD_START, v) + after(b, n, v, v) {
            on_disk = NONE.min(on_disk + in_memory + column_at(t, CD_START, v));
            in_memory = 0;
            d = v;
        }
    }
    on_disk.min(NONE - 1)
}
