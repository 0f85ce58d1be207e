// Rows of copies: the least M(v) from a disk copy over the memory copy before v, and the least D(v) over the disk copy before v. `find`, in the crate `search`, and the walk call
// these, with a table whose numbers are bounded, so that no product wraps.
//
// A row is filled forward: each position that can still matter offers its arrivals to the later ones, and the lesser time stays, with the earliest position before. Rows are
// never too low, and exact where the bounds on what is still to come leave room for the plan.
#![tactic(auto)]

ghost use Rattle.std.specs.Prelude.{◌+◌, get_or};
ghost use Rattle.units.specs.Limits.{none};
ghost use Rattle.chain.specs.Working.Search.{to_memory, to_disk};
ghost use Rattle.table.specs.Working.Table.{chain_in};
ghost use Rattle.copies.specs.Working.Copies.{Offered, Cut, LiveCopy, LiveDisk, Far, ReadyForCopies, ReadyForFar, ReadyForMemory, ReadyForMemoryRow, ReadyForDisk, OffersDisk, ReadyForDiskRow};

use bounds::{after, beyond, part_low};
use table::{CD_START, CM_START, column_of, entry, recoveries};
use units::{NONE, POSITIONS};
use verifications::{offer, verification_row};

// The arrivals at copies from u: the time at u, the time of the part from u, and the cost of the copy.
fn offer_copies(
    time: &mut [u64],
    backs: &mut [usize],
    u: usize,
    part: &[u64],
    copies: &[u32],
    top: usize,
)
    requires { ReadyForCopies time.old backs.old u part.now copies.now top }
    ensures { Offered time.old backs.old u (top + 1) (λ w. get_or time.old u 0 + get_or part.now w 0 + get_or copies.now w 0) time.new backs.new }
{
    let t = time[u];
    for v in u + 1..top + 1 {
        offer(time, backs, v, u, t + part[v] + u64::from(copies[v]));
    }
}

// The last memory copy that can still matter after that at m: its bound is below the time that its entry has, and leaves room for what comes after. It is m where
// there is none.
fn far(
    time: &[u64],
    t: &[u32],
    b: &[u64],
    n: usize,
    d: usize,
    m: usize,
    left: u64,
    top: usize,
) -> usize
    requires { ReadyForFar n time.now t.now b.now d m top }
    ensures { Far n time.now t.now b.now d m left top result }
{
    let mt = time[m];
    if left <= mt + after(b, n, d, m) {
        return m;
    }
    let r = recoveries(t, d, m, mt);
    let disk = beyond(b, m, r.disk);
    for v in (m + 1..top + 1).rev() {
        let room = left.saturating_sub(after(b, n, d, v));
        if mt + part_low(b, n, t, m, disk, v) < time[v].min(room) {
            return v;
        }
    }
    m
}

// The arrivals at memory copies up to the top from that at m, with the last disk copy d.
fn offer_memory(time: &mut [u64], backs: &mut [usize], t: &[u32], d: usize, m: usize, top: usize)
    requires { ReadyForMemory time.old backs.old t.now d m top }
    ensures { Offered time.old backs.old m (top + 1) (to_memory (chain_in t.now) none d m (get_or time.old m 0)) time.new backs.new }
{
    let r = recoveries(t, d, m, time[m]);
    let mut q = [NONE; POSITIONS];
    verification_row(&mut q, t, r, m, top);
    offer_copies(time, backs, m, &q, column_of(t, CM_START), top);
}

// The least M(v) from the disk copy d, for each v up to the top, of n tasks in all, cut where what comes after leaves no room: less than `left` from d to the end.
pub fn memory_row(
    time: &mut [u64],
    backs: &mut [usize],
    t: &[u32],
    b: &[u64],
    n: usize,
    d: usize,
    left: u64,
    top: usize,
)
    requires { ReadyForMemoryRow n time.old backs.old t.now b.now d left top }
    ensures { Cut none d (to_memory (chain_in t.now) none d) (LiveCopy n t.now b.now d left) top time.new backs.new }
{
    time[d] = 0;
    for m in d..top {
        let last = far(time, t, b, n, d, m, left, top);
        if m < last {
            offer_memory(time, backs, t, d, m, last);
        }
    }
}

// The arrivals at disk copies from that at d, with less than `left` from d to the end.
fn offer_disk(
    time: &mut [u64],
    backs: &mut [usize],
    t: &[u32],
    b: &[u64],
    d: usize,
    left: u64,
    n: usize,
)
    requires { ReadyForDisk time.old backs.old t.now b.now d left n }
    ensures { OffersDisk time.old backs.old t.now b.now d left n time.new backs.new }
{
    let mut mt = [NONE; POSITIONS];
    let mut from = [0usize; POSITIONS];
    memory_row(&mut mt, &mut from, t, b, n, d, left, n);
    offer_copies(time, backs, d, &mt, column_of(t, CD_START), n);
}

// The least D(v), for each v up to n, cut where what comes after leaves no room: at most `limit` from the start to the end, and less than what is found.
pub fn disk_row(time: &mut [u64], backs: &mut [usize], t: &[u32], b: &[u64], limit: u64, n: usize)
    requires { ReadyForDiskRow time.old backs.old t.now b.now limit n }
    ensures { Cut none 0 (to_disk (chain_in t.now) none) (LiveDisk t.now b.now limit n) n time.new backs.new }
{
    time[0] = 0;
    for d in 0..n {
        let bound = time[n].min(limit + 1);
        let start = time[d];
        if start + after(b, n, d, d) < bound {
            offer_disk(time, backs, t, b, d, bound - start, n);
        }
    }
}
