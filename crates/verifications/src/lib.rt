// Rows of verifications: the least Q(v) from a memory copy, over the mark u before v. Each entry is exact, the least over the positions before it. The bounds, the rows of
// copies, the first limit and the walk call these, with a table whose numbers are bounded, so that no product wraps.
#![tactic(auto)]

ghost use Rattle.std.specs.Prelude.{◌≡◌, ◌+◌};
ghost use Rattle.units.specs.Limits.{none};
ghost use Rattle.chain.specs.Working.Search.{reach, back};
ghost use Rattle.table.specs.Working.Table.{arrival_at};
ghost use Rattle.verifications.specs.Working.Rows.{Row, EndIs, ReadyToArrive, ReadyToVerify, ReadyForLeast, ReadyForRow, ReadyToOffer, OfferMade};

use chain::{Recoveries, stretch_time};
use table::{entry, first_of};
use units::NONE;

// The time of arrival at v from u, where the time at u is q: none if the stretch is not allowed.
fn arrival(t: &[u32], r: Recoveries, u: usize, q: u64, v: usize) -> u64
    requires { ReadyToArrive t.now r u q v }
    ensures { result ≡ arrival_at t.now r u q v }
{
    let f = entry(t, u, v);
    if f.both == 0 {
        return NONE;
    }
    q + stretch_time(f, r, q)
}

// Where the positions end that have a time: v if the last before it has one, and else as before.
pub fn end_after(time: u64, v: usize, end: usize) -> usize
    ensures { EndIs time v end result }
{
    if time < NONE {
        return v;
    }
    end
}

// The least Q(v) from the memory copy m, by the row of the positions before v, of which none is reached from `end` on.
fn verified(time: &[u64], t: &[u32], r: Recoveries, m: usize, end: usize, v: usize) -> u64
    requires { ReadyForLeast time.now t.now r m end v }
    ensures { result ≡ reach none m (arrival_at t.now r) v }
{
    let mut best = NONE;
    for u in m.max(first_of(t, v))..end {
        best = best.min(arrival(t, r, u, time[u], v));
    }
    best
}

// The least Q(v) from the memory copy m, for each v up to the top.
pub fn verification_row(time: &mut [u64], t: &[u32], r: Recoveries, m: usize, top: usize)
    requires { ReadyForRow time.old t.now r m top }
    ensures { Row none m (arrival_at t.now r) (top + 1) time.new }
{
    time[m] = 0;
    let mut end = m + 1;
    for v in m + 1..top + 1 {
        let q = verified(time, t, r, m, end, v);
        time[v] = q;
        end = end_after(q, v + 1, end);
    }
}

// An arrival at v from u: the lesser time stays, and on a tie the earlier position.
pub fn offer(time: &mut [u64], backs: &mut [usize], v: usize, u: usize, arrival: u64)
    requires { ReadyToOffer time.old backs.old v }
    ensures { OfferMade time.old backs.old v u arrival time.new backs.new }
{
    if arrival < time[v] {
        time[v] = arrival;
        backs[v] = u;
    }
}

// The earliest position from which v is reached in its least time, by the row from m. It is found by offers, as in rows of copies, so that ties are settled in one
// place; here the rows have the entry of v alone.
pub fn check_before(time: &[u64], t: &[u32], r: Recoveries, m: usize, v: usize) -> usize
    requires { ReadyToVerify time.now t.now r m v }
    ensures { result ≡ back none m (arrival_at t.now r) v }
{
    let mut best = [NONE; 1];
    let mut from = [0usize; 1];
    for u in m..v {
        offer(&mut best, &mut from, 0, u, arrival(t, r, u, time[u], v));
    }
    from[0]
}
