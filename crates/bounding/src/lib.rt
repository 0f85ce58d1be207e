// Fills the table of bounds for the chain that a table holds. Each bound is the least over its candidates, and at most NONE. The search calls `fill_bounds`, with a
// table that is long enough and a chain whose numbers are bounded, so that no product wraps.
#![tactic(auto)]

ghost use Rattle.std.specs.Prelude.{◌≡◌, ◌+◌, set};
ghost use Rattle.bounding.specs.Working.Stages.{Stage, PutParts, PartFilled, LeastTime, LeastRisk, LeastBase, StepPut, Looked, LeastAfter, OwnIs, StoppedIs, ReadyForStopped, ReadyToPutParts, ReadyForBounds, ReadyForPart, ReadyForStep, ReadyForBase, ReadyForRisk, ReadyForAhead, ReadyForAfter, ReadyForOwn, ReadyForAfters};
ghost use Rattle.bounds.specs.Working.Bounds.{square_at, PlacesFit, BoundsOf};

use bounds::{
    BASE_START, RISK_START, SQUARE_START, TIME_START, after, least_disk, part, since, slope,
};
use chain::Recoveries;
use table::{CD_START, CM_START, RM_START, column_at, entry};
use units::{NONE, POSITIONS, UNIT, rounded_up};
use verifications::{end_after, verification_row};

// Two entries for each position.
const AHEAD_LENGTH: usize = 2 * POSITIONS;

// Puts x into the square.
fn put_square(b: &mut [u64], n: usize, row: usize, at: usize, x: u64)
    requires { PlacesFit n b.old row at }
    ensures { b.new ≡ set b.old (square_at n row at) x }
{
    b[SQUARE_START + (n + 1) * row + at] = x;
}

// The row of verifications from m goes below the diagonal.
fn put_parts(b: &mut [u64], q: &[u64], m: usize, n: usize)
    requires { ReadyToPutParts b.old q.now m n }
    ensures { PutParts n b.old q.now m (n + 1) b.new }
{
    for v in m + 1..n + 1 {
        put_square(b, n, v, m, q[v]);
    }
}

// From the memory copy m the row of verifications, with the base of m for its recovery from disk.
fn fill_part(b: &mut [u64], q: &mut [u64], t: &[u32], m: usize, n: usize)
    requires { ReadyForPart b.old q.old t.now m n }
    ensures { PartFilled m n t.now b.new q.new }
{
    let disk = UNIT * b[BASE_START + m];
    let memory = column_at(t, RM_START, m);
    verification_row(q, t, Recoveries { disk, memory }, m, n);
    put_parts(b, q, m, n);
}

// The least time of a memory copy at v.
fn least_time(b: &[u64], n: usize, t: &[u32], v: usize) -> u64
    requires { ReadyForStep n b.now t.now v }
    ensures { LeastTime n b.now t.now v result }
{
    let copy = column_at(t, CM_START, v);
    let mut best = NONE;
    for u in 0..v {
        best = best.min(b[TIME_START + u] + part(b, n, u, v) + copy);
    }
    best
}

// G(y_s + y_f) - G(y_s) of the stretch from u to v: NONE where it is not allowed.
fn stopped(t: &[u32], u: usize, v: usize) -> u64
    requires { ReadyForStopped t.now u v }
    ensures { StoppedIs t.now u v result }
{
    let f = entry(t, u, v);
    if f.both == 0 {
        return NONE;
    }
    f.both - f.silent
}

// The least sum of G(y_s + y_f) - G(y_s) on the way to v.
fn least_risk(b: &[u64], t: &[u32], v: usize) -> u64
    requires { ReadyForRisk b.now t.now v }
    ensures { LeastRisk b.now t.now v result }
{
    let mut best = NONE;
    for u in 0..v {
        best = best.min(b[RISK_START + u] + stopped(t, u, v));
    }
    best
}

// The least recovery from disk at v over the last disk copies, in multiples of 2^24 ticks, rounded down.
fn least_base(b: &[u64], t: &[u32], v: usize) -> u64
    requires { ReadyForBase b.now t.now v }
    ensures { LeastBase b.now t.now v result }
{
    let mut best = least_disk(b, t, v, v);
    for d in 0..v {
        best = best.min(least_disk(b, t, d, v));
    }
    best / UNIT
}

// The time, the risk and the base of v.
fn put_step(b: &mut [u64], n: usize, t: &[u32], v: usize)
    requires { ReadyForStep n b.old t.now v }
    ensures { StepPut n b.old t.now v b.new }
{
    let time = least_time(b, n, t, v);
    let risk = least_risk(b, t, v);
    b[TIME_START + v] = time;
    b[RISK_START + v] = risk;
    let base = least_base(b, t, v);
    b[BASE_START + v] = base;
}

// From each memory copy the parts, then the time, the risk and the base of the next position.
fn fill_steps(b: &mut [u64], t: &[u32], n: usize)
    requires { ReadyForBounds b.old t.now n }
    ensures { Stage (n + 1) n t.now b.new }
{
    b[TIME_START] = 0;
    b[RISK_START] = 0;
    b[BASE_START] = 0;
    let mut q = [NONE; POSITIONS];
    for m in 0..n {
        fill_part(b, &mut q, t, m, n);
        put_step(b, n, t, m + 1);
    }
}

// What stays the same for each disk copy up to u: of each v after u, the part from u with the copy at its end, and its slope. The answer is where the positions
// end that have such a part.
fn look_ahead(ahead: &mut [u64], b: &[u64], t: &[u32], u: usize, n: usize) -> usize
    requires { ReadyForAhead ahead.old b.now t.now u n }
    ensures { Looked b.now t.now u result n ahead.new }
{
    let mut end = u + 1;
    for v in u + 1..n + 1 {
        let time = part(b, n, u, v) + column_at(t, CM_START, v);
        ahead[2 * v] = time;
        ahead[2 * v + 1] = slope(b, u, v);
        end = end_after(time, v + 1, end);
    }
    end
}

// The least of what comes after the memory copy u, over the next one, with the last disk copy d and R_D' + M' = x beyond the base of u.
fn least_after(ahead: &[u64], b: &[u64], n: usize, d: usize, x: u64, u: usize, end: usize) -> u64
    requires { ReadyForAfter n ahead.now b.now d x u end }
    ensures { LeastAfter n ahead.now b.now d x u end result }
{
    let mut best = NONE;
    for v in u + 1..end {
        best = best.min(ahead[2 * v] + rounded_up(ahead[2 * v + 1] * x) + after(b, n, d, v));
    }
    best
}

// What comes after the disk copy u: nothing at the end.
fn after_disk(ahead: &[u64], b: &[u64], t: &[u32], u: usize, end: usize, n: usize) -> u64
    requires { ReadyForOwn ahead.now b.now t.now u end n }
    ensures { OwnIs b.now t.now u n result }
{
    if u == n {
        return 0;
    }
    least_after(ahead, b, n, u, since(b, t, u, u), u, end)
}

// What comes after the copy u, for each last disk copy d: the next memory copy, or a disk copy at u.
fn fill_column(b: &mut [u64], ahead: &[u64], t: &[u32], u: usize, end: usize, n: usize)
    requires { ReadyForOwn ahead.now b.old t.now u end n }
    ensures { Stage u n t.now b.new }
{
    let own = after_disk(ahead, b, t, u, end, n);
    put_square(b, n, u, u, own);
    let at_disk = column_at(t, CD_START, u) + own;
    for d in 0..u {
        let next = least_after(ahead, b, n, d, since(b, t, d, u), u, end);
        put_square(b, n, d, u, at_disk.min(next));
    }
}

// From the end down, what comes after each copy.
fn fill_afters(b: &mut [u64], t: &[u32], n: usize)
    requires { ReadyForAfters b.old t.now n }
    ensures { Stage 0 n t.now b.new }
{
    let mut ahead = [0u64; AHEAD_LENGTH];
    for u in (0..n + 1).rev() {
        let end = look_ahead(&mut ahead, b, t, u, n);
        fill_column(b, &ahead, t, u, end, n);
    }
}

// The bounds of the chain that the table t holds, of n tasks.
pub fn fill_bounds(b: &mut [u64], t: &[u32], n: usize)
    requires { ReadyForBounds b.old t.now n }
    ensures { BoundsOf n t.now b.new }
{
    fill_steps(b, t, n);
    fill_afters(b, t, n);
}
