// The table of bounds on what is still to come. A column each, by position, has `time`, `risk` and `base`; then in a square of positions, `after` stands on and above the
// diagonal and `part` below it. For n tasks the square has n + 1 rows of n + 1 entries. What they bound, and why copies may be left out by them, stands in the theory of
// chains. The crates of the search call these, with a table that is long enough, positions within it and bounds that are capped, so that no product wraps.
#![tactic(auto)]

ghost use Rattle.std.specs.Prelude.{◌≡◌, get_or};
ghost use Rattle.bounds.specs.Working.Bounds.{square_at, bounds_in, PlacesFit, ColumnsFit, SlopeIs, ReadyForBeyond, BeyondIs, ReadyForLow, LowIs, ReadyForDiskIn, DiskIs, ReadyForSince, SinceIs};

use table::{CM_START, RD_START, column_at};
use units::{POSITIONS, UNIT, rounded_up};

pub const TIME_START: usize = 0;

pub const RISK_START: usize = TIME_START + POSITIONS;

pub const BASE_START: usize = RISK_START + POSITIONS;

pub const SQUARE_START: usize = BASE_START + POSITIONS;

// The bounds of the longest chain.
pub const BOUNDS_LENGTH: usize = SQUARE_START + POSITIONS * POSITIONS;

// The most that a difference of risks counts, so that no product wraps.
const SLOPE_CAP: u64 = 1 << 28;

// An entry of the square.
fn square_at(b: &[u64], n: usize, row: usize, at: usize) -> u64
    requires { PlacesFit n b.now row at }
    ensures { result ≡ get_or b.now (square_at n row at) 0 }
{
    b[SQUARE_START + (n + 1) * row + at]
}

// What is still to come after a memory copy u, with the last disk copy d. Not one function with `part`: callers would then have to know which of their positions is the row.
pub fn after(b: &[u64], n: usize, d: usize, u: usize) -> u64
    requires { PlacesFit n b.now d u }
    ensures { result ≡ (bounds_in n b.now).after d u }
{
    square_at(b, n, d, u)
}

// From the memory copy u to a verification at v, with no more recovery from disk than the base of u.
pub fn part(b: &[u64], n: usize, u: usize, v: usize) -> u64
    requires { PlacesFit n b.now u v }
    ensures { result ≡ (bounds_in n b.now).part u v }
{
    square_at(b, n, v, u)
}

// What a tick of recovery from disk adds at least between u and v, in units.
pub fn slope(b: &[u64], u: usize, v: usize) -> u64
    requires { ColumnsFit b.now u v }
    ensures { SlopeIs b.now u v result }
{
    SLOPE_CAP.min(b[RISK_START + v].saturating_sub(b[RISK_START + u]))
}

// From the memory copy u to that at v, where R_D' + M' is x beyond the base of u.
pub fn part_low(b: &[u64], n: usize, t: &[u32], u: usize, x: u64, v: usize) -> u64
    requires { ReadyForLow n b.now t.now u x v }
    ensures { LowIs n b.now t.now u x v result }
{
    part(b, n, u, v) + rounded_up(slope(b, u, v) * x) + column_at(t, CM_START, v)
}

// Where R_D' + M' at u is x, what of it lies beyond the base of u.
pub fn beyond(b: &[u64], u: usize, x: u64) -> u64
    requires { ReadyForBeyond b.now u }
    ensures { BeyondIs b.now u x result }
{
    x.saturating_sub(UNIT * b[BASE_START + u])
}

// The least R_D' + M' at u with the last disk copy d, by the times of both.
pub fn least_disk(b: &[u64], t: &[u32], d: usize, u: usize) -> u64
    requires { ReadyForDiskIn b.now t.now d u }
    ensures { DiskIs b.now t.now d u result }
{
    column_at(t, RD_START, d) + b[TIME_START + u].saturating_sub(b[TIME_START + d])
}

// What of the least R_D' + M' at u, with the last disk copy d, lies beyond the base of u.
pub fn since(b: &[u64], t: &[u32], d: usize, u: usize) -> u64
    requires { ReadyForSince b.now t.now d u }
    ensures { SinceIs b.now t.now d u result }
{
    beyond(b, u, least_disk(b, t, d, u))
}
