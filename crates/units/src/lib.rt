// Numbers in units of 2^-24, rounding up to whole ticks, and the limits of document 01: the longest time, the most tasks.
#![tactic(auto)]

ghost use Rattle.std.specs.Prelude.{◌≡◌, ◌+◌, ◌≤◌, ◌^◌};
ghost use Rattle.units.specs.Unit.{unit, up};

pub const UNIT: u64 = 16_777_216;

// The exponent limit, in units.
pub const EXPONENT_LIMIT: u64 = 67_108_864;

// 2^34, one more than the longest time that is not too slow: such a time, and any above it, is none.
pub const NONE: u64 = 1 << 34;

// The most tasks. A position is a number from 0, the start, to this.
pub const TASK_LIMIT: usize = 64;

pub const POSITIONS: usize = TASK_LIMIT + 1;

// up(p) of document 01, for every p that leaves room for the rounding; the caps of the crates above keep every product so.
// Not `div_ceil`, which compiles to five instructions where this takes two: the search asks it three times for each pair of positions.
pub fn rounded_up(p: u64) -> u64
    requires { p + unit ≤ 2 ^ 64 }
    ensures { result ≡ up p }
{
    (p + (UNIT - 1)) / UNIT
}
