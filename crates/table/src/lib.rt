// The table that holds a chain: the costs of each position, and the factors of each pair of ends u < v. The crates that fill and search it call these, with a table
// that is long enough for the positions that they name. The pairs of a far end stand together, so that the table of a short chain is the front of a longer one's.
#![tactic(auto)]

ghost use Rattle.std.specs.Prelude.{◌≡◌, ◌+◌, ◌<◌, ◌≤◌, length, take, drop, set};
ghost use Rattle.units.specs.Limits.{positions};
ghost use Rattle.table.specs.Working.Table.{first_start, column, entry_of, put_pair, IsPair, InTable, PairFits, ReadyForPair, InColumn, ReadyForColumn, ReadyForRecoveries, RecoveriesIn, ReadyForFirsts, FirstIs, FirstsPut};

use chain::{Factors, Recoveries};
use units::POSITIONS;

const HALF: u64 = 1 << 32;

// A column for each cost, by position: C_M, C_D, R_D' and R_M'.
pub const CM_START: usize = 0;

pub const CD_START: usize = CM_START + POSITIONS;

pub const RD_START: usize = CD_START + POSITIONS;

pub const RM_START: usize = RD_START + POSITIONS;

// Then for each position the first one from which a stretch to it is allowed; that none before it is, is all that is asked of it.
const FIRST_START: usize = RM_START + POSITIONS;

// Then the pairs of positions u < v, each with its work in two halves, G(y_s) and G(y_s + y_f), of 32 bits.
const PAIRS_START: usize = FIRST_START + POSITIONS;

const PAIR_ENTRIES: usize = 4;

const PAIRS: usize = POSITIONS * (POSITIONS - 1) / 2;

// The table of the longest chain.
pub const TABLE_LENGTH: usize = PAIRS_START + PAIR_ENTRIES * PAIRS;

// Which pair (u, v) is: the pairs of a far end stand together.
fn pair_index(u: usize, v: usize) -> usize
    requires { IsPair u v }
    ensures { InTable u v result }
{
    v * (v - 1) / 2 + u
}

// The factors of the stretch from u to v.
pub fn entry(t: &[u32], u: usize, v: usize) -> Factors
    requires { PairFits t.now u v }
    ensures { result ≡ entry_of t.now u v }
{
    let at = PAIRS_START + PAIR_ENTRIES * pair_index(u, v);
    Factors {
        work: u64::from(t[at]) + HALF * u64::from(t[at + 1]),
        silent: u64::from(t[at + 2]),
        both: u64::from(t[at + 3]),
    }
}

// Puts the factors of the stretch from u to v in their place.
pub fn put_pair(t: &mut [u32], u: usize, v: usize, f: Factors)
    requires { ReadyForPair t.old u v f }
    ensures { t.new ≡ put_pair t.old u v f }
{
    let at = PAIRS_START + PAIR_ENTRIES * pair_index(u, v);
    t[at] = (f.work % HALF) as u32;
    t[at + 1] = (f.work / HALF) as u32;
    t[at + 2] = f.silent as u32;
    t[at + 3] = f.both as u32;
}

// The entry of a column at v; the column is told by where it starts.
pub fn column_at(t: &[u32], start: usize, v: usize) -> u64
    requires { InColumn t.now start v }
    ensures { result ≡ column start t.now v }
{
    u64::from(t[start + v])
}

// Puts x into a column at v.
pub fn put_in_column(t: &mut [u32], start: usize, v: usize, x: u64)
    requires { ReadyForColumn t.old start v x }
    ensures { t.new ≡ set t.old (start + v) x }
{
    t[start + v] = x as u32;
}

// A whole column.
pub fn column_of(t: &[u32], start: usize) -> &[u32]
    requires { start + positions ≤ length t.now }
    ensures { result.now ≡ take positions (drop start t.now) }
{
    let end = start + POSITIONS;
    &t[start..end]
}

// R_D' + M' and R_M' where d and m are the last copies, and mt is M'.
pub fn recoveries(t: &[u32], d: usize, m: usize, mt: u64) -> Recoveries
    requires { ReadyForRecoveries t.now d m mt }
    ensures { RecoveriesIn t.now d m mt result }
{
    Recoveries {
        disk: column_at(t, RD_START, d) + mt,
        memory: column_at(t, RM_START, m),
    }
}

// The first position from which a stretch to v is allowed, and v where there is none.
fn first_allowed(t: &[u32], v: usize) -> usize
    requires { ReadyForFirsts t.now v }
    ensures { FirstIs t.now v result }
{
    for u in 0..v {
        let f = entry(t, u, v);
        if f.both != 0 {
            return u;
        }
    }
    v
}

// Puts these in their column. The crate that fills the table calls this last.
pub fn put_firsts(t: &mut [u32], n: usize)
    requires { ReadyForFirsts t.old n }
    ensures { FirstsPut t.old (n + 1) t.new }
{
    for v in 0..n + 1 {
        let first = first_allowed(t, v);
        put_in_column(t, FIRST_START, v, first as u64);
    }
}

// The first position from which a stretch to v may be allowed.
pub fn first_of(t: &[u32], v: usize) -> usize
    requires { InColumn t.now first_start v }
    ensures { result ≡ column first_start t.now v }
{
    column_at(t, FIRST_START, v) as usize
}
