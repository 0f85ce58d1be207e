// The kinds of a sheet's sections: check 6, and which section is of a kind. Each runs over the sections in their order.
#![tactic(auto)]

ghost use Rattle.std.specs.Prelude.{◌≡◌, ◌<◌, ◌^◌};
ghost use Rattle.fields.specs.Bytes.{Ranged};
ghost use Rattle.kinds.specs.Kinds.{kind, has_kind, index_of, length_of, counted, one_of_each, wrong_length, bad_kinds};
ghost use Rattle.header.specs.Header.{sections};

use fields::{FIELD_LENGTH, byte};
use header::{offset_of, section_count, size_of, task_count};

// The kinds, and the length of a platform section. Numbers, and no enum: a lookup by C may ask for any number, and a sheet may hold any, so that each use would turn
// a case back into its number.
pub const PLATFORM_KIND: u64 = 1;

pub const WEIGHTS_KIND: u64 = 2;

pub const PLATFORM_LENGTH: usize = 29;

fn kind_of(s: &[u8], i: usize) -> u64
    requires { i < 2 ^ 8 }
    ensures { result ≡ kind s.now i }
{
    byte(s, offset_of(s, i))
}

// The first section of the kind k; the last one where none is.
pub fn index_of(s: &[u8], k: u64) -> usize
    ensures { Ranged (index_of s.now k) (2 ^ 8) result }
{
    let last = section_count(s) - 1;
    for i in 0..last {
        if kind_of(s, i) == k {
            return i;
        }
    }
    last
}

pub fn has_kind(s: &[u8], k: u64) -> bool
    ensures { result ≡ has_kind s.now k }
{
    kind_of(s, index_of(s, k)) == k
}

// How many sections are of the kind k.
fn count_of(s: &[u8], k: u64) -> usize
    ensures { result ≡ counted s.now k (sections s.now) }
{
    let mut n: usize = 0;
    for j in 0..section_count(s) {
        if kind_of(s, j) == k {
            n += 1;
        }
    }
    n
}

fn is_one_of_each(s: &[u8]) -> bool
    ensures { result ≡ one_of_each s.now }
{
    (0..section_count(s)).all(|j| count_of(s, (j + 1) as u64) == 1)
}

// How long a section of the kind k is in a sheet of n tasks; 0, as no section is, for any other number.
pub fn length_of(k: u64, n: usize) -> usize
    requires { n < 2 ^ 32 }
    ensures { result ≡ length_of k n }
{
    if k == PLATFORM_KIND {
        return PLATFORM_LENGTH;
    }
    if k == WEIGHTS_KIND {
        return 1 + FIELD_LENGTH * n;
    }
    0
}

fn wrong_length(s: &[u8], i: usize) -> bool
    requires { i < 2 ^ 8 }
    ensures { result ≡ wrong_length s.now i }
{
    size_of(s, i) != length_of(kind_of(s, i), task_count(s))
}

pub fn bad_kinds(s: &[u8]) -> bool
    ensures { result ≡ bad_kinds s.now }
{
    if !is_one_of_each(s) {
        return true;
    }
    (0..section_count(s)).any(|i| wrong_length(s, i))
}
