// Where the sections of a sheet lie: check 5, and request 105's 28. Each runs over the sections in their order.
#![tactic(auto)]

ghost use Rattle.std.specs.Prelude.{◌≡◌, ◌<◌, ◌^◌};
ghost use Rattle.extents.specs.Extents.{end_before, bad_extent, bad_extents, contiguous};

use header::{least_offset, offset_of, section_count, size_of};

// Where the header ends, or from the second section on where the one before section i ends. The sum is taken in 64 bits: an offset and a length of 32 bits
// cannot wrap it.
fn end_before(s: &[u8], i: usize) -> usize
    requires { i < 2 ^ 8 }
    ensures { result ≡ end_before s.now i }
{
    if i == 0 {
        return least_offset(s);
    }
    offset_of(s, i - 1) + size_of(s, i - 1)
}

fn bad_extent(s: &[u8], i: usize) -> bool
    requires { i < 2 ^ 8 }
    ensures { result ≡ bad_extent s.now i }
{
    let offset = offset_of(s, i);
    let size = size_of(s, i);
    let least = least_offset(s);
    let before = end_before(s, i);
    if size == 0 {
        return true;
    }
    if offset < least {
        return true;
    }
    if offset < before {
        return true;
    }
    s.len() < offset + size
}

pub fn bad_extents(s: &[u8]) -> bool
    ensures { result ≡ bad_extents s.now }
{
    (0..section_count(s)).any(|i| bad_extent(s, i))
}

// Whether the sections follow one another directly from the header on and the last ends with the sheet. Past check 5 it is so just where no byte is stray.
pub fn is_contiguous(s: &[u8]) -> bool
    ensures { result ≡ contiguous s.now }
{
    let m = section_count(s);
    let follow = (0..m).all(|k| offset_of(s, k) == end_before(s, k));
    follow && s.len() == end_before(s, m)
}
