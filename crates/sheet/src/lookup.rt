// Lookup by kind: the stretch of the caller's own sheet that is the section of that kind.
ghost use Rattle.std.specs.Prelude.{◌≡◌};
ghost use Rattle.refusals.specs.Checks.{told};
ghost use Rattle.sheet.specs.Lookup.{lookup_refusal, found_of, View};

use crate::Found;
use header::{offset_of, size_of};
use kinds::{has_kind, index_of};
use layout::check_layout;
use refusals::{ACCEPTED, Refusal};

// The first of checks 1 to 6 that holds, 6 for a kind that the sheet lacks.
fn check_lookup(s: &[u8], k: u64) -> Result<(), Refusal>
    ensures { told result ≡ lookup_refusal s.now k }
{
    check_layout(s)?;
    if !has_kind(s, k) {
        return Err(Refusal::BadKinds);
    }
    Ok(())
}

// The number of a lookup, and where its stretch lies.
pub fn find(s: &[u8], k: u64) -> Found
    ensures { result ≡ found_of s.now k }
{
    if let Err(refusal) = check_lookup(s, k) {
        return Found {
            number: refusal.number(),
            start: 0,
            size: 0,
        };
    }
    let i = index_of(s, k);
    Found {
        number: ACCEPTED,
        start: offset_of(s, i),
        size: size_of(s, i),
    }
}

// The stretch of the caller's own sheet with the kind k, kind byte included; a refused lookup hands back the empty stretch at byte 0.
pub fn lookup(s: &[u8], k: u64) -> &[u8]
    ensures { View s.entry k result }
{
    let found = find(s, k);
    let start = found.start;
    let end = start + found.size;
    &s[start..end]
}
