// The layout of a sheet: checks 1 to 6 in their order, with 28 after 5.
#![tactic(auto)]

ghost use Rattle.std.specs.Prelude.{◌≡◌};
ghost use Rattle.refusals.specs.Refusals.{first};
ghost use Rattle.refusals.specs.Checks.{told};
ghost use Rattle.layout.specs.Layout.{section_conditions, layout_conditions};

use extents::{bad_extents, is_contiguous};
use header::check_header;
use kinds::bad_kinds;
use refusals::Refusal;

// The first of checks 5, 28 and 6 that holds.
fn check_sections(s: &[u8]) -> Result<(), Refusal>
    ensures { told result ≡ first (section_conditions s.now) }
{
    let misplaced = bad_extents(s);
    let stray = !is_contiguous(s);
    let odd = bad_kinds(s);
    if misplaced {
        return Err(Refusal::BadExtents);
    }
    if stray {
        return Err(Refusal::StrayByte);
    }
    if odd {
        return Err(Refusal::BadKinds);
    }
    Ok(())
}

// The first of checks 1 to 6 that holds.
pub fn check_layout(s: &[u8]) -> Result<(), Refusal>
    ensures { told result ≡ first (layout_conditions s.now) }
{
    check_header(s)?;
    check_sections(s)
}
