// The header of a job sheet: its form, its task count, where its sections lie, and checks 1 to 4. What a form decides is asked of the sheet: the limit of the
// task count, how many sections there are, and where the header ends.
#![tactic(auto)]

ghost use Rattle.std.specs.Prelude.{◌≡◌, ◌<◌, ◌^◌};
ghost use Rattle.refusals.specs.Refusals.{first};
ghost use Rattle.refusals.specs.Checks.{told};
ghost use Rattle.fields.specs.Bytes.{Ranged};
ghost use Rattle.header.specs.Header.{tasks, tasks_most, sections, least_offset, offset, size, bad_length, bad_form, bad_tasks, bad_sections, header_conditions};

use fields::{FIELD_LENGTH, byte, field};
use refusals::Refusal;
use units::TASK_LIMIT;

const SHORTEST_SHEET: usize = 20;

pub const LONGEST_SHEET: usize = 4096;

// One byte more than the longest sheet: who takes that many sees that a longer one is too long.
pub const SHEET_ROOM: usize = LONGEST_SHEET + 1;

pub const FORM: u64 = 1;

const SECTIONS: usize = 2;

// Pairs of offset and length, each of two fields.
pub const PAIRS_START: usize = 4;

pub const PAIR_LENGTH: usize = 8;

pub fn task_count(s: &[u8]) -> usize
    ensures { Ranged (tasks s.now) (2 ^ 8) result }
{
    byte(s, 1) as usize
}

// The most tasks that a sheet of its form has.
fn most_tasks(s: &[u8]) -> usize
    ensures { result ≡ tasks_most s.now }
{
    TASK_LIMIT
}

// How many sections a sheet of its form has.
pub fn section_count(s: &[u8]) -> usize
    ensures { Ranged (sections s.now) (2 ^ 8) result }
{
    SECTIONS
}

// Where the header ends.
pub fn least_offset(s: &[u8]) -> usize
    ensures { Ranged (least_offset s.now) (2 ^ 32) result }
{
    PAIRS_START + PAIR_LENGTH * section_count(s)
}

pub fn offset_of(s: &[u8], i: usize) -> usize
    requires { i < 2 ^ 8 }
    ensures { Ranged (offset s.now i) (2 ^ 32) result }
{
    field(s, PAIRS_START + PAIR_LENGTH * i) as usize
}

pub fn size_of(s: &[u8], i: usize) -> usize
    requires { i < 2 ^ 8 }
    ensures { Ranged (size s.now i) (2 ^ 32) result }
{
    field(s, PAIRS_START + FIELD_LENGTH + PAIR_LENGTH * i) as usize
}

fn bad_length(s: &[u8]) -> bool
    ensures { result ≡ bad_length s.now }
{
    s.len() < SHORTEST_SHEET || LONGEST_SHEET < s.len()
}

fn bad_form(s: &[u8]) -> bool
    ensures { result ≡ bad_form s.now }
{
    let form = byte(s, 0);
    let zero = byte(s, 3);
    form != FORM || zero != 0
}

fn bad_tasks(s: &[u8]) -> bool
    ensures { result ≡ bad_tasks s.now }
{
    let n = task_count(s);
    let most = most_tasks(s);
    n == 0 || most < n
}

fn bad_sections(s: &[u8]) -> bool
    ensures { result ≡ bad_sections s.now }
{
    let count = byte(s, 2) as usize;
    count != section_count(s)
}

// The first of checks 1 to 4 that holds.
pub fn check_header(s: &[u8]) -> Result<(), Refusal>
    ensures { told result ≡ first (header_conditions s.now) }
{
    if bad_length(s) {
        return Err(Refusal::BadLength);
    }
    if bad_form(s) {
        return Err(Refusal::BadForm);
    }
    if bad_tasks(s) {
        return Err(Refusal::BadCount);
    }
    if bad_sections(s) {
        return Err(Refusal::BadSections);
    }
    Ok(())
}
