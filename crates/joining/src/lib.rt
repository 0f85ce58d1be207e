// Two sheets joined to one: the first sheet's weights, then the second's, with one platform section, written to a buffer that the caller lends.
// Nothing is said of the least time of the whole from those of the parts: a recovery at the seam has a cost.
#![tactic(auto)]

ghost use Rattle.std.specs.Prelude.{◌≡◌, length};
ghost use Rattle.refusals.specs.Refusals.{first};
ghost use Rattle.refusals.specs.Checks.{told};
ghost use Rattle.joining.specs.Join.{same_platform, both_conditions, joined_sheet, Writes, Joins};
ghost use Rattle.joining.specs.Working.Ready.{refused_join, Both};

use job::checks::TOTAL_LIMIT;
use job::totals::weight_to;
use job::{Job, Platform};
use refusals::{ACCEPTED, Refusal};
use sheet::read::read_job;
use units::TASK_LIMIT;
use writing::{fields_of, put_sheet, sheet_length};

// The answer of a join: 0 and how many bytes of the buffer are the sheet, or the number of its refusal and 0. No Result: C takes it.
#[repr(C)]
#[derive(Clone, Copy)]
pub struct Joined {
    pub number: u64,
    pub length: usize,
}

fn refused(number: u64) -> Joined
    ensures { result ≡ refused_join number }
{
    Joined { number, length: 0 }
}

// Whether the seven platform fields are the same.
fn is_same(p: Platform, q: Platform) -> bool
    ensures { result ≡ same_platform p q }
{
    let a = fields_of(p);
    let b = fields_of(q);
    a == b
}

// The first of 26, 3, 7 and 11 that holds of both together. The total is taken in 64 bits, which no weights can wrap.
fn check_both(a: Job, b: Job, room: usize) -> Result<(), Refusal>
    requires { Both a b }
    ensures { told result ≡ first (both_conditions a b room) }
{
    let same = is_same(a.platform, b.platform);
    let n = a.tasks + b.tasks;
    let early = a.weights;
    let late = b.weights;
    let total = weight_to(early, a.tasks) + weight_to(late, b.tasks);
    let size = sheet_length(n);
    if !same {
        return Err(Refusal::OtherPlatform);
    }
    if TASK_LIMIT < n {
        return Err(Refusal::BadCount);
    }
    if TOTAL_LIMIT < total {
        return Err(Refusal::BadValue);
    }
    if room < size {
        return Err(Refusal::ShortBuffer);
    }
    Ok(())
}

// The sheets of two jobs joined. Every refusal is known before a byte is written.
fn join_jobs(a: Job, b: Job, buffer: &mut [u8]) -> Joined
    requires { Both a b }
    ensures { Writes (first (both_conditions a b (length buffer.old))) (joined_sheet a b) buffer.old buffer.new result }
{
    if let Err(refusal) = check_both(a, b, buffer.len()) {
        return refused(refusal.number());
    }
    let early = a.weights;
    let late = b.weights;
    let n = a.tasks;
    let m = b.tasks;
    put_sheet(buffer, a.platform, &early[..n], &late[..m]);
    Joined {
        number: ACCEPTED,
        length: sheet_length(n + m),
    }
}

// The number of a reading, which is 0 if it is accepted.
fn number_of(reading: Result<Job, Refusal>) -> u64
    ensures { result ≡ told reading }
{
    match reading {
        Ok(_) => ACCEPTED,
        Err(refusal) => refusal.number(),
    }
}

// The joined sheet, or the first of checks 1 to 8 of the first sheet, 1 to 8 of the second, and 26, 3, 7 and 11 of both that holds.
pub fn join(first: &[u8], second: &[u8], buffer: &mut [u8]) -> Joined
    ensures { Joins first.now second.now buffer.old buffer.new result }
{
    let reading = read_job(first);
    let Ok(a) = reading else {
        return refused(number_of(reading));
    };
    let other = read_job(second);
    let Ok(b) = other else {
        return refused(number_of(other));
    };
    join_jobs(a, b, buffer)
}
