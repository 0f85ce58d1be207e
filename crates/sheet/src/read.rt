// Reading a sheet: its values, or the first of checks 1 to 8 that holds.
ghost use Rattle.std.specs.Prelude.{◌≡◌, ◌<◌, ◌≤◌, ◌^◌};
ghost use Rattle.refusals.specs.Refusals.{first};
ghost use Rattle.units.specs.Limits.{task_limit};
ghost use Rattle.layout.specs.Layout.{layout_conditions};
ghost use Rattle.sheet.specs.Reading.{section_field, platform_of, weights_of, job_of, Reads};

use crate::lookup::lookup;
use fields::{FIELD_LENGTH, field};
use header::task_count;
use job::checks::check_job;
use job::{Job, Platform};
use kinds::{PLATFORM_KIND, WEIGHTS_KIND};
use layout::check_layout;
use refusals::Refusal;
use units::TASK_LIMIT;

// Field i of a section, from 0: they follow its kind byte.
fn section_field(part: &[u8], i: usize) -> u32
    requires { i < 2 ^ 32 }
    ensures { result ≡ section_field part.now i }
{
    field(part, 1 + FIELD_LENGTH * i)
}

fn platform_of(part: &[u8]) -> Platform
    ensures { result ≡ platform_of part.now }
{
    Platform {
        failstop: section_field(part, 0),
        silent: section_field(part, 1),
        cd: section_field(part, 2),
        cm: section_field(part, 3),
        v: section_field(part, 4),
        rd: section_field(part, 5),
        rm: section_field(part, 6),
    }
}

// The weights of a weights section of n tasks, and 0 past task n. Reading and joining call this for a task count that has passed check 3, so that each weight
// has its place in the array.
pub fn weights_of(part: &[u8], n: usize) -> [u32; TASK_LIMIT]
    requires { n ≤ task_limit }
    ensures { result ≡ weights_of part.now n }
{
    let mut weights = [0u32; TASK_LIMIT];
    for j in 0..n {
        weights[j] = section_field(part, j);
    }
    weights
}

// The values of a sheet. Its layout has been found right, so that its sections are there.
fn job_of(s: &[u8]) -> Job
    requires { first (layout_conditions s.now) ≡ 0 }
    ensures { result ≡ job_of s.now }
{
    let n = task_count(s);
    let platform = platform_of(lookup(s, PLATFORM_KIND));
    let weights = weights_of(lookup(s, WEIGHTS_KIND), n);
    Job {
        tasks: n,
        platform,
        weights,
    }
}

// The values of a sheet, or the first of checks 1 to 8 that holds.
pub fn read_job(s: &[u8]) -> Result<Job, Refusal>
    ensures { Reads s.now result }
{
    check_layout(s)?;
    let job = job_of(s);
    check_job(job)?;
    Ok(job)
}
