// Starting a run of document 01: the fresh run, or the first refusal among 1 to 10.
#![tactic(auto)]

ghost use Rattle.std.specs.Prelude.{◌≡◌};
ghost use Rattle.starting.specs.Start.{refused_start, start_of, started};

use marks::check_marks;
use refusals::{ACCEPTED, Refusal};
use sheet::read::read_job;
use state::Run;

// The answer to a start: 0 and the fresh run, or the refusal and the state whose every field is 0. No Result: C takes it.
#[repr(C)]
#[derive(Clone, Copy)]
pub struct Started {
    pub number: u64,
    pub run: Run,
}

// The state of a refused start.
fn refused_start(number: u64) -> Started
    ensures { result ≡ refused_start number }
{
    Started {
        number,
        run: Run::zero(),
    }
}

// The fresh run, or the first refusal among 1 to 10.
fn fresh_run(sheet: &[u8], marks: &[u8]) -> Result<Run, Refusal>
    ensures { started result ≡ start_of sheet.now marks.now }
{
    let job = read_job(sheet)?;
    check_marks(job, marks)?;
    Ok(Run::fresh(job, marks))
}

// The fresh run, or the first refusal among 1 to 10 and a state with every field 0.
pub fn start(sheet: &[u8], marks: &[u8]) -> Started
    ensures { result ≡ start_of sheet.now marks.now }
{
    match fresh_run(sheet, marks) {
        Ok(run) => Started {
            number: ACCEPTED,
            run,
        },
        Err(refusal) => refused_start(refusal.number()),
    }
}
