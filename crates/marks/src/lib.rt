// The marks of a setting: what each pays when passed, and checks 9 and 10 of lists that a user supplies.
#![tactic(auto)]

ghost use Rattle.std.specs.Prelude.{◌≡◌, false, ◌<◌};
ghost use Rattle.refusals.specs.Refusals.{first};
ghost use Rattle.refusals.specs.Checks.{told};
ghost use Rattle.job.specs.Working.Sound.{Sound};
ghost use Rattle.marks.specs.Pays.{pays_of};
ghost use Rattle.marks.specs.Marks.{bad_marks, bad_stretches, marks_conditions};
ghost use Rattle.marks.specs.Working.Ready.{ReadyForStretches};

use chain::DISK;
use job::Job;
use job::stretch::is_allowed;
use refusals::Refusal;

// Which of V, C_M and C_D a passed mark pays.
#[derive(Clone, Copy)]
pub struct Pays {
    pub v: bool,
    pub cm: bool,
    pub cd: bool,
}

const TABLE: [Pays; 4] = [
    Pays {
        v: false,
        cm: false,
        cd: false,
    },
    Pays {
        v: true,
        cm: false,
        cd: false,
    },
    Pays {
        v: true,
        cm: true,
        cd: false,
    },
    Pays {
        v: true,
        cm: true,
        cd: true,
    },
];

// What the mark pays; a byte that is no mark pays nothing.
pub fn payments(mark: u8) -> Pays
    ensures { result ≡ pays_of mark }
{
    if DISK < mark {
        return TABLE[0];
    }
    TABLE[mark as usize]
}

// Check 9: not n marks, a mark above 3, or the last not 3.
fn bad_marks(n: usize, marks: &[u8]) -> bool
    requires { 0 < n }
    ensures { result ≡ bad_marks n marks.now }
{
    if marks.len() != n {
        return true;
    }
    for j in 0..n {
        if DISK < marks[j] {
            return true;
        }
    }
    marks[n - 1] != DISK
}

// Check 10: a stretch from one marked position, or the start, to the next is not allowed. Where one is not, the heaviest is not.
fn bad_stretches(job: Job, marks: &[u8]) -> bool
    requires { ReadyForStretches job marks.now }
    ensures { result ≡ bad_stretches job marks.now }
{
    let n = job.tasks;
    let weights = job.weights;
    let mut heaviest: u64 = 0;
    let mut weight: u64 = 0;
    for j in 0..n {
        weight += weights[j] as u64;
        if marks[j] != 0 {
            if heaviest < weight {
                heaviest = weight;
            }
            weight = 0;
        }
    }
    !is_allowed(job.platform, heaviest)
}

// The first of checks 9 and 10 that holds. The job has passed checks 3, 7 and 8.
pub fn check_marks(job: Job, marks: &[u8]) -> Result<(), Refusal>
    requires { Sound job }
    ensures { told result ≡ first (marks_conditions job marks.now) }
{
    if bad_marks(job.tasks, marks) {
        return Err(Refusal::BadMarks);
    }
    if bad_stretches(job, marks) {
        return Err(Refusal::BadStretch);
    }
    Ok(())
}
