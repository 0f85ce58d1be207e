// The values that a job sheet gives, what document 01 asks of them (checks 3, 7 and 8), and which stretches are allowed.
#![tactic(auto)]

ghost use Rattle.std.specs.Prelude.{◌≡◌};
ghost use Rattle.job.specs.Job.{zero_job};

pub mod checks;
pub mod stretch;
pub mod totals;

use units::TASK_LIMIT;

// The platform section: the two rates, and the costs C_D, C_M, V, R_D and R_M.
#[repr(C)]
#[derive(Clone, Copy)]
pub struct Platform {
    pub failstop: u32,
    pub silent: u32,
    pub cd: u32,
    pub cm: u32,
    pub v: u32,
    pub rd: u32,
    pub rm: u32,
}

// The values of a sheet; weights past the last task are 0.
#[repr(C)]
#[derive(Clone, Copy)]
pub struct Job {
    pub tasks: usize,
    pub platform: Platform,
    pub weights: [u32; TASK_LIMIT],
}

impl Job {
    // The values with every field 0, which a refused start gives. No derived `Default`: it tells each field apart, and the contract has one value of them all.
    pub fn zero() -> Job
        ensures { result ≡ zero_job }
    {
        let platform = Platform {
            failstop: 0,
            silent: 0,
            cd: 0,
            cm: 0,
            v: 0,
            rd: 0,
            rm: 0,
        };
        Job {
            tasks: 0,
            platform,
            weights: [0u32; TASK_LIMIT],
        }
    }
}
