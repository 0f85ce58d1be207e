// The time of a setting of marks over any chain of costs, and the theory of least settings. The code is S alone, from the factors of a stretch.
#![tactic(auto)]

ghost use Rattle.chain.specs.Working.Factors.{ReadyForStretch, StretchTime};

// What a mark has at least: any mark is 1 or more, a memory copy 2 or more, a disk copy 3, the highest.
// Numbers, and no enum: a mark is a byte of a buffer that C lends and of a run's state, and what it has is told by its height.
pub const VERIFICATION: u8 = 1;

pub const MEMORY: u8 = 2;

pub const DISK: u8 = 3;

// What a stretch puts into S, worked out once: its first part, G(y_s) and G(y_s + y_f), which is 0 where the stretch is not allowed.
#[derive(Clone, Copy)]
pub struct Factors {
    pub work: u64,
    pub silent: u64,
    pub both: u64,
}

// What the last copies put into S: R_D' + M', and R_M'.
#[derive(Clone, Copy)]
pub struct Recoveries {
    pub disk: u64,
    pub memory: u64,
}

// S over an allowed stretch, where q is Q'. No time above 2^34 comes here, so that no product wraps.
pub fn stretch_time(f: Factors, r: Recoveries, q: u64) -> u64
    requires { ReadyForStretch f r q }
    ensures { StretchTime f r q result }
{
    f.work
        + units::rounded_up((f.both - f.silent) * r.disk)
        + units::rounded_up((f.both - units::UNIT) * q)
        + units::rounded_up((f.silent - units::UNIT) * r.memory)
}
