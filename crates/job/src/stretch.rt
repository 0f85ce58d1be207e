// The exponents of a stretch, and whether it is allowed.
ghost use Rattle.std.specs.Prelude.{◌≡◌, ◌≤◌};
ghost use Rattle.units.specs.Limits.{cost_limit};
ghost use Rattle.job.specs.Job.{is_allowed};
ghost use Rattle.job.specs.Working.Sound.{ExponentIs};

use crate::Platform;
use units::EXPONENT_LIMIT;

// y_f or y_s of a stretch. Its weight has passed check 7, so that the product fits.
pub fn exponent_of(rate: u32, weight: u64) -> u64
    requires { weight ≤ cost_limit }
    ensures { ExponentIs rate weight result }
{
    units::rounded_up((rate as u64) * weight)
}

// The stretch is within the exponent limit. Its weight has passed check 7.
pub fn is_allowed(p: Platform, weight: u64) -> bool
    requires { weight ≤ cost_limit }
    ensures { result ≡ is_allowed p weight }
{
    exponent_of(p.silent, weight) + exponent_of(p.failstop, weight) <= EXPONENT_LIMIT
}
