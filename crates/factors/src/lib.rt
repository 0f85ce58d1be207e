// The factors of a stretch of a job, worked out once for all its last copies and times: growth sums, and its work in time or in energy.
#![tactic(auto)]

ghost use Rattle.std.specs.Prelude.{◌≡◌};
ghost use Rattle.costs.specs.Working.Factors.{factors_of, energy_factors_of, ReadyForFactors, ReadyForEnergy, FactorsIfAllowed};

use chain::Factors;
use costs::Powers;
use job::Platform;
use job::stretch::exponent_of;
use units::EXPONENT_LIMIT;

// The growth sums of a stretch of this weight, whose far end costs `v` to verify, and its work in energy. The exponents have the plain weight. The weight, by
// itself and times the power, and the cost times the power are within the limit of costs (checks 7 and 29), and with the caps of G and H each product is below 2^64.
fn energy_factors(powers: Powers, p: Platform, weight: u64, v: u64) -> Factors
    requires { ReadyForEnergy powers weight v }
    ensures { result ≡ energy_factors_of powers p weight v }
{
    let silent = exponent_of(p.silent, weight);
    let failstop = exponent_of(p.failstop, weight);
    let growth = growth::g(silent);
    let work = units::rounded_up(weight * growth::h(failstop));
    let effort = powers.computing * work + powers.computing * v;
    Factors {
        work: units::rounded_up(growth * effort),
        silent: growth,
        both: growth::g(silent + failstop),
    }
}

// The same in time. Weight and cost have passed check 7.
pub fn stretch_factors(p: Platform, weight: u64, v: u64) -> Factors
    requires { ReadyForFactors weight v }
    ensures { result ≡ factors_of p weight v }
{
    energy_factors(Powers::plain(), p, weight, v)
}

// The factors in energy of a stretch that is allowed. Of any other only `both` is read, which is 0: no growth sum is worked out. The filling calls this, for a job and
// powers that have passed checks 7 and 29.
pub fn factors_if_allowed(powers: Powers, p: Platform, weight: u64, v: u64) -> Factors
    requires { ReadyForEnergy powers weight v }
    ensures { FactorsIfAllowed (energy_factors_of powers p weight v) result }
{
    if EXPONENT_LIMIT < exponent_of(p.silent, weight) + exponent_of(p.failstop, weight) {
        return Factors {
            work: 0,
            silent: 0,
            both: 0,
        };
    }
    energy_factors(powers, p, weight, v)
}
