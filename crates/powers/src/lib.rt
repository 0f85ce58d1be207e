// The powers that a plan by energy takes (request 106), and 29: a power out of its range, or a product that passes the limit of costs.
#![tactic(auto)]

ghost use Rattle.std.specs.Prelude.{◌≡◌, ◌≤◌};
ghost use Rattle.units.specs.Limits.{task_limit};
ghost use Rattle.powers.specs.Powers.{most_power, out_of_range, passes, bad_computing, saving_passes, bad_saving, bad_powers};
ghost use Rattle.powers.specs.Working.Ready.{ReadyForProduct};

use costs::Powers;
use job::Job;
use job::totals::weight_to;

const LEAST_POWER: u64 = 1;

const MOST_POWER: u64 = 16;

// The most that a product of a power may be: what a cost or the total weight may be by itself.
const PRODUCT_LIMIT: u64 = 1 << 30;

const SAVING_COSTS: usize = 4;

fn out_of_range(power: u64) -> bool
    ensures { result ≡ out_of_range power }
{
    !(LEAST_POWER..=MOST_POWER).contains(&power)
}

// The product passes 2^30. The power is in range, so that no product wraps.
fn passes(power: u64, amount: u64) -> bool
    requires { ReadyForProduct power amount }
    ensures { result ≡ passes power amount }
{
    PRODUCT_LIMIT < power * amount
}

// The first power, with the total weight and V.
fn bad_computing(power: u64, job: Job) -> bool
    requires { job.tasks ≤ task_limit }
    ensures { result ≡ bad_computing power job }
{
    out_of_range(power)
        || passes(power, weight_to(job.weights, job.tasks))
        || passes(power, u64::from(job.platform.v))
}

// A product of one of the costs of saving and recovering passes 2^30. The power is in range.
fn saving_passes(power: u64, costs: [u32; SAVING_COSTS]) -> bool
    requires { power ≤ most_power }
    ensures { result ≡ saving_passes power costs }
{
    costs.iter().any(|cost| passes(power, u64::from(*cost)))
}

// The second power, with C_D, C_M, R_D and R_M.
fn bad_saving(power: u64, job: Job) -> bool
    ensures { result ≡ bad_saving power job }
{
    let p = job.platform;
    out_of_range(power) || saving_passes(power, [p.cd, p.cm, p.rd, p.rm])
}

// 29: a power or a product outside its range.
pub fn bad_powers(powers: Powers, job: Job) -> bool
    requires { job.tasks ≤ task_limit }
    ensures { result ≡ bad_powers powers job }
{
    bad_computing(powers.computing, job) || bad_saving(powers.saving, job)
}
