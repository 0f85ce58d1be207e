// What a job charges: its costs at each position, and what a passed mark pays.
// Each function of a position asks for a position, 0 to the most tasks, so that costs kept by task would be places of an array.
#![tactic(auto)]

ghost use Rattle.std.specs.Prelude.{cond, eqb, ◌≤◌};
ghost use Rattle.units.specs.Limits.{task_limit};
ghost use Rattle.costs.specs.Costs.{v_at, cm_at, cd_at, rd_at, rm_at, verify_paid, saves_paid};
ghost use Rattle.charges.specs.Working.Charges.{CostIs, ChargeIs, PaidIs};

use job::Platform;
use marks::payments;

// V at v.
pub fn v_of(platform: Platform, v: usize) -> u64
    requires { v ≤ task_limit }
    ensures { ChargeIs 1 platform (λ job. v_at job v) result }
{
    platform.v as u64
}

// C_M at v.
pub fn cm_of(platform: Platform, v: usize) -> u64
    requires { v ≤ task_limit }
    ensures { ChargeIs 1 platform (λ job. cm_at job v) result }
{
    platform.cm as u64
}

// C_D at v.
pub fn cd_of(platform: Platform, v: usize) -> u64
    requires { v ≤ task_limit }
    ensures { ChargeIs 1 platform (λ job. cd_at job v) result }
{
    platform.cd as u64
}

// The cost of going back to a position, or 0 if it is the start.
fn unless_start(cost: u32, position: usize) -> u64
    ensures { CostIs 1 (cond (eqb position 0) 0 cost) result }
{
    if position == 0 {
        return 0;
    }
    cost as u64
}

// R_D' where d is the last disk copy: its image is read, and copied back into memory.
pub fn rd_of(platform: Platform, d: usize) -> u64
    requires { d ≤ task_limit }
    ensures { ChargeIs 2 platform (λ job. rd_at job d) result }
{
    unless_start(platform.rd, d) + unless_start(platform.rm, d)
}

// R_M' where m is the last memory copy.
pub fn rm_of(platform: Platform, m: usize) -> u64
    requires { m ≤ task_limit }
    ensures { ChargeIs 1 platform (λ job. rm_at job m) result }
{
    unless_start(platform.rm, m)
}

// The cost, where it is paid.
fn paid(pays: bool, cost: u64) -> u64
    ensures { PaidIs pays cost result }
{
    if pays {
        return cost;
    }
    0
}

// What a mark passed at v pays for its verification.
pub fn verify_paid(platform: Platform, mark: u8, v: usize) -> u64
    requires { v ≤ task_limit }
    ensures { ChargeIs 1 platform (λ job. verify_paid job mark v) result }
{
    let pays = payments(mark);
    paid(pays.v, v_of(platform, v))
}

// What a mark passed at v pays for its copies.
pub fn saves_paid(platform: Platform, mark: u8, v: usize) -> u64
    requires { v ≤ task_limit }
    ensures { ChargeIs 2 platform (λ job. saves_paid job mark v) result }
{
    let pays = payments(mark);
    paid(pays.cm, cm_of(platform, v)) + paid(pays.cd, cd_of(platform, v))
}
