// Totals of weights.
ghost use Rattle.std.specs.Prelude.{◌≤◌};
ghost use Rattle.units.specs.Limits.{task_limit};
ghost use Rattle.job.specs.Working.Sound.{WeightTo};

use units::TASK_LIMIT;

// The weight of the first n tasks, of weights in any range. Runs, joins, plans by energy and the equations as printed ask for a position of a task count that
// has passed check 3, which is a place of the array.
pub fn weight_to(weights: [u32; TASK_LIMIT], n: usize) -> u64
    requires { n ≤ task_limit }
    ensures { WeightTo weights n result }
{
    let mut sum: u64 = 0;
    for j in 0..n {
        sum += u64::from(weights[j]);
    }
    sum
}
