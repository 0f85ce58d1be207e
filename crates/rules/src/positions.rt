// Weights, marks and copies up to a position.
ghost use Rattle.std.specs.Prelude.{◌≡◌, ◌+◌, ◌≤◌};
ghost use Rattle.chain.specs.Time.{last};
ghost use Rattle.units.specs.Limits.{task_limit};
ghost use Rattle.marks.specs.Marks.{marks_of};
ghost use Rattle.rules.specs.Rules.{marks_in};
ghost use Rattle.rules.specs.Working.Sound.{WeightIs};

use state::Run;

// The weight of task j + 1; past the end of the weights it is 0.
pub fn weight_at(weights: &[u32], j: usize) -> u64
    ensures { WeightIs weights.now j result }
{
    match weights.get(j) {
        Some(&w) => u64::from(w),
        None => 0,
    }
}

// The start has no mark.
const AT_START: u8 = 0;

// The mark of position p; past the end of the marks it is 0.
pub fn mark_at(marks: &[u8], p: usize) -> u8
    ensures { result ≡ marks_of marks.now p }
{
    if p == 0 {
        return AT_START;
    }
    match marks.get(p - 1) {
        Some(&mark) => mark,
        None => 0,
    }
}

// The last position before v with a mark of `least` or more, 0 if there is none.
pub fn last_copy(run: Run, least: u8, v: usize) -> usize
    requires { v ≤ task_limit + 1 }
    ensures { result ≡ last least (marks_in run) v }
{
    let mut found: usize = 0;
    for p in 1..v {
        if least <= run.marks[p - 1] {
            found = p;
        }
    }
    found
}
