// The search for a plan: least times and the marks that give them, over the chain that a lent table holds. It knows nothing of sheets or jobs.
//
//     0 ───────── d ─────── m ───── u ───── v ──── n
//                disk     memory   any    this one
//
// Least times are found forward at three levels. From a disk copy d and a memory copy m, the verification row has the least Q(v) over the mark u before v;
// from a disk copy d, the memory row has the least M(v) over the memory copy m before v; the disk row has the least D(v) over the disk copy d before v.
// The marks are found by walking back from n over the earliest positions that give these times.
//
// Copies that cannot matter are left out. Bounds on what is still to come are worked out once, in n^3 steps, the last of them backward; a first limit is the time of the setting that
// they take for the best; and a row of copies is filled only where the bounds leave room below that limit. Verification rows are exact; rows of copies are never too
// low, and exact wherever the plan goes. What is not found within the first limit is looked for again up to the longest time, so nothing rests on the limit.
//
//     table ── verifications ── bounds ── bounding ── copies ── finding ── walk
//     chain    rows of Q        what is   bounds      rows of    plan's     marks
//                               to come   filled      M and D    time
#![tactic(auto)]

ghost use Rattle.table.specs.Working.Table.{chain_in};
ghost use Rattle.refusals.specs.Checks.{answer_of};
ghost use Rattle.answers.specs.Promise.{PlansChain};
ghost use Rattle.search.specs.Working.Ready.{ReadyForChain};

use answers::copy_marks;
use bounding::fill_bounds;
use finding::find;
use refusals::Refusal;
use units::NONE;
use walk::plan_marks;

// The plan of the chain that the table t holds, of n tasks, for a buffer that holds its marks; b is lent for the bounds. Planning calls this, with arrays that are long
// enough for n. The time is known to fit before a byte is written.
pub fn plan_chain(t: &[u32], b: &mut [u64], n: usize, buffer: &mut [u8]) -> Result<u64, Refusal>
    requires { ReadyForChain t.now b.old n buffer.old }
    ensures { PlansChain (chain_in t.now) n buffer.old buffer.new (answer_of result) }
{
    fill_bounds(b, t, n);
    let disks = find(t, b, n);
    let time = disks.time;
    let backs = disks.backs;
    let least = time[n];
    if NONE <= least {
        return Err(Refusal::TooSlow);
    }
    let marks = plan_marks(t, b, &time, &backs, n);
    copy_marks(buffer, marks, n);
    Ok(least)
}
