// A run with the names that it holds, by request 109, and what 21 asks of it.
#![tactic(auto)]

ghost use Rattle.std.specs.Prelude.{◌≡◌, ◌≤◌};
ghost use Rattle.units.specs.Limits.{task_limit};
ghost use Rattle.rules.specs.Rules.{marks_in, broken_place};
ghost use Rattle.names.specs.Names.{name_limit, held_in};
ghost use Rattle.named.specs.Named.{name_twice, some_place_broken, bad_names, broken_named};
ghost use Rattle.named.specs.Working.Ready.{ReadyForPlaces};

use names::{NAME_LIMIT, Names, slot_of};
use rules::{broken, broken_place};
use state::{Place, Run};

#[repr(C)]
#[derive(Clone, Copy)]
pub struct NamedRun {
    pub run: Run,
    pub names: Names,
}

// A name is held twice: one of the entries has its name before it.
fn name_twice(names: Names) -> bool
    requires { names.count ≤ name_limit }
    ensures { result ≡ name_twice (held_in names) }
{
    let count = names.count;
    let entries = names.entries;
    for j in 0..count {
        let held = entries[j];
        if slot_of(names, held.name) < j {
            return true;
        }
    }
    false
}

// What 21 asks of a place of the run.
fn breaks(run: Run, place: Place) -> bool
    requires { run.job.tasks ≤ task_limit }
    ensures { result ≡ broken_place run.job (marks_in run) place }
{
    let mut other = run;
    other.place = place;
    broken_place(other)
}

// The same of each held place.
fn some_place_broken(run: Run, names: Names) -> bool
    requires { ReadyForPlaces run names }
    ensures { result ≡ some_place_broken run.job (marks_in run) (held_in names) }
{
    let count = names.count;
    let entries = names.entries;
    for j in 0..count {
        let held = entries[j];
        let place = held.place;
        if breaks(run, place) {
            return true;
        }
    }
    false
}

// What 21 asks of the names. The crates above call this once 21 accepts the run, whose task count has then passed check 3: held places are tested by its weights.
pub fn bad_names(run: Run, names: Names) -> bool
    requires { run.job.tasks ≤ task_limit }
    ensures { result ≡ bad_names run.job (marks_in run) names }
{
    if NAME_LIMIT < names.count {
        return true;
    }
    if name_twice(names) {
        return true;
    }
    some_place_broken(run, names)
}

// 21: the run or its names break a rule.
pub fn broken_named(state: NamedRun) -> bool
    ensures { result ≡ broken_named state }
{
    let run = state.run;
    if broken(run) {
        return true;
    }
    let names = state.names;
    bad_names(run, names)
}
