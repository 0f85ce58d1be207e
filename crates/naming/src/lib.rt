// Calls on a run with names, by request 109: name the present place, drop a name, return to a name, follow a log. 21 comes before all but 12 of a log's first record.
#![tactic(auto)]

ghost use Rattle.std.specs.Prelude.{◌≡◌};
ghost use Rattle.naming.specs.Calls.{answered, named_stepped, onward, with_names, at_place, name_of, drop_of, return_of};
ghost use Rattle.naming.specs.Log.{log_of};

use logs::{check_before, place_reached};
use named::{NamedRun, bad_names, broken_named};
use names::{Held, NAME_LIMIT, Names, put, slot_of, take_out};
use refusals::{ACCEPTED, Refusal};
use state::Place;

// The answer to a call: 0 and the next state, or the refusal and the state given. No Result: C takes it.
#[repr(C)]
#[derive(Clone, Copy)]
pub struct NamedStepped {
    pub number: u64,
    pub state: NamedRun,
}

fn answered(number: u64, state: NamedRun) -> NamedStepped
    ensures { result ≡ answered number state }
{
    NamedStepped { number, state }
}

// The names with the present place under this one, in place of one that it had.
fn named(state: NamedRun, name: u8) -> Result<Names, Refusal>
    ensures { named_stepped state (onward (with_names state) result) ≡ name_of state name }
{
    if broken_named(state) {
        return Err(Refusal::Broken);
    }
    let run = state.run;
    let names = state.names;
    let slot = slot_of(names, name);
    if slot == NAME_LIMIT {
        return Err(Refusal::NamesFull);
    }
    let place = run.place;
    let held = put(names, slot, Held { name, place });
    Ok(held)
}

// The names without this one.
fn dropped(state: NamedRun, name: u8) -> Result<Names, Refusal>
    ensures { named_stepped state (onward (with_names state) result) ≡ drop_of state name }
{
    if broken_named(state) {
        return Err(Refusal::Broken);
    }
    let names = state.names;
    let slot = slot_of(names, name);
    if slot == names.count {
        return Err(Refusal::NotHeld);
    }
    let held = take_out(names, slot);
    Ok(held)
}

// The place held under this name.
fn returned(state: NamedRun, name: u8) -> Result<Place, Refusal>
    ensures { named_stepped state (onward (at_place state) result) ≡ return_of state name }
{
    if broken_named(state) {
        return Err(Refusal::Broken);
    }
    let names = state.names;
    let slot = slot_of(names, name);
    if slot == names.count {
        return Err(Refusal::NotHeld);
    }
    let entries = names.entries;
    let held = entries[slot];
    let place = held.place;
    Ok(place)
}

// The records of a log, read and applied in turn: where the run stands after them, or the first refusal.
fn followed(state: NamedRun, log: &[u8]) -> Result<Place, Refusal>
    ensures { named_stepped state (onward (at_place state) result) ≡ log_of state log.now }
{
    check_before(state.run, log)?;
    if bad_names(state.run, state.names) {
        return Err(Refusal::Broken);
    }
    place_reached(state.run, log)
}

// The present place is held under this name. A refusal hands back the state given, here and in the other calls.
pub fn name(state: NamedRun, name: u8) -> NamedStepped
    ensures { result ≡ name_of state name }
{
    match named(state, name) {
        Ok(names) => answered(
            ACCEPTED,
            NamedRun {
                run: state.run,
                names,
            },
        ),
        Err(refusal) => answered(refusal.number(), state),
    }
}

// The name is held no longer.
pub fn drop_name(state: NamedRun, name: u8) -> NamedStepped
    ensures { result ≡ drop_of state name }
{
    match dropped(state, name) {
        Ok(names) => answered(
            ACCEPTED,
            NamedRun {
                run: state.run,
                names,
            },
        ),
        Err(refusal) => answered(refusal.number(), state),
    }
}

// The run stands at the place held under this name. The names stay as they are.
pub fn return_to(state: NamedRun, name: u8) -> NamedStepped
    ensures { result ≡ return_of state name }
{
    let mut next = state;
    let number = match returned(state, name) {
        Ok(held) => {
            next.run.place = held;
            ACCEPTED
        }
        Err(refusal) => refusal.number(),
    };
    answered(number, next)
}

// The records of a log, read and applied in turn.
pub fn follow(state: NamedRun, log: &[u8]) -> NamedStepped
    ensures { result ≡ log_of state log.now }
{
    let mut next = state;
    let number = match followed(state, log) {
        Ok(place) => {
            next.run.place = place;
            ACCEPTED
        }
        Err(refusal) => refusal.number(),
    };
    answered(number, next)
}
