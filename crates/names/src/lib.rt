// The names that a run holds, by request 109: each a byte and a place. An entry is found, put or taken out; entries past the names held are carried along unread.
#![tactic(auto)]

ghost use Rattle.std.specs.Prelude.{◌≡◌, ◌≤◌};
ghost use Rattle.names.specs.Names.{name_limit, no_held, no_names, held_in, slot_of, put, taken_out};
ghost use Rattle.names.specs.Working.Ready.{ReadyToPut, ReadyToTake};

use state::Place;

// The most names that a run may hold.
pub const NAME_LIMIT: usize = 16;

// A name and its place.
#[repr(C)]
#[derive(Clone, Copy)]
pub struct Held {
    pub name: u8,
    pub place: Place,
}

// The names held are the first entries, in the order of their first naming.
#[repr(C)]
#[derive(Clone, Copy)]
pub struct Names {
    pub count: usize,
    pub entries: [Held; NAME_LIMIT],
}

// An entry that holds nothing.
fn no_held() -> Held
    ensures { result ≡ no_held }
{
    Held {
        name: 0,
        place: Place::beginning(),
    }
}

impl Names {
    // No name is held.
    pub fn none() -> Names
        ensures { result ≡ no_names }
    {
        Names {
            count: 0,
            entries: [no_held(); NAME_LIMIT],
        }
    }
}

// The first entry of a name among those held, or their count where it is not held. Callers have asked 21 of the count, and so this asks for it: entries are read
// up to it.
pub fn slot_of(names: Names, name: u8) -> usize
    requires { names.count ≤ name_limit }
    ensures { result ≡ slot_of name (held_in names) }
{
    let count = names.count;
    let entries = names.entries;
    for j in 0..count {
        let held = entries[j];
        if held.name == name {
            return j;
        }
    }
    count
}

// An entry in place of that at a slot, or after the last one. Only `naming` calls this, with the slot that `slot_of` found and after 31: there is room.
pub fn put(names: Names, slot: usize, held: Held) -> Names
    requires { ReadyToPut names slot }
    ensures { result ≡ put names slot held }
{
    let mut count = names.count;
    let mut entries = names.entries;
    entries[slot] = held;
    if slot == count {
        count += 1;
    }
    Names { count, entries }
}

// The entries without that at a slot: those after it move up, and the entry that becomes free is 0. Only `naming` calls this, after 30: the slot is held.
pub fn take_out(names: Names, slot: usize) -> Names
    requires { ReadyToTake names slot }
    ensures { result ≡ taken_out names slot }
{
    let last = names.count - 1;
    let mut entries = names.entries;
    for j in slot..last {
        entries[j] = entries[j + 1];
    }
    entries[last] = no_held();
    Names {
        count: last,
        entries,
    }
}
