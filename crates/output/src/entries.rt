// The lines of the names that a run holds, after those of the run.
ghost use Rattle.std.specs.Prelude.{◌≡◌, ◌+◌, ◌*◌, min, ◌≤◌, length};
ghost use Rattle.names.specs.Names.{name_limit};
ghost use Rattle.output.specs.Texts.{held_line, held_text, standing_text, held_room, Holds};
ghost use Rattle.output.specs.Working.Ready.{PutsWithin};

use crate::{Text, put_run};
use names::{Held, NAME_LIMIT, Names};
use state::Place;

// A name and its position.
fn put_held(text: &mut Text, held: Held)
    requires { text.old.length + held_room ≤ length text.old.bytes }
    ensures { PutsWithin text.old.bytes text.new.bytes text.old.length text.new.length held_room (held_line held) }
{
    let name = held.name as u64;
    let position = held.place.position as u64;
    text.put(b"name ");
    text.put_number(name);
    text.put(b" ");
    text.put_numbered(b"position", position);
}

// The lines of the entries.
fn put_entries(text: &mut Text, entries: &[Held])
    requires { text.old.length + length entries.now * held_room ≤ length text.old.bytes }
    ensures { PutsWithin text.old.bytes text.new.bytes text.old.length text.new.length (length entries.now * held_room) (held_text entries.now) }
{
    for held in entries {
        put_held(text, *held);
    }
}

// How many entries are held: there is room for no more than the limit.
fn entries_held(names: Names) -> usize
    ensures { result ≡ min names.count name_limit }
{
    names.count.min(NAME_LIMIT)
}

// Where a run stands, what it has counted, and the names that it holds.
pub fn standing_text(place: Place, names: Names) -> Text
    ensures { Holds (standing_text place names) result }
{
    let mut text = Text::new();
    put_run(&mut text, place);
    let n = entries_held(names);
    put_entries(&mut text, &names.entries[..n]);
    text
}
