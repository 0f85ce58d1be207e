// The line of a file that cannot be read: which it is, its name, and why. The line of a word that is none of those known.
ghost use Rattle.std.specs.Prelude.{◌≡◌, min, length, take};
ghost use Rattle.lines.specs.Lines.{Room, Puts};
ghost use Rattle.output.specs.Words.{unknown_words};
ghost use Rattle.output.specs.Texts.{path_room, complaint_text, Holds};
ghost use Rattle.output.specs.Files.{unreadable_text, named_text};
ghost use Rattle.output.specs.Working.Ready.{ReadyForComplaint};

use crate::{PATH_ROOM, Text};

// Which file it is, and its name.
fn put_named(text: &mut Text, which: &[u8], path: &[u8])
    requires { Room text.old.bytes text.old.length (named_text which.now path.now) }
    ensures { Puts text.old.bytes text.new.bytes text.old.length text.new.length (named_text which.now path.now) }
{
    text.put(b"cannot read: ");
    text.put(which);
    text.put(b" ");
    text.put(path);
}

// How much of a name there is room for.
fn shown(path: &[u8]) -> usize
    ensures { result ≡ min (length path.now) path_room }
{
    path.len().min(PATH_ROOM)
}

// The line in its room; the cause begins with a colon, or is empty where it is not known.
pub fn unreadable(which: &[u8], path: &[u8], cause: &[u8]) -> Text
    requires { ReadyForComplaint which.now cause.now }
    ensures { Holds (unreadable_text which.now (take path_room path.now) cause.now) result }
{
    let mut text = Text::new();
    let n = shown(path);
    put_named(&mut text, which, &path[..n]);
    text.put_words(cause);
    text
}

// A word that is none of those known.
pub fn unknown_word(word: &[u8]) -> Text
    ensures { Holds (complaint_text unknown_words (take path_room word.now)) result }
{
    let mut text = Text::new();
    let n = shown(word);
    text.put(b"unknown word: ");
    text.put_words(&word[..n]);
    text
}
