// A text that is put together line by line, in a room that holds the longest. Nothing here reads or prints. Each part asks for room: only `output` puts parts, and
// has it.
#![tactic(auto)]

ghost use Rattle.numerals.specs.Decimal.{decimal};
ghost use Rattle.std.specs.Prelude.{◌≡◌, [], ◌∷◌};
ghost use Rattle.lines.specs.Lines.{words_line, number_line, mark_digits, marks_line, Room, Puts};

use names::NAME_LIMIT;
use units::TASK_LIMIT;

const ZERO: u8 = b'0';

const SPACE: u8 = b' ';

const NEWLINE: u8 = b'\n';

// Digits are decimal.
const BASE: u64 = 10;

const MARK_BASE: u8 = 10;

// The longest word of a line.
const LONGEST_WORD: usize = 8;

// The most digits of a number of 64 bits.
const WORD_DIGITS: usize = 20;

// A word, a number, the space between them and the line's end.
const LINE_ROOM: usize = LONGEST_WORD + WORD_DIGITS + 2;

// The lines of a run.
const RUN_LINES: usize = 7;

// The line of a held name: two words and two numbers.
const HELD_ROOM: usize = 2 * LINE_ROOM;

// The longest name of a file.
pub const PATH_ROOM: usize = 4096;

// The lines of a run and of all names that it may hold, a digit for each task, and the name of a file.
pub const TEXT_ROOM: usize = RUN_LINES * LINE_ROOM
    + NAME_LIMIT * HELD_ROOM
    + TASK_LIMIT
    + PATH_ROOM;

// A text: the first bytes of its room, and how many they are.
#[derive(Clone, Copy)]
pub struct Text {
    pub bytes: [u8; TEXT_ROOM],
    pub length: usize,
}

impl Text {
    // No text.
    pub fn new() -> Text
        ensures { result.length ≡ 0 }
    {
        Text {
            bytes: [0; TEXT_ROOM],
            length: 0,
        }
    }

    // Bytes as they are.
    pub fn put(&mut self, bytes: &[u8])
        requires { Room self.old.bytes self.old.length bytes.now }
        ensures { Puts self.old.bytes self.new.bytes self.old.length self.new.length bytes.now }
    {
        let at = self.length;
        let end = at + bytes.len();
        let room = &mut self.bytes[..];
        room[at..end].copy_from_slice(bytes);
        self.length = end;
    }

    // The digit of each mark.
    fn put_marks(&mut self, marks: &[u8])
        requires { Room self.old.bytes self.old.length (mark_digits marks.now) }
        ensures { Puts self.old.bytes self.new.bytes self.old.length self.new.length (mark_digits marks.now) }
    {
        for mark in marks {
            self.put_byte(ZERO + mark % MARK_BASE);
        }
    }

    // The digits of a number: those of its quotient by ten, then the rest.
    pub fn put_number(&mut self, n: u64)
        requires { Room self.old.bytes self.old.length (decimal n) }
        ensures { Puts self.old.bytes self.new.bytes self.old.length self.new.length (decimal n) }
    {
        if n < BASE {
            self.put_byte(ZERO + n as u8);
            return;
        }
        self.put_number(n / BASE);
        self.put_byte(ZERO + (n % BASE) as u8);
    }

    // A byte.
    fn put_byte(&mut self, byte: u8)
        requires { Room self.old.bytes self.old.length (byte ∷ []) }
        ensures { Puts self.old.bytes self.new.bytes self.old.length self.new.length (byte ∷ []) }
    {
        self.bytes[self.length] = byte;
        self.length += 1;
    }

    // A line of words.
    pub fn put_words(&mut self, words: &[u8])
        requires { Room self.old.bytes self.old.length (words_line words.now) }
        ensures { Puts self.old.bytes self.new.bytes self.old.length self.new.length (words_line words.now) }
    {
        self.put(words);
        self.put_byte(NEWLINE);
    }

    // A word and its number, on one line.
    pub fn put_numbered(&mut self, word: &[u8], n: u64)
        requires { Room self.old.bytes self.old.length (number_line word.now n) }
        ensures { Puts self.old.bytes self.new.bytes self.old.length self.new.length (number_line word.now n) }
    {
        self.put(word);
        self.put_byte(SPACE);
        self.put_number(n);
        self.put_byte(NEWLINE);
    }

    // A word and the digits of marks, on one line.
    pub fn put_marked(&mut self, word: &[u8], marks: &[u8])
        requires { Room self.old.bytes self.old.length (marks_line word.now marks.now) }
        ensures { Puts self.old.bytes self.new.bytes self.old.length self.new.length (marks_line word.now marks.now) }
    {
        self.put(word);
        self.put_byte(SPACE);
        self.put_marks(marks);
        self.put_byte(NEWLINE);
    }
}
