// The texts that the programs print, each made whole in its room, so that one call writes it. Nothing here reads or prints. What is asked, of short words and of
// a task count, the programs meet: their words are fixed.
#![tactic(auto)]

mod entries;
mod files;

ghost use Rattle.std.specs.Prelude.{◌≤◌, length, take};
ghost use Rattle.lines.specs.Lines.{number_line, Room, Puts};
ghost use Rattle.output.specs.Texts.{refused_text, complaint_text, plan_text, price_text, awaited_text, sums_text, run_text, longest_word, Holds};
ghost use Rattle.output.specs.Working.Ready.{ReadyForComplaint, ReadyForPlan};

pub use entries::standing_text;
pub use files::{unknown_word, unreadable};
pub use lines::{PATH_ROOM, TEXT_ROOM, Text};
use refusals::{ACCEPTED, Answer};
use state::{Place, Sums};
use units::TASK_LIMIT;

// A word and its number.
pub fn numbered_text(word: &[u8], n: u64) -> Text
    requires { length word.now ≤ longest_word }
    ensures { Holds (number_line word.now n) result }
{
    let mut text = Text::new();
    text.put_numbered(word, n);
    text
}

// The number of a refusal.
pub fn refused_text(number: u64) -> Text
    ensures { Holds (refused_text number) result }
{
    numbered_text(b"refused", number)
}

// What is wrong, and with which argument or file.
pub fn complaint(words: &[u8], which: &[u8]) -> Text
    requires { ReadyForComplaint words.now which.now }
    ensures { Holds (complaint_text words.now which.now) result }
{
    let mut text = Text::new();
    text.put(words);
    text.put_words(which);
    text
}

// The answer of a planner: the word for its figure and the figure, then one digit for each of n tasks; or the number of its refusal. The programs call this with
// the task count of a sheet, which is in range where there is a plan.
pub fn plan_text(word: &[u8], answer: Answer, marks: [u8; TASK_LIMIT], n: usize) -> Text
    requires { ReadyForPlan word.now answer n }
    ensures { Holds (plan_text word.now answer (take n marks)) result }
{
    if answer.number != ACCEPTED {
        return refused_text(answer.number);
    }
    let mut text = Text::new();
    text.put_numbered(word, answer.time);
    text.put_marked(b"marks", &marks[..n]);
    text
}

// The time of marks that a user supplies, or the number of their refusal.
pub fn price_text(answer: Answer) -> Text
    ensures { Holds (price_text answer) result }
{
    if answer.number != ACCEPTED {
        return refused_text(answer.number);
    }
    numbered_text(b"time", answer.time)
}

// Whether a verification is awaited.
fn put_awaited(text: &mut Text, awaiting: u8)
    requires { Room text.old.bytes text.old.length (awaited_text awaiting) }
    ensures { Puts text.old.bytes text.new.bytes text.old.length text.new.length (awaited_text awaiting) }
{
    if awaiting == 0 {
        text.put_words(b"awaited no");
    } else {
        text.put_words(b"awaited yes");
    }
}

// The five sums of a run.
fn put_sums(text: &mut Text, sums: Sums)
    requires { Room text.old.bytes text.old.length (sums_text sums) }
    ensures { Puts text.old.bytes text.new.bytes text.old.length text.new.length (sums_text sums) }
{
    text.put_numbered(b"kept", sums.kept);
    text.put_numbered(b"redone", sums.redone);
    text.put_numbered(b"verify", sums.verify);
    text.put_numbered(b"saves", sums.saves);
    text.put_numbered(b"recovery", sums.recovery);
}

// Where a run stands, and what it has counted.
fn put_run(text: &mut Text, place: Place)
    requires { Room text.old.bytes text.old.length (run_text place) }
    ensures { Puts text.old.bytes text.new.bytes text.old.length text.new.length (run_text place) }
{
    text.put_numbered(b"position", place.position as u64);
    put_awaited(text, place.awaiting);
    put_sums(text, place.sums);
}

// The same, in its room.
pub fn run_text(place: Place) -> Text
    ensures { Holds (run_text place) result }
{
    let mut text = Text::new();
    put_run(&mut text, place);
    text
}
