// Follows a run: the marks as digits in the first argument, the name of a log file in the second, the job sheet on standard input. Then words in pairs, in turn:
// `name`, `drop` and `return` with the number of a name, or `log` with the name of a further log file.
// Prints where the run stands, what it has counted and the names that it holds, or the number of the first refusal.
#![tactic(auto)]

ghost use Rattle.std.specs.Prelude.{◌≡◌, ◌≤◌, length};
ghost use Rattle.output.specs.Words.{endless_words, log_word};
ghost use Rattle.output.specs.Files.{FileTold};
ghost use Rattle.output.specs.Texts.{line_room, complaint_text, standing_text, Holds};
ghost use Rattle.follow.specs.Prints.{words_after, CommandOf, WordAnswers, Leads, LogLed, CallLed, TurnsPrint, FollowPrints, CallPrints};

use console::ARGUMENT_ROOM;
use header::SHEET_ROOM;
use named::NamedRun;
use names::Names;
use naming::NamedStepped;
use output::{PATH_ROOM, Text, complaint, refused_text, standing_text, unknown_word};
use refusals::ACCEPTED;
use std::fs::File;

// 13,107 records of 5 bytes.
const PIECE_LENGTH: usize = 65_535;

// More pieces than any file holds.
const MAX_PIECES: u64 = 1 << 48;

// The program's own name, the marks and the log come before the pairs.
const FIRST_PAIR: usize = 3;

// A pair of words.
const PAIR: usize = 2;

// A name is a byte.
const NAME_MOST: u64 = 255;

const NAME_COUNT: u64 = NAME_MOST + 1;

// The words that a call begins with.
#[derive(Clone, Copy)]
enum Command {
    Name,
    Drop,
    Return,
    Log,
}

impl Command {
    // The command that a word asks for, if it is known.
    fn from_word(word: &[u8]) -> Option<Command>
        ensures { CommandOf word.now result }
    {
        if word == b"name".as_slice() {
            return Some(Command::Name);
        }
        if word == b"drop".as_slice() {
            return Some(Command::Drop);
        }
        if word == b"return".as_slice() {
            return Some(Command::Return);
        }
        if word == b"log".as_slice() {
            return Some(Command::Log);
        }
        None
    }
}

// Where the run stands, what it has counted and the names that it holds.
fn text_of(state: NamedRun) -> Text
    ensures { Holds (standing_text state.run.place state.names) result }
{
    standing_text(state.run.place, state.names)
}

// An answer leads on from its state; a refusal leads to its text alone, and nothing is called after it.
fn lead(answer: NamedStepped) -> Result<NamedRun, Text>
    ensures { Leads answer result }
{
    if answer.number != ACCEPTED {
        return Err(refused_text(answer.number));
    }
    Ok(answer.state)
}

// The log cannot be read, by the system's number of the error.
fn unreadable(path: &[u8], error: Option<i32>) -> Text
    ensures { FileTold log_word path.now result }
{
    console::unreadable(b"log", path, error)
}

// The log has no end.
fn endless() -> Text
    ensures { Holds (complaint_text endless_words log_word) result }
{
    complaint(b"too long: ", b"log")
}

// Follows the log piece by piece from the state given. A piece holds whole records, and one that is not full is the last.
// After full pieces only, the last is empty: an empty log after accepted records is accepted and changes nothing.
fn follow_log(first: NamedRun, path: &[u8], file: &mut File) -> Result<NamedRun, Text>
    ensures { LogLed first path.now result }
{
    let mut piece = [0u8; PIECE_LENGTH];
    let mut state = first;
    for _i in 0..MAX_PIECES {
        let n = match console::read_all(file, &mut piece) {
            Ok(n) => n,
            Err(broken) => return Err(unreadable(path, broken.error)),
        };
        state = lead(naming::follow(state, &piece[..n]))?;
        if n < PIECE_LENGTH {
            return Ok(state);
        }
    }
    Err(endless())
}

// Opens a further log and follows it.
fn open_log(rt: &HostRuntime, state: NamedRun, path: &[u8]) -> Result<NamedRun, Text>
    ensures { LogLed state path.now result }
{
    match console::open(rt, path) {
        Ok(mut file) => follow_log(state, path, &mut file),
        Err(error) => Err(unreadable(path, error)),
    }
}

// The log that argument i names.
fn log_at(rt: &HostRuntime, state: NamedRun, i: usize) -> Result<NamedRun, Text>
    ensures { CallLed state result }
{
    let mut buf = [0u8; PATH_ROOM];
    let path = console::argument(rt, i, &mut buf).unwrap_or(&[]);
    open_log(rt, state, path)
}

// The name that argument i gives.
fn name_at(rt: &HostRuntime, i: usize) -> u8 {
    let number = console::read_number(rt, i, b"name").unwrap_or(0);
    (number % NAME_COUNT) as u8
}

// The answer to a word that takes a name; a word that is not known has been told before.
fn answer_to(state: NamedRun, word: &[u8], name: u8) -> NamedStepped
    ensures { WordAnswers state word.now name result }
{
    match Command::from_word(word) {
        Some(Command::Name) => naming::name(state, name),
        Some(Command::Drop) => naming::drop_name(state, name),
        // one arm each: what an arm of several patterns knows of the word is not enough for the proof
        Some(Command::Return) => naming::return_to(state, name),
        Some(Command::Log) => naming::return_to(state, name),
        None => naming::return_to(state, name),
    }
}

// The call that a pair of words asks for: the word at i, and its partner.
fn call_at(rt: &HostRuntime, state: NamedRun, i: usize, partner: usize) -> Result<NamedRun, Text>
    ensures { CallLed state result }
{
    let mut buf = [0u8; ARGUMENT_ROOM];
    let word = console::argument(rt, i, &mut buf).unwrap_or(&[]);
    if let Some(Command::Log) = Command::from_word(word) {
        return log_at(rt, state, partner);
    }
    let name = name_at(rt, partner);
    lead(answer_to(state, word, name))
}

// How many words come after the log.
fn words_after(count: usize) -> usize
    ensures { result ≡ words_after count }
{
    count.saturating_sub(FIRST_PAIR)
}

// The calls of the pairs of words, in turn from the state given; the text of the last.
fn call_in_turn(rt: &HostRuntime, first: NamedRun, count: usize) -> Text
    ensures { TurnsPrint first (words_after count) result }
{
    let mut state = first;
    for pair in 0..words_after(count) / PAIR {
        let i = FIRST_PAIR + PAIR * pair;
        state = match call_at(rt, state, i, i + 1) {
            Ok(next) => next,
            Err(text) => return text,
        };
    }
    text_of(state)
}

// The run of the sheet and the marks through the log, and the calls after it. The log is read only after both are accepted.
fn follow(
    rt: &HostRuntime,
    sheet: &[u8],
    marks: &[u8],
    path: &[u8],
    file: &mut File,
    count: usize,
) -> Text
    ensures { FollowPrints sheet.now marks.now path.now (words_after count) result }
{
    let started = starting::start(sheet, marks);
    if started.number != ACCEPTED {
        return refused_text(started.number);
    }
    let run = started.run;
    let names = Names::none();
    match follow_log(NamedRun { run, names }, path, file) {
        Ok(state) => call_in_turn(rt, state, count),
        Err(text) => text,
    }
}

// What is printed. The log is opened after the sheet is read, and before it is looked at.
fn open_and_follow(rt: &HostRuntime, sheet: &[u8], marks: &[u8], path: &[u8], count: usize) -> Text
    ensures { CallPrints sheet.now marks.now path.now (words_after count) result }
{
    match console::open(rt, path) {
        Ok(mut file) => follow(rt, sheet, marks, path, &mut file, count),
        Err(error) => unreadable(path, error),
    }
}

// The run under the sheet on standard input.
fn read_and_follow(rt: &HostRuntime, marks: &[u8], path: &[u8], count: usize) {
    let mut buf = [0u8; SHEET_ROOM];
    let Some(sheet) = console::read_sheet(rt, &mut buf) else {
        return;
    };
    console::print(rt, open_and_follow(rt, sheet, marks, path, count));
}

// Whether argument i is the number of a name; one that is not has its line.
fn is_name(rt: &HostRuntime, i: usize, word: &[u8]) -> bool
    requires { length word.now ≤ line_room }
{
    let Some(number) = console::read_number(rt, i, word) else {
        return false;
    };
    if NAME_MOST < number {
        console::complain(rt, b"out of range: ", word);
        return false;
    }
    true
}

// Whether argument i can be the name of a log; one that cannot has its line.
fn is_path(rt: &HostRuntime, i: usize) -> bool {
    if !console::has_argument(rt, i) {
        console::complain(rt, b"missing argument: ", b"log");
        return false;
    }
    let mut buf = [0u8; PATH_ROOM];
    if console::argument(rt, i, &mut buf).is_none() {
        console::complain(rt, b"argument too long: ", b"log");
        return false;
    }
    true
}

// Whether a word is known and argument i is a partner for it; one that is not has its line.
fn is_pair(rt: &HostRuntime, asked: &[u8], i: usize) -> bool {
    match Command::from_word(asked) {
        Some(Command::Name) => is_name(rt, i, b"name"),
        Some(Command::Drop) => is_name(rt, i, b"drop"),
        Some(Command::Return) => is_name(rt, i, b"return"),
        Some(Command::Log) => is_path(rt, i),
        None => {
            console::print(rt, unknown_word(asked));
            false
        }
    }
}

// The same for the word at i.
fn is_pair_at(rt: &HostRuntime, i: usize, partner: usize) -> bool {
    let mut buf = [0u8; ARGUMENT_ROOM];
    let word = console::argument(rt, i, &mut buf).unwrap_or(&[]);
    is_pair(rt, word, partner)
}

// Whether all words after the log are pairs; the first that are none have their line.
fn are_pairs(rt: &HostRuntime, count: usize) -> bool {
    let words = words_after(count);
    for pair in 0..words.div_ceil(PAIR) {
        let i = FIRST_PAIR + PAIR * pair;
        if !is_pair_at(rt, i, i + 1) {
            return false;
        }
    }
    words % PAIR == 0
}

// The log that the second argument names, and the words after it.
fn take_path(rt: &HostRuntime, marks: &[u8], count: usize) {
    let mut buf = [0u8; PATH_ROOM];
    let Some(path) = console::argument(rt, 2, &mut buf) else {
        console::complain(rt, b"argument too long: ", b"log");
        return;
    };
    if are_pairs(rt, count) {
        read_and_follow(rt, marks, path, count);
    }
}

fn main(rt: HostRuntime) {
    if console::help_answered(
        &rt,
        b"follow MARKS LOG [name K|drop K|return K|log LOG].. < SHEET\nPrints where a run stands and its names, or refused N.\nExample: follow 23 crates/follow/data/log name 7 < crates/plan/stdin\n",
    ) {
        return;
    }
    let count = console::argument_count(&rt);
    if count < 2 {
        console::complain(&rt, b"missing argument: ", b"marks");
        return;
    }
    if count < 3 {
        console::complain(&rt, b"missing argument: ", b"log");
        return;
    }
    let mut buf = [0u8; ARGUMENT_ROOM];
    let Some(marks) = console::read_marks(&rt, &mut buf) else {
        return;
    };
    take_path(&rt, marks, count);
}
