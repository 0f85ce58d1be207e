// What the programs read and write: a text by one call, the sheet on standard input, files, and marks or a number in an argument.
#![tactic(auto)]

ghost use Rattle.std.specs.Prelude.{◌≡◌, ◌<◌, ◌≤◌, true, length, take, IfOk, IfSome};
ghost use Rattle.std.specs.Io.KnownBytes.{Appends, Consumes, IsAtEnd};
ghost use Rattle.console.specs.Counts.{IsPrefixLen, count_read};
ghost use Rattle.output.specs.Texts.{line_room, text_of};
ghost use Rattle.output.specs.Files.{FileTold};
ghost use Rattle.output.specs.Working.Ready.{ReadyForComplaint};

use numerals::{to_marks, to_number};
use output::{Text, complaint};
use std::env::{Env, FillError};
use std::fs::File;
use std::io::{Read, Write};

// Linux hands a program no argument of more than 131,071 bytes.
pub const ARGUMENT_ROOM: usize = 131_072;

// More than the word `--help` has.
const HELP_ROOM: usize = 16;

// The system's numbers of errors.
const MISSING: i32 = 2;

const FORBIDDEN: i32 = 13;

const DIRECTORY: i32 = 21;

// A text, to a file; whether all of it was written.
pub fn print_to<W: Write>(file: &mut W, text: Text) -> bool
    requires { text.length ≤ length text.bytes }
    ensures { result ≡ true → Appends (W.contents file.old) (W.contents file.new) (text_of text) }
{
    let n = text.length;
    let bytes = text.bytes;
    file.write_all(&bytes[..n]).is_ok()
}

// That an answer could not be written, to standard error.
pub fn unwritten(rt: &HostRuntime) {
    print_to(&mut rt.stderr(), complaint(b"cannot write: ", b"answer"));
}

// A text, to standard output; one that cannot be written has its line on standard error.
pub fn print(rt: &HostRuntime, text: Text)
    requires { text.length ≤ length text.bytes }
{
    if !print_to(&mut rt.stdout(), text) {
        unwritten(rt);
    }
}

// What is wrong, and with which argument or file, on one line.
pub fn complain(rt: &HostRuntime, words: &[u8], which: &[u8])
    requires { ReadyForComplaint words.now which.now }
{
    print(rt, complaint(words, which));
}

// Whether there is an argument i; argument 0 is the program's own name.
pub fn has_argument(rt: &HostRuntime, i: usize) -> bool {
    !matches!(rt.arg(i, &mut []), Err(FillError::NotPresent))
}

// How many arguments there are.
pub fn argument_count(rt: &HostRuntime) -> usize {
    for i in 0..usize::MAX {
        if !has_argument(rt, i) {
            return i;
        }
    }
    usize::MAX
}

// Whether the first argument is `--help`.
fn is_help(rt: &HostRuntime) -> bool {
    let mut word = [0u8; HELP_ROOM];
    match argument(rt, 1, &mut word) {
        Some(word) => word == b"--help".as_slice(),
        None => false,
    }
}

// A first word of `--help` prints how the program is used; whether it is one.
pub fn help_answered(rt: &HostRuntime, usage: &[u8]) -> bool {
    if !is_help(rt) {
        return false;
    }
    if rt.stdout().write_all(usage).is_err() {
        unwritten(rt);
    }
    true
}

// Calls that are answered by their words alone, and whether this is one: `--help`, and more words than `most`, the program's own name among them, which have a
// line in a file.
pub fn words_answered_to<W: Write>(
    rt: &HostRuntime,
    file: &mut W,
    most: usize,
    usage: &[u8],
) -> bool {
    if help_answered(rt, usage) {
        return true;
    }
    if has_argument(rt, most) {
        if !print_to(file, complaint(b"too many arguments", b"")) {
            unwritten(rt);
        }
        return true;
    }
    false
}

// The same, the line on standard output.
pub fn words_answered(rt: &HostRuntime, most: usize, usage: &[u8]) -> bool {
    words_answered_to(rt, &mut rt.stdout(), most, usage)
}

// The line of a file that could not be read, by the system's number of the error, where it gives one.
pub fn unreadable(which: &[u8], path: &[u8], error: Option<i32>) -> Text
    requires { length which.now ≤ line_room }
    ensures { FileTold which.now path.now result }
{
    match error {
        Some(MISSING) => output::unreadable(which, path, b": missing"),
        Some(FORBIDDEN) => output::unreadable(which, path, b": forbidden"),
        Some(DIRECTORY) => output::unreadable(which, path, b": a directory"),
        _ => output::unreadable(which, path, b""),
    }
}

// Opens the file of this name, or gives the system's number of the error. A name that is no UTF-8 opens no file.
pub fn open(rt: &HostRuntime, path: &[u8]) -> Result<File, Option<i32>> {
    let Ok(name) = str::from_utf8(path) else {
        return Err(None);
    };
    File::open(rt, name).map_err(|error| error.raw_os_error())
}

// A read that failed: how many bytes it had put at the start of its buffer by then, and the system's number of the error, where it gives one.
#[derive(Clone, Copy)]
pub struct Broken {
    pub n: usize,
    pub error: Option<i32>,
}

// Reads until the buffer is full, the input ends or a read fails; how many bytes it put at the start of the buffer. Unlike `read_exact`, it tells a failure from
// the input's end.
pub fn read_all<R: Read>(file: &mut R, buf: &mut [u8]) -> Result<usize, Broken>
    ensures count { IsPrefixLen (count_read result) buf.new }
    ensures bytes { Consumes (R.remaining file.old) (R.remaining file.new) (take (count_read result) buf.new) }
    ensures end { IfOk result (λ n. n < length buf.new → IsAtEnd (R.remaining file.new)) }
{
    let mut n: usize = 0;
    // a `while`, as each read says where the next one begins
    while n < buf.len() {
        match file.read(&mut buf[n..]) {
            Ok(0) => return Ok(n),
            Ok(more) => n += more,
            Err(error) => {
                return Err(Broken {
                    n,
                    error: error.raw_os_error(),
                });
            }
        }
    }
    Ok(n)
}

// Argument i, at the start of the buffer; none where there is none, or where the buffer is too short for it.
pub fn argument<'a>(rt: &HostRuntime, i: usize, buf: &'a mut [u8]) -> Option<&'a [u8]>
    ensures { IfSome result (λ text. length text.now ≤ length buf.old) }
{
    let n = rt.arg(i, buf).ok()?;
    Some(&buf[..n])
}

// The sheet on standard input; a read that fails has its line.
pub fn read_sheet<'a>(rt: &HostRuntime, buf: &'a mut [u8]) -> Option<&'a [u8]>
    ensures { IfSome result (λ sheet. length sheet.now ≤ length buf.old) }
{
    let Ok(n) = read_all(&mut rt.stdin(), buf) else {
        complain(rt, b"cannot read: ", b"sheet");
        return None;
    };
    Some(&buf[..n])
}

// The marks that the first argument gives as digits; one that is too long or no digits has its line.
pub fn read_marks<'a>(rt: &HostRuntime, buf: &'a mut [u8]) -> Option<&'a [u8]>
    ensures { IfSome result (λ marks. length marks.now ≤ length buf.old) }
{
    let Ok(n) = rt.arg(1, buf) else {
        complain(rt, b"argument too long: ", b"marks");
        return None;
    };
    if !to_marks(&mut buf[..n]) {
        complain(rt, b"not digits: ", b"marks");
        return None;
    }
    Some(&buf[..n])
}

// The number that argument i gives in digits; one that is missing, too long or no number has its line.
pub fn read_number(rt: &HostRuntime, i: usize, which: &[u8]) -> Option<u64>
    requires { length which.now ≤ line_room }
{
    if !has_argument(rt, i) {
        complain(rt, b"missing argument: ", which);
        return None;
    }
    let mut buf = [0u8; ARGUMENT_ROOM];
    let Some(text) = argument(rt, i, &mut buf) else {
        complain(rt, b"argument too long: ", which);
        return None;
    };
    let number = to_number(text);
    if number.is_none() {
        complain(rt, b"not a number: ", which);
    }
    number
}
