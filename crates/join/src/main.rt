// Joins the job sheets in the files that the two arguments name, and writes the joined sheet to standard output.
// The number of a refusal, and what cannot be read, have their line on standard error.
#![tactic(auto)]

ghost use Rattle.std.specs.Prelude.{◌≤◌, length, IfSome};
ghost use Rattle.output.specs.Texts.{line_room};
ghost use Rattle.output.specs.Working.Ready.{ReadyForComplaint};

use header::{LONGEST_SHEET, SHEET_ROOM};
use output::{PATH_ROOM, complaint, refused_text};
use std::io::Write;

// What is wrong, and with which sheet.
fn complain(rt: &HostRuntime, words: &[u8], which: &[u8])
    requires { ReadyForComplaint words.now which.now }
{
    console::print_to(&mut rt.stderr(), complaint(words, which));
}

// The joined sheet.
fn show(rt: &HostRuntime, first: &[u8], second: &[u8]) {
    let mut sheet = [0u8; LONGEST_SHEET];
    let joined = joining::join(first, second, &mut sheet);
    if joined.number != 0 {
        console::print_to(&mut rt.stderr(), refused_text(joined.number));
        return;
    }
    let n = joined.length;
    if rt.stdout().write_all(&sheet[..n]).is_err() {
        console::unwritten(rt);
    }
}

// That the file of this name cannot be read, by the system's number of the error.
fn tell(rt: &HostRuntime, which: &[u8], path: &[u8], error: Option<i32>)
    requires { length which.now ≤ line_room }
{
    console::print_to(&mut rt.stderr(), console::unreadable(which, path, error));
}

// The sheet in the file of this name, at the start of the buffer; one that cannot be read has its line.
fn read_file<'a>(rt: &HostRuntime, which: &[u8], path: &[u8], buf: &'a mut [u8]) -> Option<&'a [u8]>
    requires { length which.now ≤ line_room }
    ensures { IfSome result (λ sheet. length sheet.now ≤ length buf.old) }
{
    let error = match console::open(rt, path) {
        Ok(mut file) => match console::read_all(&mut file, buf) {
            Ok(n) => return Some(&buf[..n]),
            Err(broken) => broken.error,
        },
        Err(error) => error,
    };
    tell(rt, which, path, error);
    None
}

// The sheet in the file that argument i names; one that cannot be read has its line.
fn read_sheet<'a>(rt: &HostRuntime, i: usize, which: &[u8], buf: &'a mut [u8]) -> Option<&'a [u8]>
    requires { length which.now ≤ line_room }
    ensures { IfSome result (λ sheet. length sheet.now ≤ length buf.old) }
{
    let mut room = [0u8; PATH_ROOM];
    let Some(path) = console::argument(rt, i, &mut room) else {
        complain(rt, b"argument too long: ", which);
        return None;
    };
    read_file(rt, which, path, buf)
}

// The first sheet with the one that the second argument names.
fn join_second(rt: &HostRuntime, first: &[u8]) {
    let mut buf = [0u8; SHEET_ROOM];
    let Some(second) = read_sheet(rt, 2, b"second sheet", &mut buf) else {
        return;
    };
    show(rt, first, second);
}

fn main(rt: HostRuntime) {
    if console::words_answered_to(
        &rt,
        &mut rt.stderr(),
        3,
        b"join FIRST SECOND > SHEET\nWrites one sheet from two of one platform; any other line goes to standard error.\nExample: join crates/join/data/screen crates/join/data/classify | plan\n",
    ) {
        return;
    }
    if !console::has_argument(&rt, 1) {
        complain(&rt, b"missing argument: ", b"first sheet");
        return;
    }
    if !console::has_argument(&rt, 2) {
        complain(&rt, b"missing argument: ", b"second sheet");
        return;
    }
    let mut buf = [0u8; SHEET_ROOM];
    let Some(first) = read_sheet(&rt, 1, b"first sheet", &mut buf) else {
        return;
    };
    join_second(&rt, first);
}
