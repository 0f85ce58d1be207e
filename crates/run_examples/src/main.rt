// Runs the examples of document 01 that are not starred, and prints what each gives; the starred ones are proved (`starred_examples`, in the crate `examples`).
#![tactic(auto)]

ghost use Rattle.std.specs.Prelude.{◌≤◌, length};
ghost use Rattle.output.specs.Texts.{longest_word};

use console::Broken;
use header::SHEET_ROOM;
use output::{numbered_text, price_text};
use std::io::Write;
use units::TASK_LIMIT;

// More than the log of the example has.
const LOG_ROOM: usize = 100;

// The bytes of a file, at the front of the buffer; one that cannot be read has none.
fn read_file<'a>(rt: &HostRuntime, name: &[u8], buf: &'a mut [u8]) -> &'a [u8]
    ensures { length result.now ≤ length buf.old }
{
    let n = match console::open(rt, name) {
        Ok(mut file) => match console::read_all(&mut file, buf) {
            Ok(n) | Err(Broken { n, .. }) => n,
        },
        Err(_) => 0,
    };
    &buf[..n]
}

// A word and its number.
fn numbered(rt: &HostRuntime, word: &[u8], n: u64)
    requires { length word.now ≤ longest_word }
{
    console::print(rt, numbered_text(word, n));
}

// The least time of the sheet in the file, or its refusal.
fn plan(rt: &HostRuntime, name: &[u8]) {
    let mut buf = [0u8; SHEET_ROOM];
    let sheet = read_file(rt, name, &mut buf);
    let mut marks = [0u8; TASK_LIMIT];
    let answer = planning::plan(sheet, &mut marks);
    let _ = rt.stdout().write_all(name);
    let _ = rt.stdout().write_all(b": ");
    console::print(rt, price_text(answer));
}

// The run of the sheet under marks 23 through the log.
fn follow(rt: &HostRuntime, sheet: &[u8], log: &[u8]) {
    let marks = [2u8, 3];
    let started = starting::start(sheet, &marks);
    let followed = logs::follow(started.run, log);
    let fresh = followed.run;
    let place = fresh.place;
    let sums = place.sums;
    numbered(rt, b"number", followed.number);
    numbered(rt, b"position", place.position as u64);
    numbered(rt, b"kept", sums.kept);
    numbered(rt, b"redone", sums.redone);
    numbered(rt, b"verify", sums.verify);
    numbered(rt, b"saves", sums.saves);
    numbered(rt, b"recovery", sums.recovery);
}

fn run_of_a(rt: &HostRuntime) {
    let mut sheet_buf = [0u8; SHEET_ROOM];
    let sheet = read_file(rt, b"a", &mut sheet_buf);
    let mut log_buf = [0u8; LOG_ROOM];
    let log = read_file(rt, b"log", &mut log_buf);
    follow(rt, sheet, log);
}

fn main(rt: HostRuntime) {
    plan(&rt, b"a");
    plan(&rt, b"limit");
    plan(&rt, b"past_limit");
    plan(&rt, b"slow");
    plan(&rt, b"no_errors");
    plan(&rt, b"bytes_19");
    plan(&rt, b"tasks_64");
    plan(&rt, b"tasks_65");
    run_of_a(&rt);
}
