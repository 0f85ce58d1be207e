// Prints the time of the marks, given as digits in the first argument, under the job sheet on standard input; or the number of their refusal.
#![tactic(auto)]

ghost use Rattle.pricing.specs.Price.{price_of};
ghost use Rattle.output.specs.Texts.{price_text, Holds};

use console::ARGUMENT_ROOM;
use header::SHEET_ROOM;
use output::{Text, price_text};

// What is printed for the sheet and the marks.
fn text_of(sheet: &[u8], marks: &[u8]) -> Text
    ensures { Holds (price_text (price_of sheet.now marks.now)) result }
{
    price_text(pricing::price(sheet, marks))
}

// The price of the marks under the sheet on standard input.
fn price(rt: &HostRuntime, marks: &[u8]) {
    let mut buf = [0u8; SHEET_ROOM];
    let Some(sheet) = console::read_sheet(rt, &mut buf) else {
        return;
    };
    console::print(rt, text_of(sheet, marks));
}

fn main(rt: HostRuntime) {
    if console::words_answered(
        &rt,
        2,
        b"price MARKS < SHEET\nPrints the expected time in ticks under these marks, one digit a task, or refused N.\nExample: price 23 < crates/plan/stdin\n",
    ) {
        return;
    }
    if !console::has_argument(&rt, 1) {
        console::complain(&rt, b"missing argument: ", b"marks");
        return;
    }
    let mut buf = [0u8; ARGUMENT_ROOM];
    let Some(marks) = console::read_marks(&rt, &mut buf) else {
        return;
    };
    price(&rt, marks);
}
