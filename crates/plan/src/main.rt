// Reads a job sheet from standard input and prints its plan: the least time, then one digit a task; or the number of its refusal.
#![tactic(auto)]

ghost use Rattle.plan.specs.Prints.{SheetPrints};

use header::{SHEET_ROOM, task_count};
use output::{Text, plan_text};
use units::TASK_LIMIT;

// What is printed for the sheet.
fn text_of(sheet: &[u8]) -> Text
    ensures { SheetPrints sheet.now result }
{
    let mut marks = [0u8; TASK_LIMIT];
    let answer = planning::plan(sheet, &mut marks);
    plan_text(b"time", answer, marks, task_count(sheet))
}

fn main(rt: HostRuntime) {
    if console::words_answered(
        &rt,
        1,
        b"plan < SHEET\nPrints the least expected time in ticks, then one digit a task (README has them), or refused N.\nExample: plan < crates/plan/stdin\n",
    ) {
        return;
    }
    let mut buf = [0u8; SHEET_ROOM];
    let Some(sheet) = console::read_sheet(&rt, &mut buf) else {
        return;
    };
    console::print(&rt, text_of(sheet));
}
