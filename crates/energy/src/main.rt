// Takes two powers, one for computing and verifying, one for saving and recovering, reads a job sheet from standard input and prints its plan by energy: the
// least energy, then one digit a task; or the number of its refusal.
#![tactic(auto)]

ghost use Rattle.energy.specs.Prints.{SheetPrints};

use costs::Powers;
use header::{SHEET_ROOM, task_count};
use output::{Text, plan_text};
use planning::energy::plan_energy;
use units::TASK_LIMIT;

// What is printed for the sheet and the powers.
fn text_of(sheet: &[u8], powers: Powers) -> Text
    ensures { SheetPrints powers sheet.now result }
{
    let mut marks = [0u8; TASK_LIMIT];
    let answer = plan_energy(sheet, powers, &mut marks);
    plan_text(b"energy", answer, marks, task_count(sheet))
}

// The plan of the sheet on standard input.
fn plan(rt: &HostRuntime, powers: Powers) {
    let mut buf = [0u8; SHEET_ROOM];
    let Some(sheet) = console::read_sheet(rt, &mut buf) else {
        return;
    };
    console::print(rt, text_of(sheet, powers));
}

fn main(rt: HostRuntime) {
    if console::words_answered(
        &rt,
        3,
        b"energy COMPUTING SAVING < SHEET\nPrints the least expected energy by these powers, 1 to 16, then one digit a task, or refused N.\nExample: energy 3 5 < crates/energy/stdin\n",
    ) {
        return;
    }
    let Some(computing) = console::read_number(&rt, 1, b"computing power") else {
        return;
    };
    let Some(saving) = console::read_number(&rt, 2, b"saving power") else {
        return;
    };
    plan(&rt, Powers { computing, saving });
}
