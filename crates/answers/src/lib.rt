// What a planner gives: an answer, and marks in a buffer that the caller lends. Its promise, over any chain and any checks, stands in `specs`; every planner cites it.
#![tactic(auto)]

ghost use Rattle.std.specs.Prelude.{◌≡◌, ◌++◌, take, drop};
ghost use Rattle.answers.specs.Working.Ready.{ReadyToCopy};

use units::TASK_LIMIT;

// The first n marks go to the front of the buffer, and nothing else is written. Planners call this, with a buffer that holds n marks.
pub fn copy_marks(buffer: &mut [u8], marks: [u8; TASK_LIMIT], n: usize)
    requires { ReadyToCopy buffer.old n }
    ensures { buffer.new ≡ take n marks ++ drop n buffer.old }
{
    buffer[..n].copy_from_slice(&marks[..n]);
}
