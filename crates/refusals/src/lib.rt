// Document 01's refusals and the requests', each with its number, the number of a call that is accepted, and the answer that has a number and a time.
// The conditions stand in the crates that test them.
#![tactic(auto)]

ghost use Rattle.std.specs.Prelude.{◌≡◌};
ghost use Rattle.refusals.specs.Answers.{refused, accepted};
ghost use Rattle.refusals.specs.Checks.{number, answer_of};

// What an accepted call has in a refusal's place.
pub const ACCEPTED: u64 = 0;

// Why a call is refused, each with its number.
#[derive(Clone, Copy, Debug, PartialEq, Eq)]
pub enum Refusal {
    // Of a sheet.
    BadLength = 1,
    BadForm = 2,
    BadCount = 3,
    BadSections = 4,
    BadExtents = 5,
    BadKinds = 6,
    BadValue = 7,
    BadTask = 8,
    // Of marks that a user supplies, of a buffer, of a log and of a time.
    BadMarks = 9,
    BadStretch = 10,
    ShortBuffer = 11,
    BadRecord = 12,
    TooSlow = 13,
    // Of the state of a run.
    Broken = 21,
    Finished = 22,
    OutOfTurn = 23,
    OverWeight = 24,
    OverTotal = 25,
    // Of two sheets.
    OtherPlatform = 26,
    // Of a sheet for the equations as printed.
    LongChain = 27,
    // Of a sheet, by request 105: tested after 5 and before 6.
    StrayByte = 28,
    // Of the powers of a plan by energy, by request 106: tested after 8 and before 11.
    BadPower = 29,
    // Of the names that a run holds, by request 109: tested after 21.
    NotHeld = 30,
    NamesFull = 31,
}

impl Refusal {
    pub fn number(self) -> u64
        ensures { result ≡ number self }
    {
        self as u64
    }
}

// The answer to a call: number 0 and the time, or the number of its refusal and time 0. A plan by energy has its energy in place of the time.
// A number beside a time, and no Result: C takes it.
#[repr(C)]
#[derive(Clone, Copy)]
pub struct Answer {
    pub number: u64,
    pub time: u64,
}

pub fn refused(number: u64) -> Answer
    ensures { result ≡ refused number }
{
    Answer { number, time: 0 }
}

pub fn accepted(time: u64) -> Answer
    ensures { result ≡ accepted time }
{
    Answer {
        number: ACCEPTED,
        time,
    }
}

// The answer that tells a time or a refusal.
pub fn answered(time: Result<u64, Refusal>) -> Answer
    ensures { result ≡ answer_of time }
{
    match time {
        Ok(time) => accepted(time),
        Err(refusal) => refused(refusal.number()),
    }
}
