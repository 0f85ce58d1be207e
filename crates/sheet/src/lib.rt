// The job sheet of document 01: lookup by kind, and reading with checks 1 to 8.
#![tactic(auto)]

pub mod lookup;
pub mod read;

// What a lookup finds: 0 and where the stretch lies, or the number of its refusal and the empty stretch at byte 0. No Result: C takes it.
#[repr(C)]
#[derive(Clone, Copy)]
pub struct Found {
    pub number: u64,
    pub start: usize,
    pub size: usize,
}
