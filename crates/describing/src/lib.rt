// What runs, and what a frame does, in words.
#![tactic(auto)]

mod commands;
mod works;

pub use commands::{answer, less, opcode_of, reply_on_row};
pub use works::{span_of, work, work_cut, work_places};

// The places that work is about, none where the size is 0: of the Security ID, or of the array.
#[derive(Clone, Copy)]
pub struct Span {
    pub start: usize,
    pub size: usize,
    pub security: bool,
}
