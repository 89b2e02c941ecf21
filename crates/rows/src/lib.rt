// The rows that the player writes.
#![tactic(auto)]

mod events;
mod questions;

pub use byte_text::{count_within, known_byte};
pub use describing::{answer, reply_on_row, work, work_places};
pub use events::{
    below, cut, dump, ended, expected, fits, headed, numbered, part, plain, remark, reply, sent,
    wrong,
};
pub use page::form;
pub use questions::{lock_run, lock_state, run};
pub use why::{malformed, reason};
pub use writing::{Row, empty};
