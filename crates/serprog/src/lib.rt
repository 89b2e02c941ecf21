// What a serprog programmer decides: the commands and the answer to each, the lengths of an SPI operation, and what the tool is shown of a
// reply. specs/ has the rules; nothing here reads or writes. The operation itself is in crate `operating`.
#![tactic(auto)]

mod commands;
mod showing;

pub use commands::{answer_to, length_of, lengths_fit, shape_of};
pub use showing::show;

#[derive(Clone, Copy)]
pub enum Command {
    Nothing,
    Version,
    Map,
    Name,
    BufferSize,
    Buses,
    Sync,
    SetBus,
    Operation,
    SetFrequency,
    SetPins,
    Unlisted,
}

// The command, how many parameter bytes follow its code, and whether bytes to send follow these.
#[derive(Clone, Copy)]
pub struct Shape {
    pub command: Command,
    pub parameters: usize,
    pub sends: bool,
}

// The first `count` bytes are the answer; the others are 0.
#[derive(Clone, Copy)]
pub struct Answer {
    pub bytes: [u8; 33],
    pub count: usize,
}
