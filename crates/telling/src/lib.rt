// What the player tells of a line: a row of a part; the rows around a script; the words of the command line. specs/.
#![tactic(auto)]

mod arguments;
mod parts;
mod totals;

pub use arguments::argument_of;
pub use parts::row;
pub use totals::{heading, total, total_of};

// A word of the command line: an option, standard input, or the name of a script.
#[derive(Clone, Copy)]
pub enum Argument {
    Strict,
    Prompt,
    Input,
    Script,
}
