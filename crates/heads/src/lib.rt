// A line's first row, what stands right below it, and the rows of a status. specs/Heads.antt.
#![tactic(auto)]

mod events;
mod questions;
mod seconds;
mod settings;
mod statuses;

ghost use Rattle.std.specs.Prelude.{◌≡◌};
ghost use Rattle.standing.specs.Deeds.{deed_of};
ghost use Rattle.heads.specs.Heads.{head_row};

use rows::Row;
use rules::{Rest, Work};
use script::Line;
pub use seconds::second;
use standing::Deed;
pub use statuses::{bit, configuration, protocol, status_bit};

// The row of a line, by what it asks for: `ran` is the work before it, `number` what came of it.
pub fn first(
    line: u64,
    l: Line,
    number: u8,
    ran: Work,
    rest: Rest,
    sent: &[u8],
    reply: &[u8],
    marks: &[u8],
) -> Row
    ensures { result ≡ head_row (deed_of l.verb) line l number ran rest sent.now reply.now marks.now }
{
    let slots = l.slots;
    let word = l.word;
    let deed = standing::deed_of(l.verb);
    match deed {
        Deed::Event(e) => events::row(line, e, slots, number, ran, sent, reply, marks),
        Deed::Setting(s) => settings::row(line, s, slots),
        Deed::Question(q) => questions::row(line, q, slots, number, rest),
        Deed::Nothing | Deed::Post(_) | Deed::Call(_) => rows::empty(),
        Deed::Wrong => rows::wrong(line, &word, l.length, l.column),
    }
}
