// Rows of bytes: a long reply, the bits of a status, the locks by address, a dump; what is left out of them; a memory that is not as expected. specs/.
#![tactic(auto)]

mod dumps;
mod locks;
mod replies;
mod unhelds;

ghost use Rattle.std.specs.Prelude.{◌≡◌};
ghost use Rattle.grammar.specs.Verbs as verbs;
ghost use Rattle.byte_rows.specs.Bytes.{byte_row, hint_row, more_row};

use grammar::Verb;
use rows::Row;
use rules::Rest;
pub use unhelds::unheld;

// Row i of a line's bytes.
#[tactic(auto, unfolding(crate::specs::Bytes::byte_row))]
pub fn row(
    verb: Verb,
    i: usize,
    full: bool,
    slots: [u64; 24],
    number: u8,
    rest: Rest,
    sent: &[u8],
    reply: &[u8],
    marks: &[u8],
    array: &[u8],
    security: &[u8],
) -> Row
    ensures { result ≡ byte_row (verbs.number verb) i full slots number rest sent.now reply.now marks.now array.now security.now }
{
    let locks = rest.locks;
    let wanted = slots[1] as usize;
    match verb {
        Verb::Frame => replies::row(full, wanted, number, i, sent, reply, marks),
        Verb::Status => heads::status_bit(rest, i),
        Verb::Locks => locks::row(i, locks.protection, locks.permanent),
        Verb::Dump => dumps::row(full, slots, i, array, security),
        _ => rows::empty(),
    }
}

// What a wrong word may have been meant to be.
#[tactic(auto, unfolding(crate::specs::Bytes::hint_row))]
fn hint(place: u8, word: [u8; 24], length: usize) -> Row
    ensures { result ≡ hint_row place word length }
{
    match hinting::hint_of(place, &word, length) {
        None => rows::empty(),
        Some(h) => rows::form(rows::below(178, 0, 0, 0), 179 + h as usize, 0, 0, 0),
    }
}

// What is left out, the lock-down, or a hint.
#[tactic(auto, unfolding(crate::specs::Bytes::more_row))]
pub fn more(
    verb: Verb,
    full: bool,
    slots: [u64; 24],
    number: u8,
    wpld: bool,
    place: u8,
    word: [u8; 24],
    length: usize,
    sent: &[u8],
) -> Row
    ensures { result ≡ more_row (verbs.number verb) full slots number wpld place word length sent.now }
{
    let wanted = slots[1] as usize;
    match verb {
        Verb::Frame => replies::more(full, wanted, number, sent),
        Verb::Locks => locks::down(wpld),
        Verb::Dump => dumps::more(full, slots),
        Verb::Wrong => hint(place, word, length),
        _ => rows::empty(),
    }
}
