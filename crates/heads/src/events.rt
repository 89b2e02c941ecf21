// The row of an event. specs/Heads.antt.
ghost use Rattle.std.specs.Prelude.{◌≡◌};
ghost use Rattle.heads.specs.Heads.{frame_row, event_row};

use rows::Row;
use rules::Work;
use standing::Event;

// The frame, and beside it, where there is room, the command and the answer.
#[tactic(auto, unfolding(crate::specs::Heads::frame_row))]
fn frame(line: u64, wanted: usize, number: u8, sent: &[u8], reply: &[u8], marks: &[u8]) -> Row
    ensures { result ≡ frame_row line wanted number sent.now reply.now marks.now }
{
    let left = rows::sent(line, sent, wanted);
    if rows::fits(left) {
        let r = rows::form(left, 7, 0, 0, 0);
        return rows::answer(r, sent, number, reply, marks);
    }
    left
}

#[tactic(auto, unfolding(crate::specs::Heads::headed))]
pub fn row(
    line: u64,
    e: Event,
    slots: [u64; 24],
    number: u8,
    ran: Work,
    sent: &[u8],
    reply: &[u8],
    marks: &[u8],
) -> Row
    ensures { result ≡ event_row e line slots number ran sent.now reply.now marks.now }
{
    let wanted = slots[1] as usize;
    let from = slots[7];
    match e {
        Event::Frame => frame(line, wanted, number, sent, reply, marks),
        Event::Completion => rows::ended(rows::headed(line, 12, 0), ran, number),
        Event::Cut => rows::cut(rows::headed(line, 13, from), ran, from, number),
    }
}
