// A reply that does not stand on the frame's row. specs/Bytes.antt.
ghost use Rattle.std.specs.Prelude.{◌≡◌};
ghost use Rattle.byte_rows.specs.Bytes.{below_frame, reply_part, reply_more};

use rows::Row;

#[tactic(auto, unfolding(crate::specs::Bytes::below_frame))]
fn below_frame(number: u8, sent: &[u8], n: usize) -> bool
    ensures { result ≡ below_frame number sent.now n }
{
    number == 0 && !rows::reply_on_row(sent, n)
}

#[tactic(auto, unfolding(crate::specs::Bytes::reply_part))]
pub fn row(
    full: bool,
    wanted: usize,
    number: u8,
    i: usize,
    sent: &[u8],
    reply: &[u8],
    marks: &[u8],
) -> Row
    ensures { result ≡ reply_part full wanted number i sent.now reply.now marks.now }
{
    let from = i.min(4097) * 16;
    let told = showing::reply_shown(full, wanted);
    let below = below_frame(number, sent, reply.len());
    if below && from < told {
        return rows::reply(from, reply, marks);
    }
    rows::empty()
}

#[tactic(auto, unfolding(crate::specs::Bytes::reply_more))]
pub fn more(full: bool, wanted: usize, number: u8, sent: &[u8]) -> Row
    ensures { result ≡ reply_more full wanted number sent.now }
{
    let told = showing::reply_shown(full, wanted);
    let below = below_frame(number, sent, wanted);
    if below && told < wanted {
        return rows::below(196, describing::less(wanted, told), 0, 0);
    }
    rows::empty()
}
