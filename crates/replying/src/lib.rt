// What a done frame replies.
#![tactic(auto)]

ghost use Rattle.std.specs.Prelude.{◌≡◌, length};
ghost use Rattle.rules.specs.Words.{lent, written};
ghost use Rattle.rules.specs.Reading.{shown};
ghost use Rattle.replying.specs.Replying.{Replied, Showable};

use rules::{Kind, Rest, Source};

// The reply and the marks hold one byte and one mark throughout. Where each is one byte long, as for a status, no loop is needed.
pub fn fill_both(reply: &mut [u8], marks: &mut [u8], byte: u8, mark: u8)
    ensures { Replied reply.old marks.old reply.new marks.new (λ i. record { byte = byte; mark = mark }) }
{
    if (reply.len() == 1) & (marks.len() == 1) {
        reply[0] = byte;
        marks[0] = mark;
    } else {
        reply.fill(byte);
        marks.fill(mark);
    }
}

// The bytes of a source.
fn show(
    s: Source,
    r: Rest,
    array: &[u8],
    security: &[u8],
    sent: &[u8],
    reply: &mut [u8],
    marks: &mut [u8],
)
    requires { Showable r array.now security.now reply.old marks.old }
    ensures { Replied reply.old marks.old reply.new marks.new (λ i. shown s r (lent array.now) (lent security.now) sent.now i) }
{
    match s {
        Source::Status => fill_both(reply, marks, registers::status_of(r), 1),
        Source::Configuration => fill_both(reply, marks, registers::configuration_of(r), 1),
        Source::Protection => {
            reading::read_protection(r.locks.protection, reply);
            marks.fill(1);
        }
        Source::Identity => {
            reading::read_identity(reply);
            marks.fill(1);
        }
        Source::Array => {
            let range = blocks::array_range(r.works.suspended);
            let at = opcodes::address_of(sent);
            reading::read_array(r.locks.protection, range, array, at, reply, marks);
        }
        Source::ArrayBurst => {
            let range = blocks::array_range(r.works.suspended);
            let at = opcodes::address_of(sent);
            let n = numbering::burst_length(r.burst);
            reading::read_burst(r.locks.protection, range, array, at, n, reply, marks);
        }
        Source::Security => {
            let at = opcodes::security_address_of(sent);
            reading::read_security(security, at, reply);
            marks.fill(1);
        }
    }
}

// The reply of a done frame of kind k.
pub fn respond(
    k: Kind,
    r: Rest,
    array: &[u8],
    security: &[u8],
    sent: &[u8],
    reply: &mut [u8],
    marks: &mut [u8],
)
    requires { Showable r array.now security.now reply.old marks.old }
    ensures { Replied reply.old marks.old reply.new marks.new (λ i. Rattle.rules.specs.Reading.reply k r (lent array.now) (lent security.now) sent.now i) }
{
    match k {
        Kind::Show(s) => show(s, r, array, security, sent, reply, marks),
        Kind::Begin(_) | Kind::Do(_) => fill_both(reply, marks, 255, 0),
    }
}
