// Any of the three events where the page buffer lies with the caller: it changes in place, the rest of the record goes in and out by value.
ghost use Rattle.std.specs.Prelude.{◌≡◌, ◌&&◌, eqb, length};
ghost use Rattle.rules.specs.Blocks.{array_size_lem, security_size_lem};
ghost use Rattle.rules.specs.Fields.{works_of, chip_of};
ghost use Rattle.rules.specs.declared.Work.TheVariants.{Nothing};
ghost use Rattle.rules.specs.WellFormed.{well_formed};
ghost use Rattle.rules.specs.Numbers.{answer_number};
ghost use Rattle.rules.specs.Promises.{bench_of, returned_of, after_of};
ghost use Rattle.rules.specs.Demands.{Meets};
ghost use Rattle.chip.specs.Turns.{cutting, resetting, stop_call, Stoppable, Turnable, TurnPromise};

use rules::{Circumstances, Refusal, Rest, Turn};

// A frame, a completion, or a power cut.
#[derive(Clone, Copy, PartialEq, Eq)]
pub enum Event {
    Frame,
    Completion,
    Cut,
}

// The record is well-formed and the two memories have their sizes.
pub fn state_right(r: Rest, page: &[u8], array_len: usize, security_len: usize) -> bool
    requires { length page.now ≡ 256 }
    ensures { result ≡ (well_formed (chip_of page.now r) && eqb array_len array_size_lem && eqb security_len security_size_lem) }
{
    records::well_formed(r, page) & (array_len == 2097152) & (security_len == 2048)
}

// ---- an event that stops what runs

// A power cut that is not refused.
pub fn cuts(e: Event, known: bool) -> bool
    ensures { result ≡ cutting e known }
{
    matches!(e, Event::Cut) & known
}

// An accepted 99.
pub fn resets(
    e: Event,
    known: bool,
    r: Rest,
    sent: &[u8],
    reply_len: usize,
    marks_len: usize,
) -> bool
    ensures { result ≡ resetting e known r sent.now reply_len marks_len }
{
    matches!(e, Event::Frame) && framing::resets(known, r, sent, reply_len, marks_len)
}

// Either of them: with power-up, or without. Nothing runs or is suspended after it.
pub fn stop_turn(
    up: bool,
    r: Rest,
    page: &mut [u8],
    array: &mut [u8],
    security: &mut [u8],
    reply: &mut [u8],
    marks: &mut [u8],
    x: Circumstances,
) -> Turn
    requires { Stoppable up r page.old array.old security.old reply.old marks.old }
    ensures met { Meets (bench_of (chip_of page.old r) array.old security.old) (stop_call up reply.old marks.old x) (returned_of (after_of result page.new) array.new security.new reply.new marks.new) }
    ensures idle { (answer_number result.answer ≡ 0) × (result.rest.works ≡ works_of Nothing Nothing) }
{
    if up {
        return ending::cut_turn(true, r, page, array, security, x.tear);
    }
    framing::reset_turn(r, page, array, security, reply, marks, x)
}

// ---- one that does not

// One place from which all are called: the rest of the record crosses no call.
pub fn take_turn(
    e: Event,
    known: bool,
    r: Rest,
    page: &mut [u8],
    array: &mut [u8],
    security: &mut [u8],
    sent: &[u8],
    reply: &mut [u8],
    marks: &mut [u8],
) -> Turn
    requires { Turnable e known r page.old array.old security.old sent.now reply.old marks.old }
    ensures { TurnPromise (bench_of (chip_of page.old r) array.old security.old) e sent.now reply.old marks.old (returned_of (after_of result page.new) array.new security.new reply.new marks.new) }
{
    match e {
        Event::Frame => framing::plain_turn(known, r, page, array, security, sent, reply, marks),
        Event::Completion => ending::completion_turn(known, r, page, array, security),
        Event::Cut => Turn {
            answer: Err(Refusal::Malformed),
            rest: r,
        },
    }
}
