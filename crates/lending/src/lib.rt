// An event on as much of the memories as is lent, with the reply and the marks that a line wants. specs/Lending.antt.
#![tactic(auto)]

ghost use Rattle.std.specs.Prelude.{◌≡◌};
ghost use Rattle.rules.specs.Numbers.{answer_number};
ghost use Rattle.rules.specs.Machine.{completion, power_cut};
ghost use Rattle.chip.specs.declared.events.Event.{Event};
ghost use Rattle.lending.specs.Lending.{state_lent_lem, wanted, marks_wanted, tear_said, outcome, Ended, Happened};

use rules::{After, Chip, Circumstances, Tear};
use script::Line;
use standing::{Bench, Event};

// How many reply bytes a line wants.
pub fn wanted(e: Event, slots: [u64; 24]) -> usize
    ensures { result ≡ wanted e slots }
{
    match e {
        Event::Frame => slots[1] as usize,
        _ => 0,
    }
}

// Marks are as many as the reply where the line does not say how many.
pub fn marks_given(slots: [u64; 24]) -> usize
    ensures { result ≡ marks_wanted Event.Frame slots }
{
    let n = if slots[2] == 0 { slots[1] } else { slots[3] };
    n as usize
}

pub fn marks_wanted(e: Event, slots: [u64; 24]) -> usize
    ensures { result ≡ marks_wanted e slots }
{
    match e {
        Event::Frame => marks_given(slots),
        _ => 0,
    }
}

// Where a line stops what runs: its count, and its byte or, where none stands, the m of document 01.
pub fn tear_of(c: Chip, slots: [u64; 24]) -> Tear
    ensures { result ≡ tear_said c slots }
{
    let m = if slots[9] == 0 {
        blocks::clean_m(c.rest.works.running)
    } else {
        (slots[9] % 256) as u8
    };
    Tear { k: slots[7], m }
}

// Reply and marks hold 5A and 07 before a frame, so that `kept` can be seen.
fn sent(
    b: Bench,
    l: Line,
    array: &mut [u8],
    security: &mut [u8],
    frame: &[u8],
    reply: &mut [u8],
    marks: &mut [u8],
) -> After
    ensures { Happened (outcome Event.Frame b l array.old security.old frame.now reply.old marks.old) (answer_number result.answer) result.chip array.old security.old reply.old marks.old array.new security.new reply.new marks.new }
{
    let c = b.chip;
    let slots = l.slots;
    let a = b.array.min(array.len());
    let s = b.security.min(security.len());
    let n = l.sent.min(frame.len());
    let r = wanted(Event::Frame, slots).min(reply.len());
    let m = marks_given(slots).min(marks.len());
    let tear = tear_of(c, slots);
    reply[..r].fill(0x5a);
    marks[..m].fill(0x07);
    chip::frame(
        c,
        &mut array[..a],
        &mut security[..s],
        &frame[..n],
        &mut reply[..r],
        &mut marks[..m],
        Circumstances { tear },
    )
}

fn ended(b: Bench, array: &mut [u8], security: &mut [u8]) -> After
    ensures { Ended (completion (state_lent_lem b array.old security.old)) (answer_number result.answer) result.chip array.old security.old array.new security.new }
{
    let a = b.array.min(array.len());
    let s = b.security.min(security.len());
    chip::completion(b.chip, &mut array[..a], &mut security[..s])
}

fn cut(b: Bench, tear: Tear, array: &mut [u8], security: &mut [u8]) -> After
    ensures { Ended (power_cut (state_lent_lem b array.old security.old) tear) (answer_number result.answer) result.chip array.old security.old array.new security.new }
{
    let a = b.array.min(array.len());
    let s = b.security.min(security.len());
    chip::power_cut(b.chip, &mut array[..a], &mut security[..s], tear)
}

// The event on the chip.
pub fn happened(
    b: Bench,
    e: Event,
    l: Line,
    array: &mut [u8],
    security: &mut [u8],
    frame: &[u8],
    reply: &mut [u8],
    marks: &mut [u8],
) -> After
    ensures { Happened (outcome e b l array.old security.old frame.now reply.old marks.old) (answer_number result.answer) result.chip array.old security.old reply.old marks.old array.new security.new reply.new marks.new }
{
    match e {
        Event::Frame => sent(b, l, array, security, frame, reply, marks),
        Event::Completion => ended(b, array, security),
        Event::Cut => cut(b, tear_of(b.chip, l.slots), array, security),
    }
}
