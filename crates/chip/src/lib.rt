// The bench chip: a new chip, a frame, a completion, a power cut.
#![tactic(auto)]

mod events;
mod numbers;

ghost use Rattle.std.specs.Prelude.{◌≡◌, []};
ghost use Rattle.rules.specs.Commands.{new_of, new_chip, new_old_chip};
ghost use Rattle.rules.specs.Promises.{bench_of, carried_of, returned_of, after_of, FramePromise, CompletionPromise, CutPromise};

pub use events::{Event, cuts, resets, state_right, stop_turn, take_turn};
pub use numbers::answer_number;
use rules::{After, Chip};
pub use rules::{Circumstances, Tear, Turn};

// A new chip of a part: BA, or the old one.
#[tactic(auto, unfolding(rules::specs::Programs::blank))]
pub fn new_of(ba: bool) -> Chip
    ensures { result ≡ new_of ba }
{
    Chip {
        buffer: [255; 256],
        rest: power::new_rest(ba),
    }
}

// A new chip: a BA.
pub fn new() -> Chip
    ensures { result ≡ new_chip }
{
    new_of(true)
}

// A new chip of the old part.
pub fn new_old() -> Chip
    ensures { result ≡ new_old_chip }
{
    new_of(false)
}

// What an event by value gives back: the turn, with the page buffer in its record.
fn after(t: Turn, page: [u8; 256]) -> After
    ensures { result ≡ after_of t page }
{
    After {
        answer: t.answer,
        chip: Chip {
            buffer: page,
            rest: t.rest,
        },
    }
}

// A frame: the bytes sent while CE# is low, the two reply buffers, and where a reset tears what runs.
pub fn frame(
    c: Chip,
    array: &mut [u8],
    security: &mut [u8],
    sent: &[u8],
    reply: &mut [u8],
    marks: &mut [u8],
    circumstances: Circumstances,
) -> After
    ensures { FramePromise (bench_of c array.old security.old) (carried_of sent.now reply.old marks.old circumstances) (returned_of result array.new security.new reply.new marks.new) }
{
    let mut page = c.buffer;
    let known = events::state_right(c.rest, &page, array.len(), security.len());
    let t = framing::frame_turn(
        known,
        c.rest,
        &mut page,
        array,
        security,
        sent,
        reply,
        marks,
        circumstances,
    );
    after(t, page)
}

// The running operation ends.
pub fn completion(c: Chip, array: &mut [u8], security: &mut [u8]) -> After
    ensures { CompletionPromise (bench_of c array.old security.old) (returned_of result array.new security.new [] []) }
{
    let mut page = c.buffer;
    let known = events::state_right(c.rest, &page, array.len(), security.len());
    let t = ending::completion_turn(known, c.rest, &mut page, array, security);
    after(t, page)
}

// A power cut in the middle of the running operation.
pub fn power_cut(c: Chip, array: &mut [u8], security: &mut [u8], tear: Tear) -> After
    ensures { CutPromise (bench_of c array.old security.old) tear (returned_of result array.new security.new [] []) }
{
    let mut page = c.buffer;
    let known = events::state_right(c.rest, &page, array.len(), security.len());
    let t = ending::cut_turn(known, c.rest, &mut page, array, security, tear);
    after(t, page)
}
