// Frames, completions and power cuts of a script: the event, and what the line expected of it. specs/Events.antt.
#![tactic(auto)]

ghost use Rattle.std.specs.Prelude.{◌≡◌};
ghost use Rattle.happening.specs.Events.{JudgedLine, counted, EventPlayed};

use expecting::{Marked, Verdict};
use lending::{happened, marks_wanted, wanted};
use rules::After;
use script::Line;
use standing::{Bench, Event, Playing};

// What the line expected of an event that gave this number.
fn judged(
    p: Playing,
    e: Event,
    l: Line,
    number: u8,
    reply: &[u8],
    marks: &[u8],
    expected: &[u8],
    known: &[u8],
) -> Verdict
    ensures { JudgedLine p e l number reply.now marks.now expected.now known.now result }
{
    let slots = l.slots;
    let r = wanted(e, slots).min(reply.len());
    let m = marks_wanted(e, slots).min(marks.len());
    let x = l.expected.min(expected.len());
    let k = l.expected.min(known.len());
    let expectation = standing::expectation(slots, x);
    let came = Marked {
        bytes: &reply[..r],
        marks: &marks[..m],
    };
    let awaited = Marked {
        bytes: &expected[..x],
        marks: &known[..k],
    };
    expecting::judge(expectation, p.bench.strict, number, &came, &awaited)
}

// After an event that gave these.
fn counted(p: Playing, after: After, number: u8, v: Verdict) -> Playing
    ensures { result ≡ counted p number after.chip v }
{
    let bench = Bench {
        chip: after.chip,
        tally: tallies::with_event(p.bench.tally, number, expecting::unmet(v)),
        ..p.bench
    };
    Playing {
        bench,
        number,
        verdict: v,
        ..p
    }
}

// The event on the chip, and what the line expected of it.
pub fn played(
    p: Playing,
    e: Event,
    l: Line,
    array: &mut [u8],
    security: &mut [u8],
    frame: &[u8],
    expected: &[u8],
    known: &[u8],
    reply: &mut [u8],
    marks: &mut [u8],
) -> Playing
    ensures { EventPlayed p e l array.old security.old frame.now expected.now known.now reply.old marks.old result array.new security.new reply.new marks.new }
{
    let after = happened(p.bench, e, l, array, security, frame, reply, marks);
    let number = chip::answer_number(after.answer);
    let v = judged(p, e, l, number, reply, marks, expected, known);
    counted(p, after, number, v)
}
