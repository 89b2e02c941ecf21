// The player: what a line of a script does to the bench. A script's bytes come one by one; a line that has ended is played.
#![tactic(auto)]

ghost use Rattle.std.specs.Prelude.{◌≡◌};
ghost use Rattle.playing.specs.Lines.{Played, Taken};

use script::Line;
use standing::{Deed, Playing, deed_of, next_line, with_reading, wrong};

fn play(
    p: Playing,
    l: Line,
    array: &mut [u8],
    security: &mut [u8],
    frame: &[u8],
    expected: &[u8],
    known: &[u8],
    reply: &mut [u8],
    marks: &mut [u8],
) -> Playing
    ensures { Played p l array.old security.old frame.now expected.now known.now reply.old marks.old result array.new security.new reply.new marks.new }
{
    let now = next_line(p);
    match deed_of(l.verb) {
        Deed::Nothing => now,
        Deed::Event(e) => happening::played(
            now, e, l, array, security, frame, expected, known, reply, marks,
        ),
        Deed::Setting(s) => arranging::played(now, s, l.slots, array, security),
        Deed::Question(q) => asking::played(now, q, l, array, security, expected, known),
        // what is done with a file, or with the station list, is done above: crates `posting` and `calling`. Two arms: of one for both a goal was left
        Deed::Post(_) => now,
        Deed::Call(_) => now,
        Deed::Wrong => wrong(now),
    }
}

// One byte of the script: where it ends a line, the line is played.
pub fn take(
    p: Playing,
    b: u8,
    array: &mut [u8; 2097153],
    security: &mut [u8; 2049],
    frame: &mut [u8; 65537],
    expected: &mut [u8; 65537],
    known: &mut [u8; 65537],
    remark: &mut [u8; 65537],
    reply: &mut [u8; 65537],
    marks: &mut [u8; 65537],
) -> Playing
    ensures { Taken p b array.old security.old frame.old expected.old known.old remark.old reply.old marks.old result array.new security.new frame.new expected.new known.new remark.new reply.new marks.new }
{
    let reading = script::step(p.reading, b, frame, expected, known, remark);
    let now = with_reading(p, reading);
    if reading.ended {
        let line = script::line_of(reading);
        return play(
            now, line, array, security, frame, expected, known, reply, marks,
        );
    }
    now
}
