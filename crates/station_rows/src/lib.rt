// The rows of a line that stores a station, finds one or asks for the list. specs/Stations.antt.
#![tactic(auto)]

mod heads;
mod listings;
mod whys;

ghost use Rattle.std.specs.Prelude.{◌≡◌};
ghost use Rattle.station_rows.specs.Stations.{sure, part_row, cut_row, row_of};
ghost use Rattle.reasons.specs.Reasons.{came_row};

use calling::Account;
use ordering::{Part, Place};
use rows::Row;
use script::Line;
use slots::ListRead;
use standing::{Call, Playing};

// The byte that came where what was found differs.
fn came(place: usize, compared: usize, bytes: &[u8; 28], expected: &[u8], known: &[u8]) -> Row
    ensures { result ≡ came_row place compared bytes.now sure expected.now known.now }
{
    let ones = [1u8; 28];
    reasons::came(place, compared, bytes, &ones, expected, known)
}

fn part_row(
    part: Part,
    i: usize,
    k: Call,
    p: Playing,
    a: Account,
    l: Line,
    expected: &[u8],
    known: &[u8],
    read: &ListRead,
) -> Row
    ensures { result ≡ part_row part i k p a l expected.now known.now read.now.reply.now read.now.marks.now }
{
    let bench = p.bench;
    let before = p.before;
    let v = a.verdict;
    let bytes = a.bytes;
    let slots = l.slots;
    let n = calls::station_of(slots);
    match part {
        Part::Remark => rows::empty(),
        Part::Head => heads::row(k, bench.line, n, p.number, a, read),
        Part::Second => rows::empty(),
        Part::Bytes => listings::bytes(k, p.number, a, i, read),
        Part::More => listings::more(k, p.number, a),
        Part::Configuration => rows::empty(),
        Part::Bits => rows::empty(),
        Part::Protocol => rows::empty(),
        Part::Number => whys::number(p.number),
        Part::Why => whys::why(
            k,
            p.number,
            n,
            whys::size_of(slots, l.sent),
            calls::allowance_of(slots),
            a.writes,
            bench.array,
            bench.security,
            before,
            read,
        ),
        Part::Torn => rows::empty(),
        Part::Unmet => whys::length_unmet(i, v, l.expected, p.number),
        Part::Expected => reasons::expected(v.place, v.compared, expected, known),
        Part::Came => came(v.place, v.compared, &bytes, expected, known),
        Part::Memory => rows::empty(),
        Part::Over => rows::empty(),
    }
}

// With what is lent cut to what the line is about.
fn cut_row(
    k: Call,
    p: Playing,
    a: Account,
    at: Place,
    expected: &[u8],
    known: &[u8],
    reply: &[u8; 65537],
    marks: &[u8; 65537],
) -> Row
    ensures { result ≡ cut_row k p a at expected.now known.now reply.now marks.now }
{
    let reading = p.reading;
    let l = script::line_of(reading);
    let part = at.part;
    let x = l.expected.min(expected.len());
    let y = l.expected.min(known.len());
    let read = ListRead {
        reply: &reply[..65536],
        marks: &marks[..65536],
    };
    part_row(part, at.row, k, p, a, l, &expected[..x], &known[..y], &read)
}

// A row of what is told of the line that was played, where that line has a call.
pub fn row(
    p: Playing,
    a: Account,
    at: Place,
    expected: &[u8],
    known: &[u8],
    reply: &[u8; 65537],
    marks: &[u8; 65537],
) -> Row
    ensures { result ≡ row_of p a at expected.now known.now reply.now marks.now }
{
    match calling::asked(p) {
        None => rows::empty(),
        Some(k) => cut_row(k, p, a, at, expected, known, reply, marks),
    }
}
