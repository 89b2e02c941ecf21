// A row of what is told. specs/Parts.antt.
ghost use Rattle.std.specs.Prelude.{◌≡◌};
ghost use Rattle.standing.specs.Benches.{front};
ghost use Rattle.grammar.specs.Verbs as verbs;
ghost use Rattle.telling.specs.Parts.{remark_part, torn_part, part_row, row_of};

use grammar::Verb;
use lending::marks_given;
use ordering::{Part, Place};
use rows::Row;
use rules::Work;
use script::Line;
use standing::Playing;

#[tactic(auto, unfolding(crate::specs::Parts::remark_part))]
fn remark_row(remark: &[u8], i: usize) -> Row
    ensures { result ≡ remark_part remark.now i }
{
    let from = i.min(65537) * 79;
    if from < remark.len() {
        return rows::remark(remark, from);
    }
    rows::empty()
}

// What the line stopped, and what it tore.
#[tactic(auto, unfolding(crate::specs::Parts::torn_part))]
fn torn_row(
    i: usize,
    verb: Verb,
    number: u8,
    ran: Work,
    slots: [u64; 24],
    sent: &[u8],
    array: &[u8],
    security: &[u8],
) -> Row
    ensures { result ≡ torn_part i (verbs.number verb) number ran slots sent.now array.now security.now }
{
    if i == 0 {
        return tear_rows::stopped(verb, number, ran, slots[7], sent);
    }
    tear_rows::torn(verb, number, ran, slots, sent, array, security)
}

// A part's row i of a line, with what is lent cut to what the line is about.
fn part_row(
    part: Part,
    i: usize,
    p: Playing,
    l: Line,
    sent: &[u8],
    expected: &[u8],
    known: &[u8],
    remark: &[u8],
    reply: &[u8],
    marks: &[u8],
    array: &[u8],
    security: &[u8],
) -> Row
    ensures { result ≡ part_row part i p l sent.now expected.now known.now remark.now reply.now marks.now array.now security.now }
{
    let bench = p.bench;
    let chip = bench.chip;
    let rest = chip.rest;
    let works = rest.works;
    let aside = works.suspended;
    let flags = rest.flags;
    let burst = rest.burst;
    let before = p.before;
    let old = before.rest;
    let old_works = old.works;
    let ran = old_works.running;
    let v = p.verdict;
    let slots = l.slots;
    let word = l.word;
    let wanted = slots[1];
    let verb = l.verb;
    match part {
        Part::Remark => remark_row(remark, i),
        Part::Head => heads::first(bench.line, l, p.number, ran, rest, sent, reply, marks),
        Part::Second => heads::second(
            bench.line,
            verb,
            wanted as usize,
            p.number,
            aside,
            l.place,
            sent,
            reply,
            marks,
        ),
        Part::Bytes => byte_rows::row(
            verb, i, bench.full, slots, p.number, rest, sent, reply, marks, array, security,
        ),
        Part::More => byte_rows::more(
            verb, bench.full, slots, p.number, flags.wpld, l.place, word, l.length, sent,
        ),
        Part::Configuration => heads::configuration(verb, rest),
        Part::Bits => heads::bit(verb, rest, i),
        Part::Protocol => heads::protocol(verb, flags.sqi, flags.enable, flags.ba, burst),
        Part::Number => reasons::number(verb, p.number),
        Part::Why => reasons::why(
            verb,
            p.number,
            bench.array,
            bench.security,
            wanted as usize,
            marks_given(slots),
            before,
            sent,
        ),
        Part::Torn => torn_row(i, verb, p.number, ran, slots, sent, array, security),
        Part::Unmet => reasons::unmet(i, v, slots[6], l.expected, wanted),
        Part::Expected => reasons::expected(v.place, v.compared, expected, known),
        Part::Came => reasons::came(v.place, v.compared, reply, marks, expected, known),
        Part::Memory => byte_rows::unheld(verb, p.held, slots, rest, array, security, expected),
        Part::Over => rows::empty(),
    }
}

// The first n bytes, where there are as many.
fn front(s: &[u8], n: usize) -> &[u8]
    ensures { result.now ≡ front n s.now }
{
    &s[..n.min(s.len())]
}

// A row of what is told of the line that was played.
pub fn row(
    p: Playing,
    at: Place,
    frame: &[u8],
    expected: &[u8],
    known: &[u8],
    remark: &[u8],
    reply: &[u8],
    marks: &[u8],
    array: &[u8],
    security: &[u8],
) -> Row
    ensures { result ≡ row_of p at frame.now expected.now known.now remark.now reply.now marks.now array.now security.now }
{
    let reading = p.reading;
    let l = script::line_of(reading);
    let slots = l.slots;
    let part = at.part;
    let i = at.row;
    part_row(
        part,
        i,
        p,
        l,
        front(frame, l.sent),
        front(expected, l.expected),
        front(known, l.expected),
        front(remark, l.remark),
        front(reply, slots[1] as usize),
        front(marks, marks_given(slots)),
        front(array, 2097152),
        front(security, 2048),
    )
}
