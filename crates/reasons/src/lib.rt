// Why an event was refused, and what the line expected of it and did not get. specs/Reasons.antt.
#![tactic(auto)]

ghost use Rattle.std.specs.Prelude.{◌≡◌, get_or};
ghost use Rattle.grammar.specs.Verbs as verbs;
ghost use Rattle.reasons.specs.Reasons.{refused, number_row, why_row, number_unmet, unmet_row, expected_from, came_row, came_at};

use expecting::Verdict;
use grammar::Verb;
use rows::Row;
use rules::Chip;

// A frame, a completion or a power cut that was refused.
#[tactic(auto, unfolding(crate::specs::Reasons::refused))]
fn is_refused(verb: Verb, number: u8) -> bool
    ensures { result ≡ refused (verbs.number verb) number }
{
    matches!(verb, Verb::Frame | Verb::Done | Verb::Cut) && number != 0
}

// The number's line in document 01.
#[tactic(auto, unfolding(crate::specs::Reasons::number_row))]
pub fn number(verb: Verb, number: u8) -> Row
    ensures { result ≡ number_row (verbs.number verb) number }
{
    if is_refused(verb, number) {
        return rows::below(24 + usize::from(number).min(13), 0, 0, 0);
    }
    rows::empty()
}

// And what of it holds here, by the record before the event.
#[tactic(auto, unfolding(crate::specs::Reasons::why_row))]
pub fn why(
    verb: Verb,
    number: u8,
    array: usize,
    security: usize,
    wanted: usize,
    marks: usize,
    before: Chip,
    sent: &[u8],
) -> Row
    ensures { result ≡ why_row (verbs.number verb) number array security wanted marks before sent.now }
{
    let rest = before.rest;
    if is_refused(verb, number) {
        let r = rows::plain(1, 0, 0, 0);
        if number == 1 {
            return rows::malformed(r, array, security, sent.len(), wanted, marks, before);
        }
        return rows::reason(r, number, rest, sent);
    }
    rows::empty()
}

#[tactic(auto, unfolding(crate::specs::Reasons::number_unmet))]
fn number_unmet(number: u64) -> Row
    ensures { result ≡ number_unmet number }
{
    if number == 0 {
        return rows::below(186, 0, 0, 0);
    }
    rows::below(187, number, 0, 0)
}

// The number, that no refusal comes, the reply's length, that it is kept.
#[tactic(auto, unfolding(crate::specs::Reasons::unmet_row))]
pub fn unmet(i: usize, v: Verdict, number: u64, count: usize, wanted: u64) -> Row
    ensures { result ≡ unmet_row i v number count wanted }
{
    match i {
        0 if v.number => number_unmet(number),
        1 if v.strict => rows::below(189, 0, 0, 0),
        2 if v.length => rows::below(185, count as u64, wanted, 0),
        3 if v.kept => rows::below(188, 0, 0, 0),
        _ => rows::empty(),
    }
}

// The bytes expected from the first one that differs on.
#[tactic(auto, unfolding(crate::specs::Reasons::expected_from))]
pub fn expected(place: usize, compared: usize, expected: &[u8], known: &[u8]) -> Row
    ensures { result ≡ expected_from place compared expected.now known.now }
{
    if place < compared {
        return rows::expected(place, expected, known);
    }
    rows::empty()
}

// The byte at a place, 0 past the end.
fn byte_at(s: &[u8], i: usize) -> u8
    ensures { result ≡ get_or s.now i 0 }
{
    s.get(i).copied().unwrap_or(0)
}

#[tactic(auto, unfolding(crate::specs::Reasons::came_at))]
fn came_at(place: usize, came: u8, mark: u8, byte: u8, kind: u8) -> Row
    ensures { result ≡ came_at place came mark byte kind }
{
    let r = rows::below(183, place as u64, 0, 0);
    let r = rows::known_byte(r, came, mark);
    let r = rows::form(r, 184, 0, 0, 0);
    rows::form(r, 199 + usize::from(kind).min(2), u64::from(byte), 0, 0)
}

// And the byte that came there.
#[tactic(auto, unfolding(crate::specs::Reasons::came_row))]
pub fn came(
    place: usize,
    compared: usize,
    reply: &[u8],
    marks: &[u8],
    expected: &[u8],
    known: &[u8],
) -> Row
    ensures { result ≡ came_row place compared reply.now marks.now expected.now known.now }
{
    if place < compared {
        return came_at(
            place,
            byte_at(reply, place),
            byte_at(marks, place),
            byte_at(expected, place),
            byte_at(known, place),
        );
    }
    rows::empty()
}
