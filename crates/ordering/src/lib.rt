// The parts of what is told of a line, one after the other. specs/Order.antt.
#![tactic(auto)]

ghost use Rattle.std.specs.Prelude.{◌≡◌};
ghost use Rattle.grammar.specs.Verbs as verbs;
ghost use Rattle.ordering.specs.Order.{nothing, begun, is_over, part_after, remark_rows, rows_of, after};

use grammar::Verb;
use standing::Playing;

// The parts, in their order. A part has one row or more; a row of no bytes is none.
#[derive(Clone, Copy)]
pub enum Part {
    Remark,
    Head,
    Second,
    Bytes,
    More,
    Configuration,
    Bits,
    Protocol,
    Number,
    Why,
    Torn,
    Unmet,
    Expected,
    Came,
    Memory,
    Over,
}

// How far the telling of a line is: the part, and the row in it.
#[derive(Clone, Copy)]
pub struct Place {
    pub part: Part,
    pub row: usize,
}

pub fn nothing() -> Place
    ensures { result ≡ nothing }
{
    Place {
        part: Part::Over,
        row: 0,
    }
}

// Where the last byte ended a line, that line is told.
pub fn begun(p: Playing) -> Place
    ensures { result ≡ begun p.reading.ended }
{
    if p.reading.ended {
        Place {
            part: Part::Remark,
            row: 0,
        }
    } else {
        nothing()
    }
}

pub fn is_over(at: Place) -> bool
    ensures { result ≡ is_over at.part }
{
    matches!(at.part, Part::Over)
}

// A match of every part, since it is the order itself.
fn part_after(part: Part) -> Part
    ensures { result ≡ part_after part }
{
    match part {
        Part::Remark => Part::Head,
        Part::Head => Part::Second,
        Part::Second => Part::Bytes,
        Part::Bytes => Part::More,
        Part::More => Part::Configuration,
        Part::Configuration => Part::Bits,
        Part::Bits => Part::Protocol,
        Part::Protocol => Part::Number,
        Part::Number => Part::Why,
        Part::Why => Part::Torn,
        Part::Torn => Part::Unmet,
        Part::Unmet => Part::Expected,
        Part::Expected => Part::Came,
        Part::Came => Part::Memory,
        Part::Memory => Part::Over,
        Part::Over => Part::Over,
    }
}

// How many rows of 79 bytes a remark of n bytes has.
#[tactic(auto, unfolding(crate::specs::Order::remark_rows))]
fn remark_rows(n: usize) -> usize
    ensures { result ≡ remark_rows n }
{
    n.div_ceil(79)
}

// How many rows a part has.
fn rows_of(part: Part, remark: usize, verb: Verb, full: bool, slots: [u64; 24]) -> usize
    ensures { result ≡ rows_of part remark (verbs.number verb) full slots }
{
    match part {
        Part::Remark => remark_rows(remark.min(65537)),
        Part::Bytes => showing::count(verb, full, slots),
        Part::Bits => 3,
        Part::Torn => 2,
        Part::Unmet => 4,
        _ => 1,
    }
}

// The next row of the part, or the first one of the next part.
pub fn next(p: Playing, at: Place) -> Place
    ensures { result ≡ after p at }
{
    let reading = p.reading;
    let bench = p.bench;
    let l = script::line_of(reading);
    let slots = l.slots;
    let part = at.part;
    let row = at.row.wrapping_add(1);
    let n = rows_of(part, l.remark, l.verb, bench.full, slots);
    if row < n {
        return Place { part, row };
    }
    Place {
        part: part_after(part),
        row: 0,
    }
}
