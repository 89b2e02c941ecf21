// The second model beside the first: the same line, with memories of its own, and in what the two differ. A part of the program trial, apart so that it is
// proved beside other crates; like it safe and ending, with no contract: that each comparison is made is shown by differences planted for it.
#![tactic(auto)]

pub mod bytes;
pub mod comparisons;
pub mod mapping;

use bytes::{front, front_mut, same_front};
use mapping::{flat_of, same_records};
use script::Line;
use second::{Extra, Flat, Step};
use standing::{Deed, Event, Playing, Setting};
use std::fmt;

// The memories and buffers that a model is lent, each with a byte more than it may be.
#[derive(Drop)]
pub struct Side<'a> {
    pub array: &'a mut [u8; 2097153],
    pub security: &'a mut [u8; 2049],
    pub reply: &'a mut [u8; 65537],
    pub marks: &'a mut [u8; 65537],
}

// Where a line stops what runs. Without m it is document 01's: FF of a program and 00 of an erase, by the second model's own record.
fn extra_of(f: Flat, slots: [u64; 24]) -> Extra {
    let m = match (slots[9], f.run_kind) {
        (0, 1 | 2 | 3) => 0x00,
        (0, _) => 0xff,
        (m, _) => (m % 256) as u8,
    };
    Extra { k: slots[7], m }
}

// The event on as much of each memory as the first model was lent. Reply and marks hold 5A and 07 before it, as the first model's do.
fn happened(
    f: Flat,
    e: Event,
    x: Extra,
    array: &mut [u8],
    security: &mut [u8],
    sent: &[u8],
    reply: &mut [u8],
    marks: &mut [u8],
) -> Step {
    reply.fill(0x5a);
    marks.fill(0x07);
    match e {
        Event::Frame => second::frame(f, array, security, sent, reply, marks, x),
        Event::Completion => second::completion(f, array, security),
        Event::Cut => second::power_cut(f, array, security, x.k, x.m),
    }
}

// A completion and a power cut want no reply.
fn event(f: Flat, e: Event, p: Playing, l: Line, sent: &[u8], side: &mut Side) -> Step {
    let array = &mut *side.array;
    let security = &mut *side.security;
    let reply = &mut *side.reply;
    let marks = &mut *side.marks;
    happened(
        f,
        e,
        extra_of(f, l.slots),
        front_mut(p.bench.array, array),
        front_mut(p.bench.security, security),
        front(l.sent, sent),
        front_mut(l.slots[1] as usize, reply),
        front_mut(lending::marks_given(l.slots), marks),
    )
}

// A new chip is the second model's own, of the part that the line says; any other record is the first model's.
fn chip_set(s: Setting, slots: [u64; 24], p: Playing) -> Flat {
    match s {
        Setting::New if slots[10] == 0 => second::fresh(),
        Setting::New => second::fresh_old(),
        _ => flat_of(p.bench.chip),
    }
}

// The line on the second model. What is set is set here too, and a question asks the first one.
pub fn played(f: Flat, p: Playing, l: Line, sent: &[u8; 65537], side: &mut Side) -> Step {
    match standing::deed_of(l.verb) {
        Deed::Event(e) => event(f, e, p, l, sent, side),
        Deed::Setting(s) => {
            let array = &mut *side.array;
            let security = &mut *side.security;
            arranging::arrange(s, l.slots, array, security);
            Step {
                number: 0,
                state: chip_set(s, l.slots, p),
            }
        }
        // Calls of the store are compared by a program of their own; here they are a difference, so that none passes in silence.
        Deed::Call(_) => Step {
            number: 255,
            state: f,
        },
        Deed::Nothing | Deed::Question(_) | Deed::Post(_) | Deed::Wrong => Step {
            number: p.number,
            state: f,
        },
    }
}

// ---- a planted difference

// What it is in: what each comparison looks at, in their order, and the record's part.
#[derive(Clone, Copy, PartialEq, Eq)]
pub enum Plant {
    Number,
    Record,
    Reply,
    Marks,
    Array,
    SecurityId,
    Part,
}

impl Plant {
    // The one that is planted after it. Listed by hand: no derive gives an enum's variants.
    pub fn next(self) -> Option<Plant> {
        match self {
            Plant::Number => Some(Plant::Record),
            Plant::Record => Some(Plant::Reply),
            Plant::Reply => Some(Plant::Marks),
            Plant::Marks => Some(Plant::Array),
            Plant::Array => Some(Plant::SecurityId),
            Plant::SecurityId => Some(Plant::Part),
            Plant::Part => None,
        }
    }
}

impl fmt::Display for Plant {
    fn fmt<W: fmt::Write>(&self, f: &mut fmt::Formatter<W>) -> fmt::Result {
        f.write_str(match self {
            Plant::Number => "another number",
            Plant::Record => "another record",
            Plant::Reply => "another reply",
            Plant::Marks => "other marks",
            Plant::Array => "another array",
            Plant::SecurityId => "another Security ID",
            Plant::Part => "another part",
        })
    }
}

// The step of the second model and its memories, with the difference.
pub fn planted(plant: Plant, s: Step, side: &mut Side) -> Step {
    let mut next = s;
    match plant {
        Plant::Number => next.number ^= 1,
        Plant::Record => next.state.wel = !s.state.wel,
        Plant::Reply => side.reply[0] ^= 1,
        Plant::Marks => side.marks[0] ^= 1,
        Plant::Array => side.array[0] ^= 1,
        Plant::SecurityId => side.security[0] ^= 1,
        Plant::Part => next.state.ba = !s.state.ba,
    }
    next
}

// ---- the comparisons

// In what the two differ after a line.
#[derive(Clone, Copy, PartialEq, Eq, Default)]
pub struct Odd {
    pub number: bool,
    pub record: bool,
    pub reply: bool,
    pub marks: bool,
    pub array: bool,
    pub security: bool,
}

// The memories are compared where the whole is.
pub fn compared(p: Playing, l: Line, s: Step, whole: bool, one: &Side, two: &Side) -> Odd {
    let replied = l.slots[1] as usize;
    let marked = lending::marks_given(l.slots);
    Odd {
        number: p.number != s.number,
        record: !same_records(p.bench.chip, s.state),
        reply: !same_front(replied, one.reply, two.reply),
        marks: !same_front(marked, one.marks, two.marks),
        array: whole && *one.array != *two.array,
        security: whole && *one.security != *two.security,
    }
}
