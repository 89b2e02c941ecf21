// Both models' calls and events side by side, and in what the two differ.
use crate::comparisons::Comparison;
use crate::lists::data_of;
use crate::showing;
use comparing::Side;
use comparing::comparisons::{bit, planted_number, planted_record};
use comparing::mapping::{flat_of, same_records};
use image_drawing::places::{BEFORE, all_are, turn};
use rules::{Chip, Circumstances, Tear};
use second::{Extra, Flat};
use second_stations::Store;
use stations::StoreRecord;

// A lookup's buffer, with a byte more than the data have.
type Buffer = [u8; 29];

// The memories and buffers of the two models, reply and marks with a byte more than the list has.
#[derive(Drop)]
pub struct Sides<'a> {
    pub first: Side<'a>,
    pub second: Side<'a>,
}

// The two models' records.
#[derive(Clone, Copy)]
pub struct Pair {
    pub first: StoreRecord,
    pub second: Store,
}

// As much of each memory and buffer as is lent; `bytes` is of the data or of a lookup's buffer. Not one struct with image_trial's, of which only two are the
// same: each `..RIGHT` would then be two.
#[derive(Clone, Copy)]
pub struct Lengths {
    pub array: usize,
    pub security: usize,
    pub reply: usize,
    pub marks: usize,
    pub bytes: usize,
}

pub const RIGHT: Lengths = Lengths {
    array: 2097152,
    security: 2048,
    reply: 65536,
    marks: 65536,
    bytes: 28,
};

// What a call or an event came to: the records, and in what they differ.
#[derive(Clone, Copy)]
pub struct Went {
    pub pair: Pair,
    pub odd: u64,
}

fn paired(c: Chip, f: Flat) -> Pair {
    let first = StoreRecord {
        chip: c,
        number: 0,
        polls: 0,
    };
    let second = Store {
        chip: f,
        number: 0,
        polls: 0,
    };
    Pair { first, second }
}

// Any record, of both.
pub fn pair_of(c: Chip) -> Pair {
    paired(c, flat_of(c))
}

// New chips: each model's own.
pub fn new_pair() -> Pair {
    paired(chip::new(), second::fresh())
}

// ---- what is lent

fn on_parts<R, F: FnOnce(&mut [u8], &mut [u8], &mut [u8], &mut [u8]) -> R>(
    l: Lengths,
    array: &mut [u8],
    security: &mut [u8],
    reply: &mut [u8],
    marks: &mut [u8],
    f: F,
) -> R
    requires { F.IsAlwaysCallable f }
{
    let a = l.array.min(array.len());
    let i = l.security.min(security.len());
    let r = l.reply.min(reply.len());
    let m = l.marks.min(marks.len());
    f(
        &mut array[..a],
        &mut security[..i],
        &mut reply[..r],
        &mut marks[..m],
    )
}

// What a model does on as much of each memory and buffer as is lent.
fn on_lent<R, F: FnOnce(&mut [u8], &mut [u8], &mut [u8], &mut [u8]) -> R>(
    side: &mut Side,
    l: Lengths,
    f: F,
) -> R
    requires { F.IsAlwaysCallable f }
{
    let array = &mut *side.array;
    let security = &mut *side.security;
    let reply = &mut *side.reply;
    let marks = &mut *side.marks;
    on_parts(l, array, security, reply, marks, f)
}

// Before a call.
fn clear(side: &mut Side) {
    side.reply.fill(BEFORE);
    side.marks.fill(BEFORE);
}

// ---- comparisons: each has a difference that is planted for it

// Number, polls and record; and that 1 leaves the record as it was.
fn odd_records(before: Pair, after: Pair, plant: Option<Comparison>) -> u64 {
    let a = after.first;
    let b = after.second;
    let was = planted_record(before.second.chip, plant, Comparison::RecordLeft);
    let number = planted_number(u64::from(b.number), plant, Comparison::Number);
    let polls = planted_number(b.polls, plant, Comparison::Polls);
    let record = planted_record(b.chip, plant, Comparison::Record);
    let left = a.number != 1 || same_records(a.chip, was);
    bit(u64::from(a.number) == number, Comparison::Number)
        | bit(a.polls == polls, Comparison::Polls)
        | bit(same_records(a.chip, record), Comparison::Record)
        | bit(left, Comparison::RecordLeft)
}

fn planted_memories(plant: Option<Comparison>, second: &mut Side) {
    if plant == Some(Comparison::Array) {
        turn(second.array);
    }
    if plant == Some(Comparison::SecurityId) {
        turn(second.security);
    }
}

fn odd_memories(plant: Option<Comparison>, first: &mut Side, second: &mut Side) -> u64 {
    planted_memories(plant, second);
    let odd = bit(first.array[..] == second.array[..], Comparison::Array)
        | bit(
            first.security[..] == second.security[..],
            Comparison::SecurityId,
        );
    planted_memories(plant, second);
    odd
}

fn planted_read(number: u8, plant: Option<Comparison>, first: &mut Side, second: &mut Side) {
    if plant == Some(Comparison::Reply) {
        turn(second.reply);
    }
    if plant == Some(Comparison::Marks) {
        turn(second.marks);
    }
    if plant == Some(Comparison::ReadLeft) && number == 1 {
        turn(first.reply);
        turn(second.reply);
    }
}

// Reply and marks; and that 1 leaves both as they were.
fn odd_read(number: u8, plant: Option<Comparison>, first: &mut Side, second: &mut Side) -> u64 {
    planted_read(number, plant, first, second);
    let left = number != 1 || all_are(first.reply, BEFORE) && all_are(first.marks, BEFORE);
    let odd = bit(first.reply[..] == second.reply[..], Comparison::Reply)
        | bit(first.marks[..] == second.marks[..], Comparison::Marks)
        | bit(left, Comparison::ReadLeft);
    planted_read(number, plant, first, second);
    odd
}

// ---- lookup

fn planted_buffers(
    number: u8,
    plant: Option<Comparison>,
    buffer: &mut Buffer,
    buffer2: &mut Buffer,
) {
    match plant {
        Some(Comparison::Buffer) => turn(buffer2),
        Some(Comparison::BufferLeft) if number != 0 => {
            turn(buffer);
            turn(buffer2);
        }
        Some(Comparison::DataGivenBack) if number == 0 => {
            turn(buffer);
            turn(buffer2);
        }
        _ => {}
    }
}

// A done lookup gives the data that a byte stands for, where these are known.
fn gives(number: u8, wanted: Option<u8>, buffer: &Buffer) -> bool {
    match wanted {
        Some(from) if number == 0 => data_of(from).starts_with(&buffer[..28]),
        _ => true,
    }
}

// The buffers; that a refusal leaves them; and that they hold what is wanted.
fn odd_buffers(
    number: u8,
    wanted: Option<u8>,
    plant: Option<Comparison>,
    buffer: &mut Buffer,
    buffer2: &mut Buffer,
) -> u64 {
    planted_buffers(number, plant, buffer, buffer2);
    let left = number == 0 || all_are(buffer, BEFORE);
    bit(buffer[..] == buffer2[..], Comparison::Buffer)
        | bit(left, Comparison::BufferLeft)
        | bit(gives(number, wanted, buffer), Comparison::DataGivenBack)
}

// "17 exactly if lookup's read shows no such live slot"; a lookup has no polls.
fn odd_lookup(
    number: u8,
    polls: u64,
    plant: Option<Comparison>,
    station: u16,
    first: &Side,
) -> u64 {
    let due = match showing::live_slots(first, station) {
        0 => 17,
        _ => 0,
    };
    let due = planted_number(due, plant, Comparison::NumberByRead);
    let right = !matches!(number, 0 | 17) || u64::from(number) == due;
    bit(right, Comparison::NumberByRead)
        | bit(
            polls == planted_number(0, plant, Comparison::PollsByList),
            Comparison::PollsByList,
        )
}

// `wanted`: the byte that the data of a done lookup count up from, where it is known.
pub fn looked_up(
    p: Pair,
    l: Lengths,
    station: u16,
    wanted: Option<u8>,
    plant: Option<Comparison>,
    sides: &mut Sides,
) -> Went {
    let first = &mut sides.first;
    let second = &mut sides.second;
    clear(first);
    clear(second);
    let mut buffer = [BEFORE; 29];
    let mut buffer2 = [BEFORE; 29];
    let n = l.bytes.min(29);
    let lent = &mut buffer[..n];
    let lent2 = &mut buffer2[..n];
    let pair = Pair {
        first: on_lent(first, l, |a, i, r, m| {
            store::lookup(p.first, a, i, r, m, station, lent)
        }),
        second: on_lent(second, l, |a, i, r, m| {
            second_stations::lookup(p.second, a, i, r, m, station, lent2)
        }),
    };
    let number = pair.first.number;
    let odd = odd_records(p, pair, plant)
        | odd_memories(plant, first, second)
        | odd_read(number, plant, first, second)
        | odd_buffers(number, wanted, plant, &mut buffer, &mut buffer2)
        | odd_lookup(number, pair.first.polls, plant, station, first);
    Went { pair, odd }
}

// ---- store

// A storing call: the data by the byte that they count up from.
#[derive(Clone, Copy)]
pub struct Call {
    pub station: u16,
    pub from: u8,
    pub allowance: u64,
}

// "16 exactly if the read shows no empty slot"; done or 18 and the polls, as the list says of so many writes.
fn odd_store(
    number: u8,
    polls: u64,
    c: Call,
    plant: Option<Comparison>,
    list: &[u64],
    first: &Side,
) -> u64 {
    let no_polls = polls == planted_number(0, plant, Comparison::PollsByList);
    // whether the read was done
    if !matches!(number, 0 | 8 | 11 | 16 | 18) {
        return bit(no_polls, Comparison::PollsByList);
    }
    let full = !showing::has_empty(first);
    let says = planted_number(u64::from(number), plant, Comparison::NumberByRead);
    let right = bit(full == (says == 16), Comparison::NumberByRead);
    if !matches!(number, 0 | 18) {
        return right | bit(no_polls, Comparison::PollsByList);
    }
    let writes = showing::live_slots(first, c.station).wrapping_add(2);
    let due = showing::due_of(list, c.allowance, writes);
    let counted = number == due.number
        && polls == planted_number(due.polls, plant, Comparison::PollsByList);
    right | bit(counted, Comparison::PollsByList)
}

pub fn stored(
    p: Pair,
    l: Lengths,
    c: Call,
    list: &[u64],
    plant: Option<Comparison>,
    sides: &mut Sides,
) -> Went {
    let first = &mut sides.first;
    let second = &mut sides.second;
    clear(first);
    clear(second);
    let data = data_of(c.from);
    let lent = &data[..l.bytes.min(29)];
    let pair = Pair {
        first: on_lent(first, l, |a, i, r, m| {
            store::store(p.first, a, i, r, m, c.station, lent, c.allowance, list)
        }),
        second: on_lent(second, l, |a, i, r, m| {
            second_stations::store(p.second, a, i, r, m, c.station, lent, c.allowance, list)
        }),
    };
    let number = pair.first.number;
    let odd = odd_records(p, pair, plant)
        | odd_memories(plant, first, second)
        | odd_read(number, plant, first, second)
        | odd_store(number, pair.first.polls, c, plant, list, first);
    Went { pair, odd }
}

// ---- events between calls

#[derive(Clone, Copy)]
pub enum Event<'a> {
    Frame(&'a [u8]),
    Completion,
    PowerCut(Tear),
}

// A frame between calls is no reset of work, and has room for one reply byte. One function for each model: they have no type and no function in common.
fn first_happens(c: Chip, e: Event, array: &mut [u8], security: &mut [u8]) -> rules::After {
    match e {
        Event::Frame(sent) => {
            let tear = Tear { k: 0, m: 0 };
            let x = Circumstances { tear };
            chip::frame(c, array, security, sent, &mut [0], &mut [0], x)
        }
        Event::Completion => chip::completion(c, array, security),
        Event::PowerCut(tear) => chip::power_cut(c, array, security, tear),
    }
}

fn second_happens(f: Flat, e: Event, array: &mut [u8], security: &mut [u8]) -> second::Step {
    match e {
        Event::Frame(sent) => {
            let x = Extra { k: 0, m: 0 };
            second::frame(f, array, security, sent, &mut [0], &mut [0], x)
        }
        Event::Completion => second::completion(f, array, security),
        Event::PowerCut(tear) => second::power_cut(f, array, security, tear.k, tear.m),
    }
}

pub fn happened(
    p: Pair,
    l: Lengths,
    e: Event,
    plant: Option<Comparison>,
    sides: &mut Sides,
) -> Went {
    let first = &mut sides.first;
    let second = &mut sides.second;
    let a = on_lent(first, l, |array, security, _, _| {
        first_happens(p.first.chip, e, array, security)
    });
    let b = on_lent(second, l, |array, security, _, _| {
        second_happens(p.second.chip, e, array, security)
    });
    let answer = a.answer;
    let number = chip::answer_number(answer);
    // The records keep their polls; their number is the event's.
    let pair = Pair {
        first: StoreRecord {
            chip: a.chip,
            number,
            ..p.first
        },
        second: Store {
            chip: b.state,
            number: b.number,
            ..p.second
        },
    };
    let due = planted_number(u64::from(b.number), plant, Comparison::EventNumber);
    let record = planted_record(b.state, plant, Comparison::EventRecord);
    let odd = bit(u64::from(number) == due, Comparison::EventNumber)
        | bit(same_records(a.chip, record), Comparison::EventRecord)
        | odd_memories(plant, first, second);
    Went { pair, odd }
}
