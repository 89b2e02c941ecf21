// The paper's values on both models: each step done, its claim judged on the first model, and both compared.
use crate::deeds::Deed;
use crate::paper::SENTENCES;
use crate::report::Report;
use comparing::Side;
use comparing::mapping::flat_of;
use drawing::at;
use image_drawing::places::Memory;
use rules::Tear;
use station_drawing::both::{Call, Event, Lengths, Pair, RIGHT, Sides, Went};
use station_drawing::lists::{EMPTY, Slot};
use station_drawing::{both, lists};

// What a step came to; what is arranged is no value of the paper's, and not right or wrong.
#[derive(Clone, Copy)]
struct Done {
    went: Went,
    right: Option<bool>,
}

fn arranged(pair: Pair) -> Done {
    Done {
        went: Went { pair, odd: 0 },
        right: None,
    }
}

fn claimed(pair: Pair, right: bool) -> Done {
    Done {
        went: Went { pair, odd: 0 },
        right: Some(right),
    }
}

// ---- the memories

// A byte outside the list, by its place.
fn outside_byte(i: usize) -> u8 {
    ((i ^ i / 256) % 255) as u8
}

fn is_outside(i: usize) -> bool {
    i < lists::START || lists::END <= i
}

fn fill_outside(array: &mut Memory) {
    for (i, b) in array.iter_mut().enumerate() {
        if is_outside(i) {
            *b = outside_byte(i);
        }
    }
}

// Both arrays outside the list.
pub fn both_filled(sides: &mut Sides) {
    fill_outside(sides.first.array);
    fill_outside(sides.second.array);
}

// ---- claims: on the first model's array and what its last read showed

fn outside_kept(first: &Side) -> bool {
    first
        .array
        .iter()
        .enumerate()
        .all(|(i, b)| !is_outside(i) || *b == outside_byte(i))
}

fn slot_shown(array: &Memory, slot: usize, s: Slot) -> bool {
    let place = lists::place_of(slot);
    array[place..place + 32] == lists::slot_bytes(s)[..]
}

fn holds(first: &Side, slot: usize, s: Slot) -> bool {
    slot_shown(first.array, slot, s)
}

fn shows(first: &Side, place: usize, value: u8, mark: u8) -> bool {
    at(first.reply, place) == value && at(first.marks, place) == mark
}

fn stands(p: Pair, wel: bool, busy: bool) -> bool {
    let f = flat_of(p.first.chip);
    f.wel == wel && (f.run_kind != 0) == busy
}

// ---- steps

fn stores(
    p: Pair,
    l: Lengths,
    c: Call,
    list: &[u64],
    number: u8,
    polls: u64,
    sides: &mut Sides,
) -> Done {
    let went = both::stored(p, l, c, list, None, sides);
    let first = went.pair.first;
    Done {
        went,
        right: Some(first.number == number && first.polls == polls),
    }
}

fn looks(
    p: Pair,
    l: Lengths,
    station: u16,
    wanted: Option<u8>,
    number: u8,
    sides: &mut Sides,
) -> Done {
    let went = both::looked_up(p, l, station, wanted, None, sides);
    let first = went.pair.first;
    Done {
        went,
        right: Some(first.number == number && first.polls == 0),
    }
}

fn happens(p: Pair, e: Event, number: u8, sides: &mut Sides) -> Done {
    let went = both::happened(p, RIGHT, e, None, sides);
    Done {
        went,
        right: Some(went.pair.first.number == number),
    }
}

fn puts(p: Pair, slot: usize, s: Slot, sides: &mut Sides) -> Done {
    lists::put_slot(sides.first.array, slot, s);
    lists::put_slot(sides.second.array, slot, s);
    arranged(p)
}

fn fills(p: Pair, sides: &mut Sides) -> Done {
    lists::fill_full(sides.first.array);
    lists::fill_full(sides.second.array);
    arranged(p)
}

fn starts(sides: &mut Sides) -> Done {
    lists::fill(sides.first.array, lists::Sort::Empty, 0);
    lists::fill(sides.second.array, lists::Sort::Empty, 0);
    arranged(both::new_pair())
}

fn carried_out(p: Pair, deed: Deed, sides: &mut Sides) -> Done {
    match deed {
        Deed::Fresh => starts(sides),
        Deed::Broken => arranged(both::pair_of(image_drawing::chips::broken(0, 1))),
        Deed::Full => fills(p, sides),
        Deed::Puts(slot, mark, station, from) => {
            let s = Slot {
                mark,
                station,
                from,
            };
            puts(p, slot, s, sides)
        }
        Deed::Sends(opcode, number) => happens(p, Event::Frame(&[opcode]), number, sides),
        Deed::Erases(opcode, high, middle) => {
            happens(p, Event::Frame(&[opcode, high, middle, 0]), 0, sides)
        }
        Deed::Programs(high, middle, value) => {
            happens(p, Event::Frame(&[0x02, high, middle, 0, value]), 0, sides)
        }
        Deed::Completes => happens(p, Event::Completion, 0, sides),
        Deed::Cuts(k, m) => happens(p, Event::PowerCut(Tear { k, m }), 0, sides),
        Deed::Stores(station, from, allowance, list, number, polls) => {
            let c = Call {
                station,
                from,
                allowance,
            };
            stores(p, RIGHT, c, &list, number, polls, sides)
        }
        Deed::StoresWith(l, number) => {
            let c = Call {
                station: 7,
                from: 1,
                allowance: 3,
            };
            stores(p, l, c, &[1; 5], number, 0, sides)
        }
        Deed::Finds(station, from) => looks(p, RIGHT, station, Some(from), 0, sides),
        Deed::Misses(station, number) => looks(p, RIGHT, station, None, number, sides),
        Deed::MissesWith(l, number) => looks(p, l, 7, None, number, sides),
        Deed::Holds(slot, mark, station, from) => {
            let s = Slot {
                mark,
                station,
                from,
            };
            claimed(p, holds(&sides.first, slot, s))
        }
        Deed::IsEmpty(slot) => claimed(p, holds(&sides.first, slot, EMPTY)),
        Deed::Stands { wel, busy } => claimed(p, stands(p, wel, busy)),
        Deed::Reads(place, value, mark) => claimed(p, shows(&sides.first, place, value, mark)),
        Deed::Outside => claimed(p, outside_kept(&sides.first)),
    }
}

// The steps of all sentences, one after the other.
pub fn paper_shown(report: &mut Report<impl Print>, sides: &mut Sides) {
    let mut p = both::new_pair();
    for (sentence, steps) in SENTENCES.iter().enumerate() {
        for (n, deed) in steps.iter().enumerate() {
            let done = carried_out(p, *deed, sides);
            p = done.went.pair;
            report.told(
                "the paper's sentence",
                sentence as u64,
                n as u64,
                done.went.odd,
            );
            if let Some(right) = done.right {
                report.shows(sentence, n, right);
            }
        }
    }
}
