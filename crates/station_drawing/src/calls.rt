// Calls and events that are drawn.
use crate::both::{Call, Event, Lengths, RIGHT};
use crate::chips::Sort;
use crate::lists::station_of;
use comparing::bytes::within;
use drawing::dice::{draw, once_in, seed_of};
use rules::Tear;

// More entries than a call has writes.
pub type Entries = [u64; 2304];

// ---- storing calls

fn allowance_of(seed: u64) -> u64 {
    match draw(seed, 1, 64) {
        0 => 65535,
        1 => 65536,
        2 => u64::MAX,
        3..=5 => 0,
        6..=9 => 1,
        10..=19 => 2,
        20..=29 => 3,
        30..=39 => 5,
        40..=49 => 17,
        _ => 300,
    }
}

fn from_of(seed: u64) -> u8 {
    if once_in(seed, 2, 4) {
        return 255;
    }
    (seed_of(seed, 3) % 256) as u8
}

pub fn station(seed: u64) -> u16 {
    station_of(seed_of(seed, 4))
}

pub fn call(seed: u64) -> Call {
    Call {
        station: station(seed),
        from: from_of(seed),
        allowance: allowance_of(seed),
    }
}

// How many entries are lent.
fn entry_count(seed: u64) -> usize {
    match draw(seed, 5, 16) {
        0 => 0,
        1 => 1,
        2 => 2,
        3 => 3,
        4 | 5 => 2304,
        _ => (2 + seed_of(seed, 6) % 40) as usize,
    }
}

fn large(seed: u64) -> u64 {
    match draw(seed, 7, 4) {
        0 => 65535,
        1 => 65536,
        2 => u64::MAX,
        _ => 1000,
    }
}

// A poll within the allowance.
fn within_allowance(seed: u64, question: u64, allowance: u64) -> u64 {
    draw(seed, question, allowance % 512).wrapping_add(1)
}

// Mostly completion arrives within the allowance. Seldom never, or too late.
fn some_entry(seed: u64, allowance: u64) -> u64 {
    match draw(seed, 8, 16) {
        0 => 0,
        1 => allowance.wrapping_add(1),
        2 => allowance,
        3 => large(seed),
        _ => within_allowance(seed, 9, allowance),
    }
}

// The entries of a call, in a lent list: one style for all of them.
pub fn entries(list: &mut Entries, seed: u64, allowance: u64) -> &[u64] {
    let style = draw(seed, 12, 5);
    let n = within(entry_count(seed), &list[..]);
    for (i, entry) in list[..n].iter_mut().enumerate() {
        let s = seed_of(seed, i as u64);
        *entry = match style {
            0 => 1,
            1 | 2 => within_allowance(s, 10, allowance),
            3 => draw(s, 11, 4),
            _ => some_entry(s, allowance),
        };
    }
    &list[..n]
}

// ---- lengths

fn wrong(right: usize, seed: u64) -> usize {
    match draw(seed, 13, 3) {
        0 => right.wrapping_sub(1),
        1 => right.wrapping_add(1),
        _ => 0,
    }
}

// The array or the Security ID is wrong for a whole run.
pub fn run_lengths(sort: Sort, seed: u64) -> Lengths {
    match sort {
        Sort::WrongArray => Lengths {
            array: wrong(RIGHT.array, seed),
            ..RIGHT
        },
        Sort::WrongSecurity => Lengths {
            security: wrong(RIGHT.security, seed),
            ..RIGHT
        },
        _ => RIGHT,
    }
}

// A buffer is wrong for one call, now and then.
pub fn lengths(l: Lengths, seed: u64) -> Lengths {
    match draw(seed, 14, 48) {
        0 => Lengths {
            reply: wrong(RIGHT.reply, seed),
            ..l
        },
        1 => Lengths {
            marks: wrong(RIGHT.marks, seed),
            ..l
        },
        2 | 3 => Lengths {
            bytes: wrong(RIGHT.bytes, seed),
            ..l
        },
        _ => l,
    }
}

// ---- events

// A byte near the start of a slot of a page, or any.
fn torn_place(seed: u64) -> u64 {
    let slot = seed_of(seed, 15) % 8 * 32;
    match draw(seed, 16, 4) {
        0 => slot,
        1 => 1 + slot,
        2 => slot + seed_of(seed, 17) % 32,
        _ => seed_of(seed, 18) % 5000,
    }
}

fn torn_byte(seed: u64) -> u8 {
    match draw(seed, 19, 4) {
        0 => 0x00,
        1 => 0xff,
        2 => 0xf0,
        _ => (seed_of(seed, 20) % 256) as u8,
    }
}

pub fn cut(seed: u64) -> Event<'static> {
    Event::PowerCut(Tear {
        k: torn_place(seed),
        m: torn_byte(seed),
    })
}
