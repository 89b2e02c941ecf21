// Station lists: slots of each kind, and lists of several sorts.
ghost use Rattle.std.specs.Prelude.{◌+◌, ◌≤◌};

use drawing::dice::{draw, once_in, seed_of};
use image_drawing::places::Memory;

// The list's places, and how many slots of 32 bytes it has.
pub const START: usize = 0x10000;

pub const END: usize = 0x20000;

const SLOTS: usize = 2048;

pub fn place_of(slot: usize) -> usize
    ensures { result + 32 ≤ 0x20000 }
{
    START + slot % SLOTS * 32
}

// Data that a byte stands for: they count up from it, or FF all along. One byte more than a call takes.
pub fn data_of(from: u8) -> [u8; 29] {
    if from == 255 {
        return [255; 29];
    }
    std::array::from_fn(|i| from.wrapping_add((i % 32) as u8))
}

// Marks.
pub const LIVE: [u8; 2] = [0x53, 0x54];

pub const CLEARED: [u8; 2] = [0, 0];

pub const UNMARKED: [u8; 2] = [255, 255];

// A slot: its mark, its number and its data.
#[derive(Clone, Copy)]
pub struct Slot {
    pub mark: [u8; 2],
    pub station: u16,
    pub from: u8,
}

pub const EMPTY: Slot = Slot {
    mark: UNMARKED,
    station: 0xffff,
    from: 255,
};

// What a slot holds; the number high byte first.
pub fn slot_bytes(s: Slot) -> [u8; 32] {
    let mut bytes = [0; 32];
    for (b, d) in bytes[4..].iter_mut().zip(data_of(s.from)) {
        *b = d;
    }
    let [first, other] = s.mark;
    let [high, low] = s.station.to_be_bytes();
    bytes[..4].copy_from_slice(&[first, other, high, low]);
    bytes
}

pub fn put_slot(array: &mut Memory, slot: usize, s: Slot) {
    let place = place_of(slot);
    array[place..place + 32].copy_from_slice(&slot_bytes(s));
}

// ---- drawn slots

// A few numbers, so that they meet: with their bytes in both orders, and such as look like a mark or like nothing.
pub fn station_of(n: u64) -> u16 {
    match n % 8 {
        0 => 0x0102,
        1 => 0x0201,
        2 => 0x0000,
        3 => 0xffff,
        4 => 0x5354,
        5 => 0x00ff,
        6 => 0xff00,
        _ => 0x0007,
    }
}

#[derive(Clone, Copy)]
enum Kind {
    Empty,
    Live,
    // of the number that many slots have
    Hot,
    Cleared,
    Half,
    Unmarked,
    AllFf,
    NearlyEmpty,
    Noise,
}

// Listed by hand: no derive gives an enum's variants.
const KINDS: [Kind; 9] = [
    Kind::Empty,
    Kind::Live,
    Kind::Hot,
    Kind::Cleared,
    Kind::Half,
    Kind::Unmarked,
    Kind::AllFf,
    Kind::NearlyEmpty,
    Kind::Noise,
];

// A mark that is half written or half cleared.
fn half_mark(seed: u64) -> [u8; 2] {
    match draw(seed, 31, 6) {
        0 => [0x00, 0x54],
        1 => [0x53, 0x00],
        2 => [0x53, 0xff],
        3 => [0xff, 0x54],
        4 => [0x53, 0x55],
        _ => [0x54, 0x53],
    }
}

fn noise(seed: u64) -> [u8; 32] {
    std::array::from_fn(|i| (seed_of(seed, i as u64) % 256) as u8)
}

// One byte of an empty slot is not FF.
fn nearly_empty(seed: u64) -> [u8; 32] {
    let mut bytes = [255; 32];
    bytes[(seed_of(seed, 34) % 32) as usize] = (seed_of(seed, 35) % 255) as u8;
    bytes
}

fn drawn_slot(kind: Kind, seed: u64) -> Slot {
    let station = station_of(seed_of(seed, 32));
    let from = (seed_of(seed, 33) % 256) as u8;
    let drawn = Slot {
        mark: LIVE,
        station,
        from,
    };
    match kind {
        Kind::Live => drawn,
        Kind::Hot => Slot {
            station: 0x0102,
            ..drawn
        },
        Kind::Cleared => Slot {
            mark: CLEARED,
            ..drawn
        },
        Kind::Half => Slot {
            mark: half_mark(seed),
            ..drawn
        },
        Kind::Unmarked => Slot {
            mark: UNMARKED,
            ..drawn
        },
        Kind::AllFf => Slot {
            mark: LIVE,
            ..EMPTY
        },
        Kind::Empty | Kind::NearlyEmpty | Kind::Noise => EMPTY,
    }
}

fn drawn_bytes(kind: Kind, seed: u64) -> [u8; 32] {
    match kind {
        Kind::NearlyEmpty => nearly_empty(seed),
        Kind::Noise => noise(seed),
        _ => slot_bytes(drawn_slot(kind, seed)),
    }
}

// ---- sorts of lists

#[derive(Clone, Copy)]
pub enum Sort {
    Empty,
    // some slots are filled, and those behind them empty
    Filled,
    // many live slots of a number
    ManyOfOne,
    // dead ones, and seldom an empty one
    Dead,
    Full,
    FullButOne,
    Noise,
    // FFFF with data all FF
    AllFf,
    // a live one here and there
    Sparse,
    // the first eight of any kind
    FirstEight,
}

// Listed by hand, as KINDS.
pub const SORTS: [Sort; 10] = [
    Sort::Empty,
    Sort::Filled,
    Sort::ManyOfOne,
    Sort::Dead,
    Sort::Full,
    Sort::FullButOne,
    Sort::Noise,
    Sort::AllFf,
    Sort::Sparse,
    Sort::FirstEight,
];

fn any_kind(seed: u64) -> Kind {
    KINDS[(draw(seed, 36, 9) % 9) as usize]
}

fn dead_kind(seed: u64) -> Kind {
    match draw(seed, 38, 5) {
        0 => Kind::Cleared,
        1 => Kind::Half,
        2 => Kind::NearlyEmpty,
        3 => Kind::Noise,
        _ => Kind::Unmarked,
    }
}

// The other one once in n.
fn often(n: u64, kind: Kind, other: Kind, seed: u64) -> Kind {
    if once_in(seed, 39, n) { other } else { kind }
}

// What a slot of a list is. `bound` is a place in the list.
fn kind_in(sort: Sort, slot: u64, bound: u64, seed: u64) -> Kind {
    match sort {
        Sort::Filled if slot < bound => any_kind(seed),
        Sort::ManyOfOne => often(2, Kind::Hot, any_kind(seed), seed),
        Sort::Dead => often(64, dead_kind(seed), Kind::Empty, seed),
        Sort::Full => often(16, Kind::Live, Kind::Hot, seed),
        Sort::FullButOne if slot != bound => often(8, Kind::Live, Kind::Cleared, seed),
        Sort::Noise => Kind::Noise,
        Sort::AllFf => often(3, Kind::AllFf, Kind::Empty, seed),
        Sort::Sparse => often(64, Kind::Empty, Kind::Live, seed),
        Sort::FirstEight if slot < 8 => any_kind(seed),
        Sort::Empty | Sort::Filled | Sort::FullButOne | Sort::FirstEight => Kind::Empty,
    }
}

// The same list in each memory that is filled with the same seed.
pub fn fill(array: &mut Memory, sort: Sort, seed: u64) {
    let bound = draw(seed, 40, 2048);
    for (n, slot) in array[START..END].chunks_exact_mut(32).enumerate() {
        let s = seed_of(seed, n as u64);
        slot.copy_from_slice(&drawn_bytes(kind_in(sort, n as u64, bound, s), s));
    }
}

// Every slot is live, and its number is its place.
pub fn fill_full(array: &mut Memory) {
    for (slot, station) in array[START..END].chunks_exact_mut(32).zip(0..2048) {
        slot.copy_from_slice(&slot_bytes(Slot {
            mark: LIVE,
            station,
            from: 7,
        }));
    }
}
