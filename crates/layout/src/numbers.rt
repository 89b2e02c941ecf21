// The record's numbers, an image file's length, the station list's sizes, and the names that C and Rust have for them.
ghost use Rattle.std.specs.Prelude.{◌≡◌, slice_index};
ghost use Rattle.layout.specs.Numbers.{numbers};

use writing::Row;

// What the number has in Rust: a place or a length is a usize, an allowance a u64, a kind or a flag one byte.
#[derive(Clone, Copy)]
enum Type {
    Usize,
    U64,
    U8,
}

pub const COUNT: usize = 36;

// Those of the layout, in the order of specs/Numbers.antt. A list of their own, from which what `number` promises is computed: of a table with the names the check
// does not find it.
const NUMBERS: [usize; COUNT] = [
    320, 0, 256, 264, 272, 280, 288, 289, 290, 291, 292, 0, 1, 2, 3, 4, 5, 6, 7, 8, 1, 2, 4, 8, 16,
    32, 64, 128, 2148374, 65536, 65536, 2048, 32, 28, 65535, 2049,
];

// Their names.
const NAMES: [(&str, Type); COUNT] = [
    ("RECORD_SIZE", Type::Usize),
    ("PLACE_PAGE", Type::Usize),
    ("PLACE_PROTECTION", Type::Usize),
    ("PLACE_PERMANENT", Type::Usize),
    ("PLACE_RUNNING_NUMBER", Type::Usize),
    ("PLACE_SUSPENDED_NUMBER", Type::Usize),
    ("PLACE_RUNNING_KIND", Type::Usize),
    ("PLACE_SUSPENDED_KIND", Type::Usize),
    ("PLACE_FLAGS", Type::Usize),
    ("PLACE_BURST", Type::Usize),
    ("PLACE_RESERVED", Type::Usize),
    ("KIND_NOTHING", Type::U8),
    ("KIND_SECTOR_ERASE", Type::U8),
    ("KIND_BLOCK_ERASE", Type::U8),
    ("KIND_ARRAY_ERASE", Type::U8),
    ("KIND_PAGE_PROGRAM", Type::U8),
    ("KIND_SECURITY_PROGRAM", Type::U8),
    ("KIND_SECURITY_LOCK", Type::U8),
    ("KIND_CONFIGURATION", Type::U8),
    ("KIND_PERMANENT_BITS", Type::U8),
    ("FLAG_SQI", Type::U8),
    ("FLAG_WEL", Type::U8),
    ("FLAG_IOC", Type::U8),
    ("FLAG_WPEN", Type::U8),
    ("FLAG_WPLD", Type::U8),
    ("FLAG_SEC", Type::U8),
    ("FLAG_RESET_ENABLE", Type::U8),
    ("FLAG_BA", Type::U8),
    ("IMAGE", Type::Usize),
    ("STATION_START", Type::Usize),
    ("STATION_LIST", Type::Usize),
    ("STATION_SLOTS", Type::Usize),
    ("STATION_SLOT", Type::Usize),
    ("STATION_DATA", Type::Usize),
    ("STATION_POLLS_MOST", Type::U64),
    ("STATION_WRITES_MOST", Type::Usize),
];

pub fn number(i: usize) -> usize
    ensures { result ≡ slice_index numbers i }
{
    if i < COUNT {
        return NUMBERS[i];
    }
    0
}

// How many names begin with the sort's: there is no other name of a place, a kind, a flag or a station's size.
pub fn names(sort: &str) -> usize {
    NAMES.iter().filter(|n| n.0.starts_with(sort)).count()
}

pub fn named(r: Row, i: usize) -> Row {
    if i < COUNT {
        return r.text(NAMES[i].0.as_bytes());
    }
    r
}

pub fn typed(r: Row, i: usize) -> Row {
    if i < COUNT {
        return match NAMES[i].1 {
            Type::Usize => r.text(b": usize = "),
            Type::U64 => r.text(b": u64 = "),
            Type::U8 => r.text(b": u8 = "),
        };
    }
    r
}
