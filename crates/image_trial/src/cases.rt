// The cases: chips that are written, read and written again, chips that are refused, files that are changed; each gives in what the two models differ.
use crate::bench::{Bench, Lengths, RIGHT, first_writes};
use crate::comparisons::Comparison;
use crate::report::Counts;
use comparing::mapping::flat_of;
use drawing::bump;
use drawing::dice::seed_of;
use image_drawing::chips;
use image_drawing::places::BEFORE;
use image_drawing::spoiling::{self, WAYS, Way};
use rules::Chip;

// One of the three is wrong: a byte less or more, none; of the file also a page less, and no page numbers.
fn wrong_lengths(k: u64) -> Lengths {
    match k % 11 {
        0 => Lengths {
            array: 2097151,
            ..RIGHT
        },
        1 => Lengths {
            array: 2097153,
            ..RIGHT
        },
        2 => Lengths { array: 0, ..RIGHT },
        3 => Lengths {
            security: 2047,
            ..RIGHT
        },
        4 => Lengths {
            security: 2049,
            ..RIGHT
        },
        5 => Lengths {
            security: 0,
            ..RIGHT
        },
        6 => Lengths {
            file: 2148373,
            ..RIGHT
        },
        7 => Lengths {
            file: 2148375,
            ..RIGHT
        },
        8 => Lengths { file: 0, ..RIGHT },
        9 => Lengths {
            file: 2148112,
            ..RIGHT
        },
        _ => Lengths {
            file: 2131990,
            ..RIGHT
        },
    }
}

// A sort of chips.
#[derive(Clone, Copy)]
enum Sort {
    Idle,
    AtWork,
    Broken,
    Any,
    WrongLengths,
    OfFile,
}

fn count_chip(counts: &mut Counts, sort: Sort, c: Chip) {
    let f = flat_of(c);
    bump(&mut counts.sorts, sort as usize * 2 + usize::from(f.ba));
    let flags = numbering::flags_number(c.rest.flags) as usize;
    bump(&mut counts.flags, flags);
    bump(&mut counts.bursts, usize::from(f.burst));
    bump(&mut counts.running, usize::from(f.run_kind));
    bump(&mut counts.suspended, usize::from(f.sus_kind));
}

// Every second value of the flags: each pair of them comes up in all four ways.
fn is_read(k: u64) -> bool {
    u64::count_ones(k) % 2 == 0
}

// An idle chip with the k-th flags is written; every second one is read in place of any record, compared with what was written, and written again.
pub fn chip_case(bench: &mut Bench, k: u64, plant: Option<Comparison>, counts: &mut Counts) -> u64 {
    let seed = seed_of(203, k);
    let c = chips::idle(seed, (k % 256) as u8);
    count_chip(counts, Sort::Idle, c);
    bench.fill(seed, seed);
    let odd = bench.write(c, RIGHT, Some(0), plant, counts);
    if !is_read(k) {
        return odd;
    }
    let before = chips::any(seed_of(seed, 52));
    let g = bench.read(before, RIGHT, counts);
    let reading = bench.odd_reading(before, g, Some(0), plant);
    let back = bench.odd_back(c, g, seed, plant);
    odd | reading | back | bench.odd_written_again(g, plant)
}

// A chip at work, a broken record, any record, or lengths that are wrong: most are refused.
pub fn refused_case(
    bench: &mut Bench,
    k: u64,
    plant: Option<Comparison>,
    counts: &mut Counts,
) -> u64 {
    let seed = seed_of(204, k);
    let n = k / 4;
    let (sort, c, l, due) = match k % 4 {
        0 => {
            let c = chips::at_work(n, seed);
            let due = chips::at_work_number(c.rest.works);
            (Sort::AtWork, c, RIGHT, Some(due))
        }
        1 => (Sort::Broken, chips::broken(n, seed), RIGHT, Some(1)),
        2 => (Sort::Any, chips::any(seed), RIGHT, None),
        _ => {
            let c = chips::idle(seed, (seed % 256) as u8);
            (Sort::WrongLengths, c, wrong_lengths(n), Some(1))
        }
    };
    count_chip(counts, sort, c);
    bench.write(c, l, due, plant, counts)
}

// A file that is changed, in the k-th way: read, and where it is a right one written again.
pub fn file_case(bench: &mut Bench, k: u64, plant: Option<Comparison>, counts: &mut Counts) -> u64 {
    let seed = seed_of(205, k);
    let way = WAYS[(k % 18) as usize];
    let n = k / 18;
    let c = chips::idle(seed, (seed / 2 % 128 + n % 2 * 128) as u8);
    count_chip(counts, Sort::OfFile, c);
    bench.fill(seed % 64, seed);
    let array = &*bench.array;
    let security = &*bench.security;
    let file = &mut *bench.file;
    file.fill(BEFORE);
    first_writes(c, RIGHT, array, security, file);
    let due = Some(spoiling::spoiled(way, n, seed, file));
    let l = if way == Way::Lengths {
        wrong_lengths(n)
    } else {
        RIGHT
    };
    let before = chips::any(seed_of(seed, 52));
    let g = bench.read(before, l, counts);
    let reading = bench.odd_reading(before, g, due, plant);
    reading | bench.odd_written_again(g, plant)
}
