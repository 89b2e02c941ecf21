// Chips that a run of calls starts with.
use drawing::dice::{draw, once_in, seed_of};
use image_drawing::chips::is_page_program;
use rules::{Chip, Flags, Locks, Rest, Work, Works};

#[derive(Clone, Copy)]
pub enum Sort {
    // nothing runs, and the list is open
    Idle,
    // all write locks, the list's, all but the list's
    Locked,
    ListLocked,
    RestLocked,
    // with WEL, with the reset enable, in SQI
    Wel,
    Enabled,
    Sqi,
    // the list is locked for good
    Permanent,
    // something runs
    PageRuns,
    Busy,
    // something is suspended, in the list or far from it
    PageAside,
    FarPageAside,
    SectorAside,
    FarSectorAside,
    BlockAside,
    FarBlockAside,
    // one runs while another is suspended
    FarPageRunsSectorAside,
    SectorRunsFarPageAside,
    // a record that is not well-formed, and any
    Broken,
    Any,
    // wrong memories, on an idle chip with an open list
    WrongArray,
    WrongSecurity,
    // drawn locks and flags
    Drawn,
}

// Listed by hand: no derive gives an enum's variants.
pub const SORTS: [Sort; 23] = [
    Sort::Idle,
    Sort::Locked,
    Sort::ListLocked,
    Sort::RestLocked,
    Sort::Wel,
    Sort::Enabled,
    Sort::Sqi,
    Sort::Permanent,
    Sort::PageRuns,
    Sort::Busy,
    Sort::PageAside,
    Sort::FarPageAside,
    Sort::SectorAside,
    Sort::FarSectorAside,
    Sort::BlockAside,
    Sort::FarBlockAside,
    Sort::FarPageRunsSectorAside,
    Sort::SectorRunsFarPageAside,
    Sort::Broken,
    Sort::Any,
    Sort::WrongArray,
    Sort::WrongSecurity,
    Sort::Drawn,
];

const WRITE_LOCKS: u64 = 0x5555_ffff_ffff;

// The list's block has bit 0, and is the last of the table of blocks.
const LIST_LOCK: u64 = 1;

const LIST_BLOCK: usize = 39;

const REGISTER: u64 = 0x1_0000_0000_0000;

const NO_LOCKS: Locks = Locks {
    protection: 0,
    permanent: 0,
};

const NO_WORKS: Works = Works {
    running: Work::Nothing,
    suspended: Work::Nothing,
};

// Either part, with IOC, WPEN and the reset enable at will: no SQI, no WEL.
fn calm_flags(seed: u64) -> Flags {
    numbering::flags_of((seed_of(seed, 1) % 256) as u8 & 0xcc)
}

// With WEL, WPLD and SEC at will too.
fn free_flags(seed: u64) -> u8 {
    (seed_of(seed, 2) % 256) as u8 & 0xfe
}

// ---- nothing runs

fn idle(locks: Locks, flags: Flags, seed: u64) -> Chip {
    Chip {
        buffer: [255; 256],
        rest: Rest {
            locks,
            burst: numbering::burst_of(draw(seed, 3, 4)),
            works: NO_WORKS,
            flags,
        },
    }
}

fn with_locks(protection: u64, permanent: u64, seed: u64) -> Chip {
    let locks = Locks {
        protection,
        permanent,
    };
    idle(locks, calm_flags(seed), seed)
}

fn drawn(seed: u64) -> Chip {
    let locks = Locks {
        protection: seed_of(seed, 4) % REGISTER & seed_of(seed, 5),
        permanent: 0,
    };
    idle(locks, numbering::flags_of(free_flags(seed)), seed)
}

// ---- something runs or is suspended

// Numbers that work is drawn with: by which question, from the first one on, and how many.
#[derive(Clone, Copy)]
struct Reach {
    question: u64,
    first: u64,
    count: u64,
}

// Sectors 16 to 31 and pages 256 to 511 are the list's.
const LIST_SECTORS: Reach = Reach {
    question: 6,
    first: 16,
    count: 16,
};

const LIST_PAGES: Reach = Reach {
    question: 7,
    first: 256,
    count: 256,
};

// Above the list.
const FAR_SECTORS: Reach = Reach {
    question: 8,
    first: 32,
    count: 200,
};

const FAR_PAGES: Reach = Reach {
    question: 9,
    first: 4096,
    count: 4096,
};

const FAR_BLOCKS: Reach = Reach {
    question: 20,
    first: 10,
    count: 29,
};

fn drawn_number(r: Reach, seed: u64) -> usize {
    r.first.wrapping_add(draw(seed, r.question, r.count)) as usize
}

fn sector(r: Reach, seed: u64) -> Work {
    Work::EraseSector(drawn_number(r, seed))
}

fn page(r: Reach, seed: u64) -> Work {
    Work::ProgramPage(drawn_number(r, seed))
}

// All FF but for the mark of a slot and one byte.
fn touched_buffer(seed: u64) -> [u8; 256] {
    let mut buffer = [255; 256];
    let slot = (seed_of(seed, 10) % 8 * 32) as usize;
    let other = (8 + seed_of(seed, 11) % 248) as usize;
    buffer[slot] = (seed_of(seed, 12) % 2 * 0x53) as u8;
    buffer[slot + 1] = (seed_of(seed, 12) % 2 * 0x54) as u8;
    buffer[other] = (seed_of(seed, 13) % 256) as u8;
    buffer
}

// A page program has bytes in its buffer; an erase has none.
fn at_work(running: Work, suspended: Work, seed: u64) -> Chip {
    let buffer = if is_page_program(running) || is_page_program(suspended) {
        touched_buffer(seed)
    } else {
        [255; 256]
    };
    Chip {
        buffer,
        rest: Rest {
            locks: NO_LOCKS,
            burst: numbering::burst_of(0),
            works: Works { running, suspended },
            flags: numbering::flags_of(free_flags(seed) & 0xdf),
        },
    }
}

// Work that is not of the array, or of all of it.
fn other_work(seed: u64) -> Work {
    match draw(seed, 17, 5) {
        0 => Work::EraseArray,
        1 => Work::ProgramSecurity((1 + draw(seed, 14, 7) % 7) as usize),
        2 => Work::LockSecurity,
        3 => {
            let n = draw(seed, 15, 4);
            Work::WriteConfiguration(n % 2 == 1, n / 2 % 2 == 1)
        }
        _ => Work::AddPermanent(seed_of(seed, 16) % REGISTER),
    }
}

fn any_work(seed: u64) -> Work {
    if once_in(seed, 19, 2) {
        other_work(seed)
    } else if once_in(seed, 18, 3) {
        Work::EraseBlock(LIST_BLOCK)
    } else {
        sector(LIST_SECTORS, seed)
    }
}

// A chip of a sort.
pub fn start(sort: Sort, seed: u64) -> Chip {
    let calm = calm_flags(seed);
    match sort {
        Sort::Idle | Sort::WrongArray | Sort::WrongSecurity => idle(NO_LOCKS, calm, seed),
        Sort::Locked => with_locks(WRITE_LOCKS, 0, seed),
        Sort::ListLocked => with_locks(LIST_LOCK, 0, seed),
        Sort::RestLocked => with_locks(WRITE_LOCKS - LIST_LOCK, 0, seed),
        Sort::Wel => idle(NO_LOCKS, Flags { wel: true, ..calm }, seed),
        Sort::Enabled => idle(
            NO_LOCKS,
            Flags {
                enable: true,
                ..calm
            },
            seed,
        ),
        Sort::Sqi => idle(NO_LOCKS, Flags { sqi: true, ..calm }, seed),
        Sort::Permanent => with_locks(LIST_LOCK, LIST_LOCK, seed),
        Sort::PageRuns => at_work(page(LIST_PAGES, seed), Work::Nothing, seed),
        Sort::Busy => at_work(any_work(seed), Work::Nothing, seed),
        Sort::PageAside => at_work(Work::Nothing, page(LIST_PAGES, seed), seed),
        Sort::FarPageAside => at_work(Work::Nothing, page(FAR_PAGES, seed), seed),
        Sort::SectorAside => at_work(Work::Nothing, sector(LIST_SECTORS, seed), seed),
        Sort::FarSectorAside => at_work(Work::Nothing, sector(FAR_SECTORS, seed), seed),
        Sort::BlockAside => at_work(Work::Nothing, Work::EraseBlock(LIST_BLOCK), seed),
        Sort::FarBlockAside => at_work(
            Work::Nothing,
            Work::EraseBlock(drawn_number(FAR_BLOCKS, seed)),
            seed,
        ),
        Sort::FarPageRunsSectorAside => at_work(
            page(FAR_PAGES, seed),
            sector(LIST_SECTORS, seed),
            seed,
        ),
        Sort::SectorRunsFarPageAside => at_work(
            sector(LIST_SECTORS, seed),
            page(FAR_PAGES, seed),
            seed,
        ),
        Sort::Broken => image_drawing::chips::broken(seed_of(seed, 21), seed),
        Sort::Any => image_drawing::chips::any(seed),
        Sort::Drawn => drawn(seed),
    }
}
