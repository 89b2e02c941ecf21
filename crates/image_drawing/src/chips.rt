// Chips that are drawn: their records, and the bytes of their memories.
use drawing::dice::{draw, once_in, seed_of};
use rules::{Chip, Locks, Rest, Work, Works};

const REGISTER: u64 = 0x1_0000_0000_0000;

const WRITE_LOCKS: u64 = 0x5555_ffff_ffff;

const READ_LOCKS: u64 = 0xaaaa_0000_0000;

const NO_WORKS: Works = Works {
    running: Work::Nothing,
    suspended: Work::Nothing,
};

fn assembled(locks: Locks, works: Works, flags: u8, burst: u64, buffer: [u8; 256]) -> Chip {
    let rest = Rest {
        locks,
        burst: numbering::burst_of(burst),
        works,
        flags: numbering::flags_of(flags),
    };
    Chip { buffer, rest }
}

// ---- idle chips

fn any_protection(seed: u64) -> u64 {
    match draw(seed, 1, 5) {
        0 => 0,
        1 => WRITE_LOCKS,
        2 => 0xffff_ffff_ffff,
        _ => seed_of(seed, 2) % REGISTER,
    }
}

// Write locks of the protection register: none, all, some.
fn some_permanent(seed: u64, protection: u64) -> u64 {
    match draw(seed, 3, 4) {
        0 => 0,
        1 => protection & WRITE_LOCKS,
        _ => protection & WRITE_LOCKS & seed_of(seed, 4),
    }
}

fn right_locks(seed: u64) -> Locks {
    let protection = any_protection(seed);
    Locks {
        protection,
        permanent: some_permanent(seed, protection),
    }
}

// A well-formed one with these flags.
pub fn idle(seed: u64, flags: u8) -> Chip {
    let burst = draw(seed, 5, 4);
    assembled(right_locks(seed), NO_WORKS, flags, burst, [255; 256])
}

// A new chip's registers with these flags and this burst.
pub fn flagged(flags: u8, burst: u64) -> Chip {
    let locks = Locks {
        protection: WRITE_LOCKS,
        permanent: 0,
    };
    assembled(locks, NO_WORKS, flags, burst, [255; 256])
}

// These registers, all flags, and the longest burst.
pub fn with_registers(protection: u64, permanent: u64) -> Chip {
    let locks = Locks {
        protection,
        permanent,
    };
    assembled(locks, NO_WORKS, 255, 3, [255; 256])
}

// ---- chips at work

// Work of each kind, whose numbers count for nothing; listed by hand: no derive gives an enum's variants.
const RUNNING: [Work; 9] = [
    Work::Nothing,
    Work::EraseSector(0),
    Work::EraseBlock(0),
    Work::EraseArray,
    Work::ProgramPage(0),
    Work::ProgramSecurity(0),
    Work::LockSecurity,
    Work::WriteConfiguration(false, false),
    Work::AddPermanent(0),
];

const SUSPENDED: [Work; 4] = [
    Work::Nothing,
    Work::EraseSector(0),
    Work::EraseBlock(0),
    Work::ProgramPage(0),
];

// The numbers that work is drawn with: how many, from the first block and page on, and the bits that are added.
#[derive(Clone, Copy)]
struct Reach {
    sectors: u64,
    block: u64,
    blocks: u64,
    page: u64,
    pages: u64,
    security: u64,
    bits: u64,
}

// In range, pages in the upper half of the array, sectors and blocks in the lower one, so that they do not overlap.
const APART: Reach = Reach {
    sectors: 256,
    block: 30,
    blocks: 10,
    page: 4096,
    pages: 4096,
    security: 8,
    bits: REGISTER - 1,
};

// Up to a little beyond its range.
const BEYOND: Reach = Reach {
    sectors: 520,
    block: 0,
    blocks: 42,
    page: 0,
    pages: 8300,
    security: 9,
    bits: u64::MAX,
};

// Work of the same kind, with drawn numbers.
fn drawn_work(kind: Work, seed: u64, reach: Reach) -> Work {
    match kind {
        Work::EraseSector(_) => Work::EraseSector(draw(seed, 6, reach.sectors) as usize),
        Work::EraseBlock(_) => {
            Work::EraseBlock(reach.block.wrapping_add(draw(seed, 7, reach.blocks)) as usize)
        }
        Work::ProgramPage(_) => {
            Work::ProgramPage(reach.page.wrapping_add(draw(seed, 8, reach.pages)) as usize)
        }
        Work::ProgramSecurity(_) => Work::ProgramSecurity(draw(seed, 9, reach.security) as usize),
        Work::WriteConfiguration(..) => {
            let n = draw(seed, 10, 4);
            Work::WriteConfiguration(n % 2 == 1, n / 2 == 1)
        }
        Work::AddPermanent(_) => Work::AddPermanent(seed_of(seed, 11) & reach.bits),
        Work::Nothing | Work::EraseArray | Work::LockSecurity => kind,
    }
}

pub fn is_page_program(w: Work) -> bool {
    matches!(w, Work::ProgramPage(_))
}

// All FF, or all but for one byte.
fn buffer_of(touched: bool, seed: u64) -> [u8; 256] {
    let mut buffer = [255; 256];
    if touched {
        buffer[(seed_of(seed, 17) % 256) as usize] = (seed_of(seed, 18) % 255) as u8;
    }
    buffer
}

// Each kind of running work beside each kind of suspended work; no write locks, SEC 0.
pub fn at_work(k: u64, seed: u64) -> Chip {
    let running = drawn_work(RUNNING[(k % 9) as usize], seed, APART);
    let suspended = drawn_work(SUSPENDED[(k / 9 % 4) as usize], seed, APART);
    let locks = Locks {
        protection: READ_LOCKS & seed_of(seed, 12),
        permanent: 0,
    };
    let works = Works { running, suspended };
    let flags = (seed_of(seed, 13) % 256) as u8 & 0xdf;
    let buffer = buffer_of(is_page_program(running) || is_page_program(suspended), seed);
    assembled(locks, works, flags, draw(seed, 5, 4), buffer)
}

// What W-203 says of it: 0 with nothing running or suspended. Beside suspended work only an erase runs with a program, or a program with an erase.
pub fn at_work_number(works: Works) -> u8 {
    match (works.running, works.suspended) {
        (Work::Nothing, Work::Nothing) => 0,
        (Work::Nothing, _) | (_, Work::Nothing) => 14,
        (Work::EraseSector(_) | Work::EraseBlock(_), Work::ProgramPage(_)) => 14,
        (_, Work::ProgramPage(_)) => 1,
        (Work::ProgramPage(_) | Work::ProgramSecurity(_), _) => 14,
        _ => 1,
    }
}

// ---- broken records

// The n-th of the forty write locks, and of the eight read locks.
fn write_lock(n: u64) -> u64 {
    let k = n % 40;
    if k < 32 { 1 << k } else { 1 << (k * 2 - 32) }
}

fn read_lock(n: u64) -> u64 {
    1 << (33 + n % 8 * 2)
}

fn broken_locks(k: u64, seed: u64) -> Locks {
    let l = right_locks(seed);
    let n = k / 5;
    match k % 5 {
        // a register of more than 48 bits
        0 => Locks {
            protection: l.protection | REGISTER << (n % 16),
            ..l
        },
        1 => Locks {
            permanent: l.permanent | REGISTER << (n % 16),
            ..l
        },
        // a permanent read lock
        2 => Locks {
            protection: l.protection | read_lock(n),
            permanent: l.permanent | read_lock(n),
        },
        // a permanent bit that is not in the protection register
        3 => Locks {
            protection: l.protection & !write_lock(n),
            permanent: l.permanent | write_lock(n),
        },
        _ => l,
    }
}

// An idle record with one fault, in its registers or its buffer.
pub fn broken(k: u64, seed: u64) -> Chip {
    let buffer = buffer_of(k % 5 == 4, seed);
    let flags = (seed_of(seed, 13) % 256) as u8;
    let burst = draw(seed, 5, 4);
    assembled(broken_locks(k, seed), NO_WORKS, flags, burst, buffer)
}

// ---- any record

fn any_kind(seed: u64, question: u64) -> Work {
    if once_in(seed, question, 2) {
        return Work::Nothing;
    }
    RUNNING[(seed_of(seed, question) / 2 % 9) as usize]
}

fn any_locks(seed: u64) -> Locks {
    if once_in(seed, 19, 3) {
        return broken_locks(seed_of(seed, 20), seed);
    }
    Locks {
        protection: any_protection(seed) & seed_of(seed, 21) & seed_of(seed, 22),
        permanent: 0,
    }
}

pub fn any(seed: u64) -> Chip {
    let works = Works {
        running: drawn_work(any_kind(seed, 24), seed, BEYOND),
        suspended: drawn_work(any_kind(seed, 25), seed_of(seed, 26), BEYOND),
    };
    let flags = (seed_of(seed, 13) % 256) as u8;
    let buffer = buffer_of(once_in(seed, 23, 3), seed);
    assembled(any_locks(seed), works, flags, draw(seed, 5, 4), buffer)
}

// ---- memories

fn next(x: u64) -> u64 {
    let a = x ^ (x << 13);
    let b = a ^ (a >> 7);
    b ^ (b << 17)
}

// Random bytes.
fn fill_drawn(s: &mut [u8], seed: u64) {
    let mut x = seed | 1;
    for b in s.iter_mut() {
        x = next(x);
        *b = (x / 0x1_0000_0000 % 256) as u8;
    }
}

// Each byte by its place.
fn fill_by<F: Fn(usize) -> u8>(s: &mut [u8], byte: F)
    requires { F.IsAlwaysCallable byte }
{
    for (i, b) in s.iter_mut().enumerate() {
        *b = byte(i);
    }
}

// The bytes of a memory with this seed: one byte everywhere, a pattern by the place, its page and a number, or drawn ones.
pub fn fill(s: &mut [u8], seed: u64) {
    match seed % 8 {
        0 => s.fill(255),
        1 => s.fill(0),
        2 | 3 | 4 => {
            let by = (seed / 8 % 256) as u8;
            fill_by(s, |i| ((i ^ i / 256) % 256) as u8 ^ by);
        }
        _ => fill_drawn(s, seed),
    }
}

// Each byte is its place's: 0 to 255, again and again.
pub fn fill_counting(s: &mut [u8]) {
    fill_by(s, |i| (i % 256) as u8);
}
