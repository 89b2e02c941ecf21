// Blocks and locks; the kind and the range of work.
#![tactic(auto)]

ghost use Rattle.std.specs.Prelude.{◌≡◌, true, ◌+◌, ◌^◌, ◌≤◌, ◌<◌};
ghost use Rattle.rules.specs.Words.{bit, holds};
ghost use Rattle.rules.specs.Blocks.{array_size_lem, block_of, block_at, write_locked, read_locked, unlocked};
ghost use Rattle.rules.specs.Works.{is_nothing, is_erase, is_program, can_suspend, array_range};
ghost use Rattle.rules.specs.WellFormed.{numbers_right};
ghost use Rattle.rules.specs.Tears.{clean_m};

use rules::{Block, Range, Work};

// Bit n of a register.
pub fn bit_at(p: u64, n: u32) -> bool
    requires { n < 64 }
    ensures { result ≡ bit n p }
{
    (p >> n) & 1 == 1
}

// A block by its number, by comparisons and shifts (products and quotients of powers of two).
// No other function knows the shape of the blocks: where they begin, their sizes, their lock bits.
pub fn block_at(n: usize) -> Block
    requires { n < 40 }
    ensures { result ≡ block_at n }
{
    let lock = n as u32;
    if n < 4 {
        return Block {
            start: 0x1fe000 - 0x2000 * n,
            size: 0x2000,
            write: 46 - 2 * lock,
            paired: true,
        };
    }
    if n < 8 {
        return Block {
            start: 0xe000 - 0x2000 * n,
            size: 0x2000,
            write: 46 - 2 * lock,
            paired: true,
        };
    }
    if n < 9 {
        return Block {
            start: 0x1f0000,
            size: 0x8000,
            write: 39 - lock,
            paired: false,
        };
    }
    if n < 10 {
        return Block {
            start: 0x8000,
            size: 0x8000,
            write: 39 - lock,
            paired: false,
        };
    }
    Block {
        start: 0x280000 - 0x10000 * n,
        size: 0x10000,
        write: 39 - lock,
        paired: false,
    }
}

// The number of the block that holds a place, from the bottom up. In a stretch of blocks of one size numbers fall as places rise.
pub fn block_of(a: usize) -> usize
    requires { a < array_size_lem }
    ensures { result ≡ block_of a }
{
    let low = block_at(9);
    if a < low.start {
        let bottom = block_at(7);
        return 7 - (a - bottom.start) / bottom.size;
    }
    let wide = block_at(39);
    if a < wide.start {
        return 9;
    }
    let high = block_at(8);
    if a < high.start {
        return 39 - (a - wide.start) / wide.size;
    }
    let top = block_at(3);
    if a < top.start {
        return 8;
    }
    3 - (a - top.start) / top.size
}

pub fn write_locked(p: u64, a: usize) -> bool
    requires { a < array_size_lem }
    ensures { result ≡ write_locked p a }
{
    let b = block_at(block_of(a));
    bit_at(p, b.write)
}

// In a pair the odd bit is the read lock.
pub fn read_locked(p: u64, a: usize) -> bool
    requires { a < array_size_lem }
    ensures { result ≡ read_locked p a }
{
    let b = block_at(block_of(a));
    b.paired & bit_at(p, b.write + 1)
}

pub fn is_nothing(w: Work) -> bool
    ensures { result ≡ is_nothing w }
{
    matches!(w, Work::Nothing)
}

pub fn is_erase(w: Work) -> bool
    ensures { result ≡ is_erase w }
{
    matches!(
        w,
        Work::EraseSector(_) | Work::EraseBlock(_) | Work::EraseArray
    )
}

pub fn is_program(w: Work) -> bool
    ensures { result ≡ is_program w }
{
    matches!(w, Work::ProgramPage(_) | Work::ProgramSecurity(_))
}

// The m with which a stop leaves byte k as it was: that of document 01's power cut and reset.
pub fn clean_m(w: Work) -> u8
    ensures { result ≡ clean_m w }
{
    if is_erase(w) { 0x00 } else { 0xff }
}

// One sector or block erase, or one page program.
pub fn can_suspend(w: Work) -> bool
    ensures { result ≡ can_suspend w }
{
    matches!(
        w,
        Work::EraseSector(_) | Work::EraseBlock(_) | Work::ProgramPage(_)
    )
}

// The range of work in the array.
pub fn array_range(w: Work) -> Range
    requires { numbers_right w ≡ true }
    ensures { result ≡ array_range w }
{
    match w {
        Work::EraseSector(n) => Range {
            start: n * 4096,
            size: 4096,
        },
        Work::EraseBlock(n) => {
            let b = block_at(n);
            Range {
                start: b.start,
                size: b.size,
            }
        }
        Work::EraseArray => Range {
            start: 0,
            size: 2097152,
        },
        Work::ProgramPage(n) => Range {
            start: n * 256,
            size: 256,
        },
        _ => Range { start: 0, size: 0 },
    }
}

// No block that has a place in the work's range is write-locked.
pub fn is_unlocked(p: u64, w: Work) -> bool
    requires { (numbers_right w ≡ true) × (p < 2 ^ 48) }
    ensures { result ≡ unlocked p (array_range w) }
{
    match w {
        Work::EraseSector(n) => !write_locked(p, n * 4096),
        Work::EraseBlock(n) => {
            let b = block_at(n);
            let write = b.write;
            !bit_at(p, write)
        }
        Work::EraseArray => p & 0x5555_ffff_ffff == 0,
        Work::ProgramPage(n) => !write_locked(p, n * 256),
        _ => true,
    }
}

// The place lies in the range.
pub fn holds_place(r: Range, a: usize) -> bool
    requires { r.start + r.size ≤ array_size_lem }
    ensures { result ≡ holds r a }
{
    let start = r.start;
    let end = start + r.size;
    (start <= a) & (a < end)
}
