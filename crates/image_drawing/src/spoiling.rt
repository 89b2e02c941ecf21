// Files that are not what a writer would write, and the number that reading them must give.
ghost use Rattle.std.specs.Prelude.{◌≡◌, ◌+◌, ◌*◌, ◌%◌, ◌≤◌, length};

use crate::places::File;
use drawing::dice::{draw, seed_of};

// A way of changing a file.
#[derive(Clone, Copy, PartialEq, Eq)]
pub enum Way {
    // any byte becomes another one
    Byte,
    Mark,
    Sum,
    PageNumber,
    Part,
    Code,
    ReadLock,
    WriteLock,
    PagesSwapped,
    MarkCounted,
    PagesCounted,
    NumbersTurned,
    FrontTurned,
    SumTurned,
    BytesSwapped,
    Registers,
    // as it was written, in memories of other lengths
    Lengths,
    // as it was written
    Nothing,
}

// In the order in which they are tried; listed by hand: no derive gives an enum's variants.
pub const WAYS: [Way; 18] = [
    Way::Byte,
    Way::Mark,
    Way::Sum,
    Way::PageNumber,
    Way::Part,
    Way::Code,
    Way::ReadLock,
    Way::WriteLock,
    Way::PagesSwapped,
    Way::MarkCounted,
    Way::PagesCounted,
    Way::NumbersTurned,
    Way::FrontTurned,
    Way::SumTurned,
    Way::BytesSwapped,
    Way::Registers,
    Way::Lengths,
    Way::Nothing,
];

// A record: the place of its mark, which has two bytes, and the length of the body behind it; behind that stands a sum of two bytes.
#[derive(Clone, Copy)]
struct Record {
    at: usize,
    body: usize,
    ghost in_file: { at + body + 4 ≤ 2148374 },
}

const REGISTERS: Record = Record { at: 0, body: 14 };

// PG n stands at 2070 + 262 n: 18 bytes of RG, 2,052 of SI, and 2 + 258 + 2 for each page before it.
fn page(n: u64) -> Record
    ensures { (result.at ≡ 2070 + n % 8192 * 262) × (result.body ≡ 258) }
{
    Record {
        at: 2070 + (n % 8192 * 262) as usize,
        body: 258,
    }
}

fn any_page(seed: u64) -> Record
    ensures { result.body ≡ 258 }
{
    page(seed_of(seed, 31))
}

// RG, SI, the first page, the last one, or any.
fn any_record(seed: u64) -> Record {
    match draw(seed, 30, 6) {
        0 => REGISTERS,
        1 => Record { at: 18, body: 2048 },
        2 => page(0),
        3 => page(8191),
        _ => any_page(seed),
    }
}

impl Record {
    // The place of its sum.
    fn sum_at(self) -> usize
        ensures { (result ≡ self.at + self.body + 2) × (result + 2 ≤ 2148374) }
    {
        self.at + self.body + 2
    }

    // The sum is right again; or it has counted so much more.
    fn seal(self, file: &mut File, more: u16) {
        let i = self.sum_at();
        let sum = total(&file[self.at + 2..i]).wrapping_add(more);
        file[i..i + 2].copy_from_slice(&sum.to_be_bytes());
    }
}

fn total(s: &[u8]) -> u16 {
    s.iter()
        .fold(0, |total, b| total.wrapping_add(u16::from(*b)))
}

// A byte becomes another one.
fn spoil(byte: &mut u8, seed: u64) {
    *byte ^= (1 + seed_of(seed, 32) % 255) as u8;
}

// n bytes from one place on and n bytes from another behind them change places.
fn swap_ranges(file: &mut File, a: usize, b: usize, n: usize)
    requires { (a + n ≤ b) × (b + n ≤ 2148374) }
{
    let (front, back) = file.split_at_mut(b);
    front[a..a + n].swap_with_slice(&mut back[..n]);
}

// ---- the ways

// A wrong mark: one of its bytes.
fn mark_spoiled(seed: u64, file: &mut File) {
    let r = any_record(seed);
    spoil(&mut file[r.at + (seed % 2) as usize], seed);
}

// A wrong sum: one of its bytes.
fn sum_spoiled(seed: u64, file: &mut File) {
    let r = any_record(seed);
    spoil(&mut file[r.sum_at() + (seed % 2) as usize], seed);
}

// A wrong page number under its sum.
fn page_number_spoiled(seed: u64, file: &mut File) {
    let r = any_page(seed);
    spoil(&mut file[r.at + 2 + (seed % 2) as usize], seed);
    r.seal(file, 0);
}

// A code above 3: 4, or any.
fn code_spoiled(n: u64, seed: u64, file: &mut File) {
    file[15] = if n % 2 == 0 {
        4
    } else {
        (4 + seed_of(seed, 33) % 252) as u8
    };
    REGISTERS.seal(file, 0);
}

// A bit of a register: bit 0 is in the last byte.
fn put_bit(register: &mut [u8], bit: u64, on: bool)
    requires { length register.old ≡ 6 }
{
    let byte = &mut register[(5 - bit % 48 / 8) as usize];
    let mask = 1 << (bit % 8);
    if on {
        *byte |= mask;
    } else {
        *byte &= !mask;
    }
}

// A permanent bit that the protection register has too, or has not: the registers stand in six bytes each, behind the mark.
fn permanent_bit_put(bit: u64, protected: bool, file: &mut File) {
    put_bit(&mut file[2..8], bit, protected);
    put_bit(&mut file[8..14], bit, true);
    REGISTERS.seal(file, 0);
}

// Two pages change places, with their numbers and sums.
fn pages_swapped(seed: u64, file: &mut File) {
    let a = page(seed_of(seed, 36) % 4096);
    let b = page(4096 + seed_of(seed, 37) % 4096);
    swap_ranges(file, a.at, b.at, 262);
}

// A sum low byte first: the same where its two bytes are.
fn sum_turned(seed: u64, file: &mut File) -> u8 {
    let i = any_record(seed).sum_at();
    let same = file[i] == file[i + 1];
    file.swap(i, i + 1);
    if same { 0 } else { 15 }
}

// A sum that counts the mark: RG has 99, SI 9C, PG 97.
fn mark_counted(seed: u64, file: &mut File) {
    let r = any_record(seed);
    let mark = total(&file[r.at..r.at + 2]);
    r.seal(file, mark);
}

// Pages that count from 1, each under its sum.
fn pages_counted(file: &mut File) {
    for n in 0..8192 {
        let r = page(n);
        file[r.at + 2..r.at + 4].copy_from_slice(&(n as u16 + 1).to_be_bytes());
        r.seal(file, 0);
    }
}

// Page numbers low byte first: the sum stays.
fn page_numbers_turned(file: &mut File) {
    for n in 0..8192 {
        let r = page(n);
        file.swap(r.at + 2, r.at + 3);
    }
}

// Two bytes of a page change places: another chip's right file.
fn bytes_swapped(seed: u64, file: &mut File) {
    let r = any_page(seed);
    let i = (4 + seed_of(seed, 38) % 256) as usize;
    let j = (4 + seed_of(seed, 39) % 256) as usize;
    file.swap(r.at + i, r.at + j);
}

// Flag bit 7 is the part (02, W-204): the right file of the same chip, of the other part.
fn part_changed(file: &mut File) {
    file[14] ^= 0x80;
    REGISTERS.seal(file, 0);
}

// Other flags and another code: another chip's right file.
fn registers_changed(seed: u64, file: &mut File) {
    file[14] = (seed_of(seed, 40) % 256) as u8;
    file[15] = (seed_of(seed, 41) % 4) as u8;
    REGISTERS.seal(file, 0);
}

// A file that one of the ways has changed, for the n-th time, and the number that reading it must give.
pub fn spoiled(way: Way, n: u64, seed: u64, file: &mut File) -> u8 {
    match way {
        Way::Byte => spoil(&mut file[(seed_of(seed, 42) % 2148374) as usize], seed),
        Way::Mark => mark_spoiled(seed, file),
        Way::Sum => sum_spoiled(seed, file),
        Way::PageNumber => page_number_spoiled(seed, file),
        Way::Code => code_spoiled(n, seed, file),
        // one of bits 33, 35, .. 47
        Way::ReadLock => permanent_bit_put(33 + n % 8 * 2, true, file),
        // one in each byte that has them and two more
        Way::WriteLock => permanent_bit_put(n % 8 * 6, false, file),
        Way::PagesSwapped => pages_swapped(seed, file),
        Way::MarkCounted => mark_counted(seed, file),
        Way::PagesCounted => pages_counted(file),
        Way::NumbersTurned => page_numbers_turned(file),
        // RG and as many bytes of SI
        Way::FrontTurned => swap_ranges(file, 0, 18, 18),
        Way::SumTurned => return sum_turned(seed, file),
        Way::Part => part_changed(file),
        Way::BytesSwapped => bytes_swapped(seed, file),
        Way::Registers => registers_changed(seed, file),
        Way::Lengths | Way::Nothing => {}
    }
    match way {
        Way::Lengths => 1,
        Way::Part | Way::BytesSwapped | Way::Registers | Way::Nothing => 0,
        _ => 15,
    }
}
