// Works, flags and the burst as numbers: what the record's code and a script's fields say. specs/Numbering.antt.
#![tactic(auto)]

ghost use Rattle.std.specs.Prelude.{◌≡◌, ◌≤◌, leb};
ghost use Rattle.rules.specs.Words.{num};
ghost use Rattle.rules.specs.Bursts.{burst_byte, burst_length, last_burst, burst_of};
ghost use Rattle.rules.specs.Fields.{flags_number, flags_in};
ghost use Rattle.numbering.specs.Numbering.{kind_of, number_of, work_right, work_of};

use rules::{Burst, Flags, Work};

// ---- works

// The kinds are numbers in a record's bytes (fulkibono.h). No cast gives them, since most works have a number beside the kind.
pub fn kind_of(w: Work) -> u64
    ensures { result ≡ kind_of w }
{
    match w {
        Work::Nothing => 0,
        Work::EraseSector(_) => 1,
        Work::EraseBlock(_) => 2,
        Work::EraseArray => 3,
        Work::ProgramPage(_) => 4,
        Work::ProgramSecurity(_) => 5,
        Work::LockSecurity => 6,
        Work::WriteConfiguration(_, _) => 7,
        Work::AddPermanent(_) => 8,
    }
}

pub fn number_of(w: Work) -> u64
    ensures { result ≡ number_of w }
{
    match w {
        Work::Nothing | Work::EraseArray | Work::LockSecurity => 0,
        Work::EraseSector(n)
        | Work::EraseBlock(n)
        | Work::ProgramPage(n)
        | Work::ProgramSecurity(n) => n as u64,
        Work::WriteConfiguration(ioc, wpen) => u64::from(ioc) + 2 * u64::from(wpen),
        Work::AddPermanent(v) => v,
    }
}

// The kind and the number are some work's.
pub fn work_right(kind: u64, n: u64) -> bool
    ensures { result ≡ work_right kind n }
{
    (kind < 9) & (!((kind == 0) | (kind == 3) | (kind == 6)) | (n == 0)) & ((kind != 7) | (n < 4))
}

// Total, no Option: record_code judges a record's bytes by `work_right` and takes them apart later, and the law work_kept names the two.
pub fn work_of(kind: u64, n: u64) -> Work
    ensures { result ≡ work_of kind n }
{
    match kind {
        1 => Work::EraseSector(n as usize),
        2 => Work::EraseBlock(n as usize),
        3 => Work::EraseArray,
        4 => Work::ProgramPage(n as usize),
        5 => Work::ProgramSecurity(n as usize),
        6 => Work::LockSecurity,
        7 => Work::WriteConfiguration(n % 2 == 1, n / 2 % 2 == 1),
        8 => Work::AddPermanent(n),
        _ => Work::Nothing,
    }
}

// ---- flags

pub fn flags_number(f: Flags) -> u64
    ensures { result ≡ flags_number f }
{
    u64::from(f.sqi)
        + 2 * u64::from(f.wel)
        + 4 * u64::from(f.ioc)
        + 8 * u64::from(f.wpen)
        + 16 * u64::from(f.wpld)
        + 32 * u64::from(f.sec)
        + 64 * u64::from(f.enable)
        + 128 * u64::from(f.ba)
}

pub fn flags_of(x: u8) -> Flags
    ensures { result ≡ flags_in x }
{
    Flags {
        sqi: x % 2 == 1,
        wel: x / 2 % 2 == 1,
        ioc: x / 4 % 2 == 1,
        wpen: x / 8 % 2 == 1,
        wpld: x / 16 % 2 == 1,
        sec: x / 32 % 2 == 1,
        enable: x / 64 % 2 == 1,
        ba: x / 128 % 2 == 1,
    }
}

// ---- the burst

// The byte that sets it.
pub fn burst_byte(b: Burst) -> u64
    ensures { result ≡ burst_byte b }
{
    b as u64
}

// How many bytes it has: 8, 16, 32 or 64.
pub fn burst_length(b: Burst) -> usize
    ensures { result ≡ burst_length b }
{
    8 << (b as usize)
}

// The burst that a byte sets.
pub fn burst_of(x: u64) -> Burst
    ensures { result ≡ burst_of x }
{
    match x {
        0 => Burst::Eight,
        1 => Burst::Sixteen,
        2 => Burst::ThirtyTwo,
        _ => Burst::SixtyFour,
    }
}

// A byte that sets one.
pub fn burst_right(x: u64) -> bool
    ensures { result ≡ leb x last_burst }
{
    x <= 3
}
