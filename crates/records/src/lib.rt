// The test of a well-formed chip record.
#![tactic(auto)]

ghost use Rattle.std.specs.Prelude.{◌≡◌, true, ◌+◌, ◌^◌, ◌≤◌, ◌<◌, length};
ghost use Rattle.rules.specs.Words.{overlap};
ghost use Rattle.rules.specs.Fields.{chip_of};
ghost use Rattle.rules.specs.WellFormed.{numbers_right, locks_right, beside_right, security_right, buffer_right, works_right, well_formed};

use rules::{Locks, Range, Rest, Work, Works};

pub fn numbers_right(w: Work) -> bool
    ensures { result ≡ numbers_right w }
{
    match w {
        Work::EraseSector(n) => n < 512,
        Work::EraseBlock(n) => n < 40,
        Work::ProgramPage(n) => n < 8192,
        Work::ProgramSecurity(n) => n < 8,
        Work::Nothing
        | Work::EraseArray
        | Work::LockSecurity
        | Work::WriteConfiguration(_, _)
        | Work::AddPermanent(_) => true,
    }
}

fn locks_right(l: Locks) -> bool
    ensures { result ≡ locks_right l }
{
    (l.protection < 0x1_0000_0000_0000)
        & (l.permanent < 0x1_0000_0000_0000)
        & (l.permanent & 0xaaaa_0000_0000 == 0)
        & (l.permanent & l.protection == l.permanent)
}

// Some place lies in both ranges.
fn overlaps(r: Range, s: Range) -> bool
    requires { (r.start + r.size ≤ 2097152) × (s.start + s.size ≤ 2097152) }
    ensures { result ≡ overlap r s }
{
    let a = r.start;
    let b = s.start;
    let x = a + r.size;
    let y = b + s.size;
    (a < x) & (a < y) & (b < x) & (b < y)
}

// They do not overlap and are one erase and one program, where something runs beside suspended work.
pub fn beside_right(r: Work, s: Work) -> bool
    requires { (numbers_right r ≡ true) × (numbers_right s ≡ true) }
    ensures { result ≡ beside_right r s }
{
    if blocks::is_nothing(r) | blocks::is_nothing(s) {
        return true;
    }
    let range = blocks::array_range(r);
    let other = blocks::array_range(s);
    let pair = blocks::is_erase(r) & blocks::is_program(s)
        | blocks::is_program(r) & blocks::is_erase(s);
    !overlaps(range, other) & pair
}

// Running Security ID work has SEC 0, and an A5 of page 0 leaves the first eight bytes.
pub fn security_right(r: Work, sec: bool, page: &[u8]) -> bool
    requires { length page.now ≡ 256 }
    ensures { result ≡ security_right r sec page.now }
{
    match r {
        Work::ProgramSecurity(n) => !sec & ((n != 0) | memory::first_ff(page, 8)),
        Work::LockSecurity => !sec,
        Work::Nothing
        | Work::EraseSector(_)
        | Work::EraseBlock(_)
        | Work::EraseArray
        | Work::ProgramPage(_)
        | Work::WriteConfiguration(_, _)
        | Work::AddPermanent(_) => true,
    }
}

fn buffer_right(r: Work, s: Work, page: &[u8]) -> bool
    requires { length page.now ≡ 256 }
    ensures { result ≡ buffer_right r s page.now }
{
    blocks::is_program(r) | blocks::is_program(s) | memory::first_ff(page, 256)
}

// With nothing running, the kind of the suspended work, its lock and the buffer decide.
fn works_right(p: u64, sec: bool, page: &[u8], w: Works) -> bool
    requires { (numbers_right w.running ≡ true) × ((numbers_right w.suspended ≡ true) × ((p < 2 ^ 48) × (length page.now ≡ 256))) }
    ensures { result ≡ works_right p sec page.now w }
{
    let r = w.running;
    let s = w.suspended;
    let kind = blocks::is_nothing(s) | blocks::can_suspend(s);
    let aside_open = blocks::is_unlocked(p, s);
    let clean = buffer_right(r, s, page);
    if blocks::is_nothing(r) {
        return kind & aside_open & clean;
    }
    let beside = beside_right(r, s);
    let run_open = blocks::is_unlocked(p, r);
    let security = security_right(r, sec, page);
    kind & beside & run_open & aside_open & security & clean
}

// With something running or suspended. Test by test: as one chain of && the branches join, and the goals were left.
fn well_formed_at_work(r: Rest, page: &[u8]) -> bool
    requires { length page.now ≡ 256 }
    ensures { result ≡ well_formed (chip_of page.now r) }
{
    if !locks_right(r.locks) {
        return false;
    }
    let works = r.works;
    let run = works.running;
    let aside = works.suspended;
    if !numbers_right(run) {
        return false;
    }
    if !numbers_right(aside) {
        return false;
    }
    works_right(r.locks.protection, r.flags.sec, page, works)
}

// The record with this page buffer and this rest is well-formed. At rest the registers and the buffer decide.
pub fn well_formed(r: Rest, page: &[u8]) -> bool
    requires { length page.now ≡ 256 }
    ensures { result ≡ well_formed (chip_of page.now r) }
{
    let works = r.works;
    let run = works.running;
    let aside = works.suspended;
    if blocks::is_nothing(run) & blocks::is_nothing(aside) {
        return locks_right(r.locks) & memory::first_ff(page, 256);
    }
    well_formed_at_work(r, page)
}
