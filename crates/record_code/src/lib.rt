// The chip record as bytes: what crosses the boundary to other languages and is stored. The layout is in specs/Layout.antt.
// The page stays where it is: these functions read and write what stands behind it.
#![tactic(auto)]

ghost use Rattle.std.specs.Prelude.{◌≡◌, ◌&&◌, ◌++◌, ◌+◌, ◌*◌, ◌≤◌, eqb, leb, length, take, drop};
ghost use Rattle.rules.specs.Bursts.{last_burst, burst_of};
ghost use Rattle.rules.specs.Fields.{works_of, rest_of};
ghost use Rattle.rules.specs.declared.Work.TheVariants.{Nothing};
ghost use Rattle.numbering.specs.Numbering.{work_right, work_of};
ghost use Rattle.record_code.specs.Layout.{bytes, number_at, word, field_in, rest_code, rest_in, is_code, NothingReserved};

use numbering::{burst_byte, flags_number, flags_of, kind_of, number_of};
use rules::{Burst, Locks, Rest, Work, Works};

// ---- from a record to bytes

// A number in n bytes, between those before it and those behind. At a known n the loop becomes one store.
fn put_number(coded: &mut [u8], at: usize, n: usize, x: u64)
    requires { at + n ≤ length coded.old }
    ensures { (take (at + n) coded.new ≡ take at coded.old ++ bytes n x) × (drop (at + n) coded.new ≡ drop (at + n) coded.old) }
{
    let mut left = x;
    let part = &mut coded[at..at + n];
    for b in part.iter_mut() {
        *b = (left % 256) as u8;
        left /= 256;
    }
}

// What stands behind the page becomes the record's. The reserved bytes are 0 already.
pub fn put_rest(coded: &mut [u8], r: Rest)
    requires { (length coded.old ≡ 320) × NothingReserved coded.old }
    ensures { coded.new ≡ take 256 coded.old ++ rest_code r }
{
    let works = r.works;
    let running = works.running;
    let suspended = works.suspended;
    let running_number = number_of(running);
    let suspended_number = number_of(suspended);
    let running_kind = kind_of(running);
    let suspended_kind = kind_of(suspended);
    let flags = flags_number(r.flags);
    let set = r.burst;
    let burst = burst_byte(set);
    put_number(coded, 256, 8, r.locks.protection);
    put_number(coded, 264, 8, r.locks.permanent);
    put_number(coded, 272, 8, running_number);
    put_number(coded, 280, 8, suspended_number);
    put_number(coded, 288, 1, running_kind);
    put_number(coded, 289, 1, suspended_kind);
    put_number(coded, 290, 1, flags);
    put_number(coded, 291, 1, burst);
}

// The same of a record at which nothing runs and nothing is suspended, whatever stood in the reserved bytes.
pub fn put_idle(coded: &mut [u8], r: Rest)
    requires { length coded.old ≡ 320 }
    ensures { coded.new ≡ take 256 coded.old ++ rest_code (rest_of r.locks (works_of Nothing Nothing) r.flags r.burst) }
{
    let flags = flags_number(r.flags);
    let set = r.burst;
    let burst = burst_byte(set);
    put_number(coded, 256, 8, r.locks.protection);
    put_number(coded, 264, 8, r.locks.permanent);
    put_number(coded, 272, 18, 0);
    put_number(coded, 290, 1, flags);
    put_number(coded, 291, 1, burst);
    put_number(coded, 292, 28, 0);
}

// ---- from bytes to a record

// Eight bytes as a number: one load.
fn get_word(coded: &[u8], at: usize) -> u64
    requires { at + 8 ≤ length coded.now }
    ensures { result ≡ word coded.now at }
{
    u64::from_le_bytes(*coded[at..].first_chunk::<8>().unwrap())
}

// A byte of the code as a kind.
fn work_right(kind: u8, n: u64) -> bool
    ensures { result ≡ work_right kind n }
{
    numbering::work_right(u64::from(kind), n)
}

fn work_of(kind: u8, n: u64) -> Work
    ensures { result ≡ work_of kind n }
{
    numbering::work_of(u64::from(kind), n)
}

// A byte of the code as a burst's.
fn burst_right(x: u8) -> bool
    ensures { result ≡ leb x last_burst }
{
    numbering::burst_right(u64::from(x))
}

fn burst_of(x: u8) -> Burst
    ensures { result ≡ burst_of x }
{
    numbering::burst_of(u64::from(x))
}

// The reserved bytes are all 0. No early exit, so that the loop becomes a few wide instructions.
fn nothing_reserved(coded: &[u8]) -> bool
    requires { length coded.now ≡ 320 }
    ensures { result ≡ eqb (number_at coded.now 292 28) 0 }
{
    coded[292..320].iter().fold(0, |other, b| other | *b) == 0
}

// The bytes are some record's code.
pub fn is_code(coded: &[u8]) -> bool
    ensures { result ≡ is_code coded.now }
{
    if coded.len() != 320 {
        return false;
    }
    let running = work_right(coded[288], get_word(coded, 272));
    let suspended = work_right(coded[289], get_word(coded, 280));
    running & suspended & burst_right(coded[291]) & nothing_reserved(coded)
}

// What the record of the bytes holds behind its page.
pub fn rest_in(coded: &[u8]) -> Rest
    requires { length coded.now ≡ 320 }
    ensures { result ≡ rest_in coded.now }
{
    let protection = get_word(coded, 256);
    let permanent = get_word(coded, 264);
    let running = work_of(coded[288], get_word(coded, 272));
    let suspended = work_of(coded[289], get_word(coded, 280));
    let flags = flags_of(coded[290]);
    let burst = burst_of(coded[291]);
    Rest {
        locks: Locks {
            protection,
            permanent,
        },
        works: Works { running, suspended },
        flags,
        burst,
    }
}

// Both kinds are 0: nothing runs, and nothing is suspended.
pub fn is_idle(coded: &[u8]) -> bool
    requires { length coded.now ≡ 320 }
    ensures { result ≡ (eqb (field_in coded.now "running kind") 0 && eqb (field_in coded.now "suspended kind") 0) }
{
    (coded[288] == 0) & (coded[289] == 0)
}

// What the record of the bytes holds behind its page, with nothing that runs or is suspended.
pub fn idle_in(coded: &[u8]) -> Rest
    requires { length coded.now ≡ 320 }
    ensures { result ≡ rest_of (rest_in coded.now).locks (works_of Nothing Nothing) (rest_in coded.now).flags (rest_in coded.now).burst }
{
    let protection = get_word(coded, 256);
    let permanent = get_word(coded, 264);
    let flags = flags_of(coded[290]);
    let burst = burst_of(coded[291]);
    Rest {
        locks: Locks {
            protection,
            permanent,
        },
        works: Works {
            running: Work::Nothing,
            suspended: Work::Nothing,
        },
        flags,
        burst,
    }
}

// What runs and what is suspended, read again where an event stops it: with a second caller rest_in would be called at every event.
pub fn works_in(coded: &[u8]) -> Works
    requires { length coded.now ≡ 320 }
    ensures { result ≡ (rest_in coded.now).works }
{
    let running = work_of(coded[288], get_word(coded, 272));
    let suspended = work_of(coded[289], get_word(coded, 280));
    Works { running, suspended }
}
