// What is wrong with a file first. crate image, specs/Faults.
ghost use Rattle.std.specs.Prelude.{◌≡◌, ◌+◌, ◌^◌, ◌≤◌, ◌<◌, ◌==◌, length, is_none};
ghost use Rattle.image.specs.declared.What.{What};
ghost use Rattle.image.specs.Form.{number, file_size_lem};
ghost use Rattle.image.specs.Files.{part, locks_in, burst_byte_in, number_in, right};
ghost use Rattle.image.specs.Faults.{fault_of, unless, record_fault, registers_fault, page_fault, first_from, first_fault};

use image::{Fault, What};
use image_records::{sum, two};
use rules::Locks;

// The number in six bytes, high byte first.
fn six(l: &[u8], at: usize) -> u64
    requires { at + 6 ≤ length l.now }
    ensures value { result ≡ number (part l.now at 6) }
    ensures small { result < 2 ^ 48 }
{
    let high = two(l, at);
    let middle = two(l, at + 2);
    let low = two(l, at + 4);
    (high * 0x1_0000 + middle) * 0x1_0000 + low
}

pub fn locks_in(l: &[u8]) -> Locks
    requires { 18 ≤ length l.now }
    ensures value { result ≡ locks_in l.now }
    ensures small { (result.protection < 2 ^ 48) × (result.permanent < 2 ^ 48) }
{
    let protection = six(l, 2);
    let permanent = six(l, 8);
    Locks {
        protection,
        permanent,
    }
}

// The mark, then the sum.
#[tactic(auto, unfolding(image::specs::Faults::record_fault))]
fn record_fault(l: &[u8], k: usize, at: usize, n: usize, mark: u64) -> Option<Fault>
    requires { at + (n + 4) ≤ length l.now }
    ensures { result ≡ record_fault mark l.now k at n }
{
    let mark_there = two(l, at);
    if mark_there != mark {
        return Some(Fault {
            what: What::Mark,
            at: k,
            found: mark_there,
            due: mark,
        });
    }
    let from = at + 2;
    let to = from + n;
    let sum_there = two(l, to);
    let body = sum(l, from, to) as u64;
    if sum_there != body {
        return Some(Fault {
            what: What::Sum,
            at: k,
            found: sum_there,
            due: body,
        });
    }
    None
}

#[tactic(auto, unfolding(image::specs::Faults::registers_fault))]
fn registers_fault(burst: u8, l: Locks) -> Option<Fault>
    ensures { result ≡ registers_fault burst l }
{
    if !numbering::burst_right(burst as u64) {
        return Some(Fault {
            what: What::BurstCode,
            at: 0,
            found: burst as u64,
            due: 3,
        });
    }
    if l.permanent & 0xaaaa_0000_0000 != 0 {
        return Some(Fault {
            what: What::ReadLock,
            at: 0,
            found: l.permanent,
            due: 0,
        });
    }
    if l.permanent & l.protection != l.permanent {
        return Some(Fault {
            what: What::Unprotected,
            at: 0,
            found: l.permanent,
            due: l.protection,
        });
    }
    None
}

// The burst code and the registers that the file says.
fn registers_fault_in(l: &[u8]) -> Option<Fault>
    requires { length l.now ≡ file_size_lem }
    ensures { result ≡ registers_fault (burst_byte_in l.now) (locks_in l.now) }
{
    registers_fault(l[15], locks_in(l))
}

// That it says n.
fn number_fault(l: &[u8], n: usize) -> Option<Fault>
    requires { (n < 8192) × (length l.now ≡ file_size_lem) }
    ensures { result ≡ unless (number_in l.now n == n) (fault_of What.PageNumber (2 + n) (number_in l.now n) n) }
{
    let there = two(l, 2070 + n * 262 + 2);
    if there == n as u64 {
        return None;
    }
    Some(Fault {
        what: What::PageNumber,
        at: 2 + n,
        found: there,
        due: n as u64,
    })
}

// The record, then its number.
#[tactic(auto, using(image::proofs::Faults::found), unfolding(image::specs::Faults::page_fault, image::specs::Form::number_from))]
fn page_fault(l: &[u8], n: usize) -> Option<Fault>
    requires { (n < 8192) × (length l.now ≡ file_size_lem) }
    ensures { result ≡ page_fault l.now n }
{
    record_fault(l, 2 + n, 2070 + n * 262, 258, 0x5047).or_else(|| number_fault(l, n))
}

// The first page that is wrong. No `find_map`: what its clauses say of the range's items did not give `first_from`.
fn pages_fault(l: &[u8]) -> Option<Fault>
    requires { length l.now ≡ file_size_lem }
    ensures { result ≡ first_from (page_fault l.now) 0 8192 }
{
    for n in 0..8192 {
        if let Some(f) = page_fault(l, n) {
            return Some(f);
        }
    }
    None
}

// The first fault; none exactly of a right file.
#[tactic(auto, using(image::proofs::Faults::found), unfolding(image::specs::Faults::first_fault, image::specs::Form::number_from))]
pub fn fault(l: &[u8]) -> Option<Fault>
    ensures value { result ≡ first_fault l.now }
    ensures tells { is_none result ≡ right l.now }
{
    if l.len() != 2148374 {
        return Some(Fault {
            what: What::Length,
            at: 0,
            found: l.len() as u64,
            due: 2148374,
        });
    }
    record_fault(l, 0, 0, 14, 0x5247)
        .or_else(|| registers_fault_in(l))
        .or_else(|| record_fault(l, 1, 18, 2048, 0x5349))
        .or_else(|| pages_fault(l))
}
