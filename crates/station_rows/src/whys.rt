// Why a call was refused, and what of the found bytes is not met. specs/Stations.antt.
ghost use Rattle.std.specs.Prelude.{◌≡◌};
ghost use Rattle.census.specs.Census.{counts_below};
ghost use Rattle.slots.specs.Reads.{shown_of};
ghost use Rattle.station_rows.specs.Stations.{number_form, number_row, length_row, running_row, chip_row, why_row, length_unmet, size_of, counts_row};
ghost use Rattle.standing.specs.declared.Call.{Call};

use crate::listings::counts_row;
use expecting::Verdict;
use rows::Row;
use rules::Chip;
use slots::ListRead;
use standing::Call;

#[tactic(auto, unfolding(crate::specs::Stations::number_form))]
fn number_form(number: u8) -> usize
    ensures { result ≡ number_form number }
{
    if number < 15 {
        return 24 + number as usize;
    }
    if number == 15 {
        return 276;
    }
    303 + (number as usize).min(18)
}

// The number's words.
pub fn number(number: u8) -> Row
    ensures { result ≡ number_row number }
{
    if number == 0 {
        return rows::empty();
    }
    rows::below(number_form(number), 0, 0, 0)
}

// ---- 1

fn malformed(array: usize, security: usize, before: Chip) -> Row
    ensures { result ≡ length_row Call.Find 0 0 array security before }
{
    let r = rows::plain(1, 0, 0, 0);
    rows::malformed(r, array, security, 4, 65536, 65536, before)
}

fn store_length(size: usize, allowance: u64, array: usize, security: usize, before: Chip) -> Row
    ensures { result ≡ length_row Call.Store size allowance array security before }
{
    if size != 28 {
        return rows::below(343, size as u64, 0, 0);
    }
    if 65535 < allowance {
        return rows::below(344, allowance, 0, 0);
    }
    malformed(array, security, before)
}

fn wrong_length(
    k: Call,
    size: usize,
    allowance: u64,
    array: usize,
    security: usize,
    before: Chip,
) -> Row
    ensures { result ≡ length_row k size allowance array security before }
{
    match k {
        Call::Store => store_length(size, allowance, array, security, before),
        Call::Find => malformed(array, security, before),
        Call::Stations => malformed(array, security, before),
    }
}

// ---- 16

fn counted(read: &ListRead) -> Row
    ensures { result ≡ counts_row (counts_below (shown_of read.now) 2048) }
{
    counts_row(census::counted(read))
}

// ---- 18

#[tactic(auto, unfolding(crate::specs::Stations::running_row))]
fn running(n: u16, writes: usize, read: &ListRead) -> Row
    ensures { result ≡ running_row n writes (shown_of read.now) }
{
    let free = read.first_empty().unwrap_or(2048);
    if writes == 0 {
        return rows::below(345, free as u64, 0, 0);
    }
    if writes == 1 {
        return rows::below(346, free as u64, 0, 0);
    }
    let i = census::live_at(read, n, writes - 2).unwrap_or(2048);
    rows::below(347, i as u64, 0, 0)
}

// ---- the chip's numbers

fn of_chip(number: u8, before: Chip) -> Row
    ensures { result ≡ chip_row number before }
{
    let rest = before.rest;
    let r = rows::plain(1, 0, 0, 0);
    if (number == 8) | (number == 11) {
        return rows::reason(r, number, rest, b"\x02\x01\x00\x00");
    }
    rows::reason(r, number, rest, b"\x03\x01\x00\x00")
}

// By the number.
pub fn why(
    k: Call,
    number: u8,
    n: u16,
    size: usize,
    allowance: u64,
    writes: usize,
    array: usize,
    security: usize,
    before: Chip,
    read: &ListRead,
) -> Row
    ensures { result ≡ why_row k number n size allowance writes array security before (shown_of read.now) }
{
    if (number == 0) | (number == 17) {
        return rows::empty();
    }
    if number == 1 {
        return wrong_length(k, size, allowance, array, security, before);
    }
    if number == 16 {
        return counted(read);
    }
    if number == 18 {
        return running(n, writes, read);
    }
    of_chip(number, before)
}

// ---- the found bytes

#[tactic(auto, unfolding(crate::specs::Stations::length_unmet))]
pub fn length_unmet(i: usize, v: Verdict, count: usize, number: u8) -> Row
    ensures { result ≡ length_unmet i v count number }
{
    if (i == 2) & v.length {
        return rows::below(185, count as u64, calling::found_count(number) as u64, 0);
    }
    rows::empty()
}

pub fn size_of(slots: [u64; 24], n: usize) -> usize
    ensures { result ≡ size_of slots n }
{
    if (slots[9] != 0) & (n <= 28) {
        return 28;
    }
    n
}
