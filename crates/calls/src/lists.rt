// What a line says to the store. specs/Lists.antt.
ghost use Rattle.std.specs.Prelude.{◌≡◌, get_or};
ghost use Rattle.calls.specs.Lists.{station_of, allowance_of, entry_at, list_of, writes_ended};

use std::array;

pub fn station_of(slots: [u64; 24]) -> u16
    ensures { result ≡ station_of slots }
{
    (slots[7] % 65536) as u16
}

pub fn allowance_of(slots: [u64; 24]) -> u64
    ensures { result ≡ allowance_of slots }
{
    if slots[2] == 0 {
        return 65535;
    }
    slots[8]
}

// The byte at a place, 0 past the end.
fn at(s: &[u8], i: usize) -> u8
    ensures { result ≡ get_or s.now i 0 }
{
    s.get(i).copied().unwrap_or(0)
}

#[tactic(auto, unfolding(crate::specs::Lists::entry_at))]
fn entry_at(given: bool, high: &[u8], low: &[u8], j: usize) -> u64
    ensures { result ≡ entry_at given high.now low.now j }
{
    if given {
        return u64::from(u16::from_be_bytes([at(high, j), at(low, j)]));
    }
    1
}

pub fn list_of(slots: [u64; 24], high: &[u8], low: &[u8]) -> [u64; 2050]
    ensures { result ≡ list_of slots high.now low.now }
{
    let given = slots[10] != 0;
    array::from_fn(|j| entry_at(given, high, low, j))
}

// How many writes would end in time, one after the other.
pub fn writes_ended(allowance: u64, list: &[u64; 2050]) -> usize
    ensures { result ≡ writes_ended allowance list.now }
{
    list.iter()
        .take_while(|e| (1..=allowance).contains(*e))
        .count()
}
