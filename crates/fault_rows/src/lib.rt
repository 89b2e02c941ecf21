// What is wrong with a file, as a row: of another length, or which record and what in it. specs/Faults.antt.
#![tactic(auto)]

ghost use Rattle.std.specs.Prelude.{◌≡◌};
ghost use Rattle.fault_rows.specs.Faults.{length_row, record_row, pair_on, pairs_on, fault_row};

use describing::less;
use image::{Fault, What};
use rows::Row;

// A file of so many bytes.
#[tactic(auto, unfolding(crate::specs::Faults::length_row))]
pub fn length(raw: bool, n: usize) -> Row
    ensures { result ≡ length_row raw n }
{
    if raw {
        if 2097152 < n {
            return rows::below(297, 0, 0, 0);
        }
        return rows::below(296, n as u64, 0, 0);
    }
    if 2148374 < n {
        return rows::below(295, 0, 0, 0);
    }
    rows::below(294, n as u64, 0, 0)
}

#[tactic(auto, unfolding(crate::specs::Faults::record_row))]
fn record_row(at: usize) -> Row
    ensures { result ≡ record_row at }
{
    if at == 0 {
        return rows::below(299, 0, 0, 0);
    }
    if at == 1 {
        return rows::below(300, 0, 0, 0);
    }
    rows::below(301, less(at, 2), 0, 0)
}

// A number of two bytes.
fn pair_on(r: Row, n: usize, x: u64) -> Row
    ensures { result ≡ pair_on n x r }
{
    rows::form(r, n, x / 256, x % 256, 0)
}

fn pairs_on(r: Row, n: usize, found: u64, m: usize, due: u64) -> Row
    ensures { result ≡ pairs_on n found m due r }
{
    let q = pair_on(r, n, found);
    pair_on(q, m, due)
}

// The record, and what in it.
pub fn fault(f: Option<Fault>) -> Row
    ensures { result ≡ fault_row f }
{
    let Some(f) = f else {
        return rows::empty();
    };
    let r = record_row(f.at);
    match f.what {
        What::Length => rows::empty(),
        What::Mark => pairs_on(r, 302, f.found, 305, f.due),
        What::Sum => pairs_on(r, 303, f.found, 306, f.due),
        What::PageNumber => pairs_on(r, 304, f.found, 305, f.due),
        What::BurstCode => rows::form(r, 307, f.found, 0, 0),
        What::ReadLock => rows::form(r, 308, f.found, 0, 0),
        What::Unprotected => rows::form(r, 309, f.found, f.due, 0),
    }
}
