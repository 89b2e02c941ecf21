// The first row of a line with a call. specs/Stations.antt.
ghost use Rattle.std.specs.Prelude.{◌≡◌, ◌-◌};
ghost use Rattle.page.specs.Page.{form};
ghost use Rattle.slots.specs.Reads.{shown_of};
ghost use Rattle.station_rows.specs.Stations.{refused_on, store_head, find_head, station_count, stations_head, head_row};

use calling::Account;
use census::Counts;
use rows::Row;
use slots::ListRead;
use standing::Call;

fn refused(r: Row, number: u8, polls: u64) -> Row
    ensures { result ≡ refused_on number polls r }
{
    let r = rows::form(r, 21, number as u64, 0, 0);
    if number == 18 {
        return rows::form(r, 352, polls, 0, 0);
    }
    r
}

#[tactic(auto, unfolding(crate::specs::Stations::store_head))]
fn store(line: u64, n: u16, number: u8, polls: u64, read: &ListRead) -> Row
    ensures { result ≡ store_head line n number polls (shown_of read.now) }
{
    let r = rows::headed(line, 338, n as u64);
    if number == 0 {
        let i = read.first_empty().unwrap_or(2048);
        return rows::form(r, 341, i as u64, polls, 0);
    }
    refused(r, number, polls)
}

#[tactic(auto, unfolding(crate::specs::Stations::find_head))]
fn find(line: u64, n: u16, number: u8, bytes: &[u8], read: &ListRead) -> Row
    ensures { result ≡ find_head line n number bytes.now (shown_of read.now) }
{
    let r = rows::headed(line, 339, n as u64);
    if number == 0 {
        let i = read.live_from(n, 0).unwrap_or(2048);
        let r = rows::form(r, 342, i as u64, 0, 0);
        let r = byte_text::printed_bytes(r, bytes, 0, 28);
        return rows::form(r, 199, 0, 0, 0);
    }
    rows::form(r, 21, number as u64, 0, 0)
}

// How many stations lookup finds.
pub fn station_count(c: Counts) -> u64
    ensures { result ≡ station_count c }
{
    c.live.saturating_sub(c.passed)
}

fn stations(line: u64, number: u8, c: Counts) -> Row
    ensures { result ≡ stations_head line number c }
{
    let r = rows::headed(line, 340, 0);
    if number == 0 {
        let n = station_count(c);
        return rows::form(r, 353, n, 0, 0);
    }
    rows::form(r, 21, number as u64, 0, 0)
}

pub fn row(k: Call, line: u64, n: u16, number: u8, a: Account, read: &ListRead) -> Row
    ensures { result ≡ head_row k line n number a (shown_of read.now) }
{
    let bytes = a.bytes;
    let counts = a.counts;
    match k {
        Call::Store => store(line, n, number, a.polls, read),
        Call::Find => find(line, n, number, &bytes, read),
        Call::Stations => stations(line, number, counts),
    }
}
