// What was found, and the list. specs/Stations.antt.
ghost use Rattle.std.specs.Prelude.{◌≡◌, eqb, ◌<◌};
ghost use Rattle.standing.specs.declared.Call.{Call};
ghost use Rattle.rules.specs.Words.{pick};
ghost use Rattle.writing.specs.Rows.{blank};
ghost use Rattle.slots.specs.Reads.{shown_of};
ghost use Rattle.station_rows.specs.Stations.{found_row, slot_row, found_slot_row, station_row, left_out_row, counts_row, bytes_row, more_row};

use crate::heads::station_count;
use calling::Account;
use census::Counts;
use rows::Row;
use slots::ListRead;
use standing::Call;

#[tactic(auto, unfolding(crate::specs::Stations::found_row))]
fn found_row(number: u8, i: usize, bytes: &[u8; 28]) -> Row
    ensures { result ≡ found_row number i bytes.now }
{
    let sure = [1u8; 28];
    if number != 0 {
        return rows::empty();
    }
    rows::reply(i.min(1) * 16, bytes, &sure)
}

#[tactic(auto, unfolding(crate::specs::Stations::slot_row))]
fn slot_row(read: &ListRead, i: usize) -> Row
    requires { i < 2048 }
    ensures { result ≡ slot_row (shown_of read.now) read.now.reply.now i }
{
    let n = read.station_of(i);
    let r = rows::below(348, n as u64, i as u64, 0);
    let r = byte_text::printed_bytes(r, read.reply, i * 32 + 4, 28);
    rows::form(r, 199, 0, 0, 0)
}

// Where lookup finds the slot.
fn found_slot_row(read: &ListRead, i: usize) -> Row
    requires { i < 2048 }
    ensures { result ≡ found_slot_row (shown_of read.now) read.now.reply.now i }
{
    if census::is_found(read, i) {
        return slot_row(read, i);
    }
    rows::empty()
}

fn station_row(number: u8, cut: usize, read: &ListRead, i: usize) -> Row
    ensures { result ≡ station_row number cut (shown_of read.now) read.now.reply.now i }
{
    if (number == 0) & (i < cut) & (i < 2048) {
        return found_slot_row(read, i);
    }
    rows::empty()
}

fn left_out_row(number: u8, cut: usize, c: Counts) -> Row
    ensures { result ≡ left_out_row number cut c }
{
    let n = station_count(c);
    if (number == 0) & (cut < 2048) & (32 < n) {
        return rows::below(349, n - 32, 0, 0);
    }
    rows::empty()
}

pub fn counts_row(c: Counts) -> Row
    ensures { result ≡ counts_row c }
{
    let r = rows::below(350, c.empty, c.live, c.passed);
    rows::form(r, 351, c.dead, 0, 0)
}

fn list_row(number: u8, a: Account, i: usize, read: &ListRead) -> Row
    ensures { result ≡ bytes_row Call.Stations number a i (shown_of read.now) read.now.reply.now }
{
    let counts = a.counts;
    if i < 2048 {
        return station_row(number, a.cut, read, i);
    }
    left_out_row(number, a.cut, counts)
}

// Row i of a line's bytes.
pub fn bytes(k: Call, number: u8, a: Account, i: usize, read: &ListRead) -> Row
    ensures { result ≡ bytes_row k number a i (shown_of read.now) read.now.reply.now }
{
    let found = a.bytes;
    match k {
        Call::Store => rows::empty(),
        Call::Find => found_row(number, i, &found),
        Call::Stations => list_row(number, a, i, read),
    }
}

fn counts_told(number: u8, c: Counts) -> Row
    ensures { result ≡ pick (eqb number 0) (counts_row c) blank }
{
    if number == 0 {
        return counts_row(c);
    }
    rows::empty()
}

pub fn more(k: Call, number: u8, a: Account) -> Row
    ensures { result ≡ more_row k number a }
{
    let counts = a.counts;
    match k {
        Call::Store => rows::empty(),
        Call::Find => rows::empty(),
        Call::Stations => counts_told(number, counts),
    }
}
