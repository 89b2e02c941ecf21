// The station list for other languages: lookup and store over lent bytes. specs/Boundary.antt says what each gives back and leaves.
// The caller lends all memory; nothing is kept between calls. An archive of its own, so that the chip's functions stay as they are in theirs.
#![tactic(auto)]

ghost use Rattle.std.specs.Prelude.{◌≡◌, ◌++◌, length, drop};
ghost use Rattle.record_code.specs.Layout.{record_size, NothingReserved, code, chip_in};
ghost use Rattle.stations.specs.Promises.{desk_of};
ghost use Rattle.station_bench.specs.Boundary.{StorePromise, FindPromise};

use rules::Chip;
use stations::StoreRecord;

// What a store tells: how many polls it made, and its number, as in C.
#[repr(C)]
#[derive(Clone, Copy)]
pub struct Stored {
    pub polls: u64,
    pub number: u8,
}

// The chip of a record's bytes.
fn chip_in(bytes: &[u8]) -> Chip
    requires { length bytes.now ≡ record_size }
    ensures { result ≡ chip_in bytes.now }
{
    let mut page = [0u8; 256];
    page.copy_from_slice(&bytes[..256]);
    let rest = record_code::rest_in(bytes);
    Chip { buffer: page, rest }
}

// The page of a record, in its first bytes.
fn put_page(bytes: &mut [u8], page: &[u8; 256])
    requires { (length bytes.old ≡ record_size) × NothingReserved bytes.old }
    ensures bytes_after { bytes.new ≡ page.now ++ drop 256 bytes.old }
    ensures whole { length page.now ≡ 256 }
{
    let (front, _) = bytes.split_at_mut(256);
    front.copy_from_slice(page);
}

// The bytes of a chip's record. The reserved ones are 0 already.
fn put_chip(bytes: &mut [u8], c: Chip)
    requires { (length bytes.old ≡ record_size) × NothingReserved bytes.old }
    ensures { bytes.new ≡ code c }
{
    let page = c.buffer;
    let rest = c.rest;
    put_page(bytes, &page);
    record_code::put_rest(bytes, rest);
}

// The data of a station, into the lent buffer.
pub fn fulkibono_station_find(
    bytes: &mut [u8],
    array: &mut [u8],
    security: &mut [u8],
    reply: &mut [u8],
    marks: &mut [u8],
    station: u16,
    buffer: &mut [u8],
) -> u8
    ensures { FindPromise bytes.old (desk_of array.old security.old reply.old marks.old) station buffer.old result bytes.new (desk_of array.new security.new reply.new marks.new) buffer.new }
{
    if !record_code::is_code(bytes) {
        return 1;
    }
    let chip = chip_in(bytes);
    let s = StoreRecord {
        chip,
        number: 0,
        polls: 0,
    };
    let r = store::lookup(s, array, security, reply, marks, station, buffer);
    let next = r.chip;
    put_chip(bytes, next);
    r.number
}

// The data of a station, onto the list.
pub fn fulkibono_station_store(
    bytes: &mut [u8],
    array: &mut [u8],
    security: &mut [u8],
    reply: &mut [u8],
    marks: &mut [u8],
    station: u16,
    data: &[u8],
    allowance: u64,
    list: &[u64],
) -> Stored
    ensures { StorePromise bytes.old (desk_of array.old security.old reply.old marks.old) station «data».now allowance list.now result bytes.new (desk_of array.new security.new reply.new marks.new) }
{
    if !record_code::is_code(bytes) {
        return Stored {
            polls: 0,
            number: 1,
        };
    }
    let chip = chip_in(bytes);
    let s = StoreRecord {
        chip,
        number: 0,
        polls: 0,
    };
    let r = store::store(
        s, array, security, reply, marks, station, data, allowance, list,
    );
    let next = r.chip;
    put_chip(bytes, next);
    Stored {
        polls: r.polls,
        number: r.number,
    }
}
