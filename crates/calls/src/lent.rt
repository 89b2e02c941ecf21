// The calls on what the bench lends. specs/Calls.antt. The four buffers are lent apart, as store::store, store::lookup and chip::frame take them.
ghost use Rattle.std.specs.Prelude.{◌≡◌, ◌%◌};
ghost use Rattle.calls.specs.Lists.{data_of};
ghost use Rattle.calls.specs.Calls.{opened, read_line, Stored, Found, Shown};

use grammar::Verb;
use meanings::put_text;
use script::Line;
use standing::{Bench, Event};
use stations::StoreRecord;

fn opened(b: Bench) -> StoreRecord
    ensures { result ≡ opened b }
{
    let chip = b.chip;
    StoreRecord {
        chip,
        number: 0,
        polls: 0,
    }
}

fn stored(
    b: Bench,
    station: u16,
    bytes: &[u8],
    allowance: u64,
    list: &[u64],
    array: &mut [u8],
    security: &mut [u8],
    reply: &mut [u8],
    marks: &mut [u8],
) -> StoreRecord
    ensures { Stored b station bytes.now allowance list.now array.old security.old reply.old marks.old result array.new security.new reply.new marks.new }
{
    let a = b.array.min(array.len());
    let s = b.security.min(security.len());
    let n = reply.len().min(65536);
    let m = marks.len().min(65536);
    store::store(
        opened(b),
        &mut array[..a],
        &mut security[..s],
        &mut reply[..n],
        &mut marks[..m],
        station,
        bytes,
        allowance,
        list,
    )
}

// A word is filled up with blanks.
pub fn sent(
    b: Bench,
    station: u16,
    slots: [u64; 24],
    bytes: &[u8],
    allowance: u64,
    list: &[u64; 2050],
    array: &mut [u8],
    security: &mut [u8],
    reply: &mut [u8],
    marks: &mut [u8],
) -> StoreRecord
    ensures { Stored b station (data_of slots bytes.now) allowance list.now array.old security.old reply.old marks.old result array.new security.new reply.new marks.new }
{
    if (slots[9] != 0) & (bytes.len() <= 28) {
        let mut text = [0x20u8; 28];
        put_text(&mut text, bytes);
        return stored(
            b, station, &text, allowance, list, array, security, reply, marks,
        );
    }
    stored(
        b, station, bytes, allowance, list, array, security, reply, marks,
    )
}

pub fn found(
    b: Bench,
    station: u16,
    buffer: &mut [u8; 28],
    array: &mut [u8],
    security: &mut [u8],
    reply: &mut [u8],
    marks: &mut [u8],
) -> StoreRecord
    ensures { Found b station buffer.old array.old security.old reply.old marks.old result buffer.new array.new security.new reply.new marks.new }
{
    let a = b.array.min(array.len());
    let s = b.security.min(security.len());
    let n = reply.len().min(65536);
    let m = marks.len().min(65536);
    store::lookup(
        opened(b),
        &mut array[..a],
        &mut security[..s],
        &mut reply[..n],
        &mut marks[..m],
        station,
        buffer,
    )
}

fn read_line() -> Line
    ensures { result ≡ read_line }
{
    let mut slots = [0u64; 24];
    slots[1] = 65536;
    Line {
        verb: Verb::Frame,
        slots,
        sent: 4,
        expected: 0,
        remark: 0,
        place: 0,
        word: [0u8; 24],
        length: 0,
        column: 0,
    }
}

// The number of the one read, which is made on a copy of the record.
pub fn shown(
    b: Bench,
    array: &mut [u8],
    security: &mut [u8],
    reply: &mut [u8],
    marks: &mut [u8],
) -> u8
    ensures { Shown b array.old security.old reply.old marks.old result array.new security.new reply.new marks.new }
{
    let l = read_line();
    let after = lending::happened(
        b,
        Event::Frame,
        l,
        array,
        security,
        b"\x03\x01\x00\x00",
        reply,
        marks,
    );
    let answer = after.answer;
    chip::answer_number(answer)
}
