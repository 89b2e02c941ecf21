// The station list: lookup and store, by value. Document 02, W-206: crate stations, specs/Calls and specs/Promises.
// All that they do to the chip goes through chip::frame and chip::completion.
#![tactic(auto)]

mod writes;

ghost use Rattle.std.specs.Prelude.{◌≡◌, ◌&&◌, eqb};
ghost use Rattle.rules.specs.Promises.{zeroed, bench_of, carried_of, returned_of, FramePromise};
ghost use Rattle.stations.specs.Slots.{free_slot};
ghost use Rattle.stations.specs.Calls.{list_size};
ghost use Rattle.stations.specs.Promises.{desk_of, LookupPromise, StorePromise};
ghost use Rattle.slots.specs.Reads.{shown_of, IsSlot};
ghost use Rattle.store.specs.Steps.{read_frame};

use rules::{After, Chip};
use slots::ListRead;
pub use stations::StoreRecord;

// The read of the whole list.
fn read_list(
    c: Chip,
    array: &mut [u8],
    security: &mut [u8],
    reply: &mut [u8],
    marks: &mut [u8],
) -> After
    ensures { FramePromise (bench_of c array.old security.old) (carried_of read_frame reply.old marks.old zeroed) (returned_of result array.new security.new reply.new marks.new) }
{
    let x = writes::calm();
    chip::frame(c, array, security, b"\x03\x01\x00\x00", reply, marks, x)
}

// Both buffers hold the list.
fn buffers_right(reply: usize, marks: usize) -> bool
    ensures { result ≡ (eqb reply list_size && eqb marks list_size) }
{
    (reply == 65536) & (marks == 65536)
}

// The data of the first live slot of a number, into the lent buffer.
pub fn lookup(
    s: StoreRecord,
    array: &mut [u8],
    security: &mut [u8],
    reply: &mut [u8],
    marks: &mut [u8],
    station: u16,
    buffer: &mut [u8],
) -> StoreRecord
    ensures { LookupPromise s (desk_of array.old security.old reply.old marks.old) station buffer.old result (desk_of array.new security.new reply.new marks.new) buffer.new }
{
    let c = s.chip;
    if !(buffers_right(reply.len(), marks.len()) & (buffer.len() == 28)) {
        return StoreRecord {
            chip: c,
            number: 1,
            polls: 0,
        };
    }
    let after = read_list(c, array, security, reply, marks);
    let answer = after.answer;
    let next = after.chip;
    let Ok(()) = answer else {
        return StoreRecord {
            chip: next,
            number: chip::answer_number(answer),
            polls: 0,
        };
    };
    let read = ListRead { reply, marks };
    let Some(i) = read.live_from(station, 0) else {
        return StoreRecord {
            chip: next,
            number: 17,
            polls: 0,
        };
    };
    buffer.copy_from_slice(read.data(i));
    StoreRecord {
        chip: next,
        number: 0,
        polls: 0,
    }
}

// The slot that a store writes into: the first empty one. Never its own.
fn slot_for(read: &ListRead, station: u16) -> Option<usize>
    ensures { IsSlot (free_slot (shown_of read.now)) result }
{
    read.first_empty()
}

// Number and data into the first empty slot, its mark, and the marks of the other live slots of that number.
pub fn store(
    s: StoreRecord,
    array: &mut [u8],
    security: &mut [u8],
    reply: &mut [u8],
    marks: &mut [u8],
    station: u16,
    data: &[u8],
    allowance: u64,
    list: &[u64],
) -> StoreRecord
    ensures { StorePromise s (desk_of array.old security.old reply.old marks.old) station «data».now allowance list.now result (desk_of array.new security.new reply.new marks.new) }
{
    let c = s.chip;
    let wrong = StoreRecord {
        chip: c,
        number: 1,
        polls: 0,
    };
    if !buffers_right(reply.len(), marks.len()) {
        return wrong;
    }
    let Some(bytes) = data.as_array::<28>() else {
        return wrong;
    };
    let Ok(most) = u16::try_from(allowance) else {
        return wrong;
    };
    let after = read_list(c, array, security, reply, marks);
    let answer = after.answer;
    let next = after.chip;
    let Ok(()) = answer else {
        return StoreRecord {
            chip: next,
            number: chip::answer_number(answer),
            polls: 0,
        };
    };
    let read = ListRead { reply, marks };
    let Some(i) = slot_for(&read, station) else {
        return StoreRecord {
            chip: next,
            number: 16,
            polls: 0,
        };
    };
    writes::write_all(next, array, security, &read, i, station, bytes, most, list)
}
