// The desk lends its one store record, and each call changes it.
#![tactic(auto)]

ghost use Rattle.stations.specs.Promises.{desk_of, LookupPromise, StorePromise};

use stations::StoreRecord;

// The data of a station, into the buffer.
pub fn find(
    s: &mut StoreRecord,
    array: &mut [u8],
    security: &mut [u8],
    reply: &mut [u8],
    marks: &mut [u8],
    station: u16,
    buffer: &mut [u8],
)
    ensures { LookupPromise s.old (desk_of array.old security.old reply.old marks.old) station buffer.old s.new (desk_of array.new security.new reply.new marks.new) buffer.new }
{
    *s = store::lookup(*s, array, security, reply, marks, station, buffer);
}

// The data of a station, onto the list.
pub fn keep(
    s: &mut StoreRecord,
    array: &mut [u8],
    security: &mut [u8],
    reply: &mut [u8],
    marks: &mut [u8],
    station: u16,
    data: &[u8],
    allowance: u64,
    list: &[u64],
)
    ensures { StorePromise s.old (desk_of array.old security.old reply.old marks.old) station «data».now allowance list.now s.new (desk_of array.new security.new reply.new marks.new) }
{
    *s = store::store(
        *s, array, security, reply, marks, station, data, allowance, list,
    );
}
