// The archive of the station list for other languages: each function of crate station_bench under its name for C, with the same clauses.
#![tactic(auto)]

ghost use Rattle.stations.specs.Promises.{desk_of};
ghost use Rattle.station_bench.specs.Boundary.{StorePromise, FindPromise};

use station_bench::Stored;

// The data of a station, into the lent buffer.
#[unsafe(no_mangle)]
pub extern "C" fn fulkibono_station_find(
    bytes: &mut [u8],
    array: &mut [u8],
    security: &mut [u8],
    reply: &mut [u8],
    marks: &mut [u8],
    station: u16,
    buffer: &mut [u8],
) -> u8
    ensures { FindPromise bytes.old (desk_of array.old security.old reply.old marks.old) station buffer.old result bytes.new (desk_of array.new security.new reply.new marks.new) buffer.new }
{
    station_bench::fulkibono_station_find(bytes, array, security, reply, marks, station, buffer)
}

// The data of a station, onto the list.
#[unsafe(no_mangle)]
pub extern "C" fn fulkibono_station_store(
    bytes: &mut [u8],
    array: &mut [u8],
    security: &mut [u8],
    reply: &mut [u8],
    marks: &mut [u8],
    station: u16,
    data: &[u8],
    allowance: u64,
    list: &[u64],
) -> Stored
    ensures { StorePromise bytes.old (desk_of array.old security.old reply.old marks.old) station «data».now allowance list.now result bytes.new (desk_of array.new security.new reply.new marks.new) }
{
    station_bench::fulkibono_station_store(
        bytes, array, security, reply, marks, station, data, allowance, list,
    )
}
