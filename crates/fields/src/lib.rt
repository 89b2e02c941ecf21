// The record that a line's slots say. specs/Records.antt.
#![tactic(auto)]

ghost use Rattle.std.specs.Prelude.{◌≡◌};
ghost use Rattle.fields.specs.Records.{record_of, same_work, same_flags_lem, same_rest_lem, same_record_lem};

use numbering::{burst_byte, burst_of, kind_of, number_of, work_of};
use rules::{Chip, Flags, Locks, Rest, Work, Works};

// The record of a line's fields, with a buffer of FF.
#[tactic(auto, unfolding(crate::specs::Records::record_of, rules::specs::Programs::blank))]
pub fn record_of(slots: [u64; 24]) -> Chip
    ensures { result ≡ record_of slots }
{
    Chip {
        buffer: [255; 256],
        rest: Rest {
            locks: Locks {
                protection: slots[11],
                permanent: slots[12],
            },
            works: Works {
                running: work_of(slots[13], slots[14]),
                suspended: work_of(slots[15], slots[16]),
            },
            flags: Flags {
                wpld: slots[21] != 0,
                sec: slots[22] != 0,
                ioc: slots[19] != 0,
                wpen: slots[20] != 0,
                sqi: slots[17] != 0,
                wel: slots[18] != 0,
                enable: slots[23] != 0,
                ba: slots[10] != 0,
            },
            burst: burst_of(slots[9]),
        },
    }
}

// Kind and number and not the derived ==: that the two agree, case by case of both, did not prove.
#[tactic(auto, unfolding(crate::specs::Records::same_work))]
fn same_work(a: Work, b: Work) -> bool
    ensures { result ≡ same_work a b }
{
    (kind_of(a) == kind_of(b)) & (number_of(a) == number_of(b))
}

// Flag by flag and not the derived ==: that the two agree did not prove.
#[tactic(auto, using(crate::proofs::Sames::flag_number), unfolding(crate::specs::Records::same_flags_lem))]
fn same_flags(a: Flags, b: Flags) -> bool
    ensures { result ≡ same_flags_lem a b }
{
    (a.sqi == b.sqi)
        & (a.wel == b.wel)
        & (a.ioc == b.ioc)
        & (a.wpen == b.wpen)
        & (a.wpld == b.wpld)
        & (a.sec == b.sec)
        & (a.enable == b.enable)
        & (a.ba == b.ba)
}

// Both are the same but for their buffers.
#[tactic(auto, unfolding(crate::specs::Records::same_rest_lem))]
pub fn same_rest(a: Rest, b: Rest) -> bool
    ensures { result ≡ same_rest_lem a b }
{
    (a.locks == b.locks)
        & same_work(a.works.running, b.works.running)
        & same_work(a.works.suspended, b.works.suspended)
        & same_flags(a.flags, b.flags)
        & (burst_byte(a.burst) == burst_byte(b.burst))
}

// Every field but the buffer is as the slots say.
#[tactic(auto, unfolding(crate::specs::Records::same_record_lem))]
pub fn same_record(c: Chip, slots: [u64; 24]) -> bool
    ensures { result ≡ same_record_lem c slots }
{
    same_rest(c.rest, record_of(slots).rest)
}
