// The bytes of a dump. specs/Bytes.antt.
ghost use Rattle.std.specs.Prelude.{◌≡◌};
ghost use Rattle.byte_rows.specs.Bytes.{dump_part, memory_of, dump_more};

use rows::Row;

#[tactic(auto, unfolding(crate::specs::Bytes::dump_part))]
fn of_memory(full: bool, slots: [u64; 24], i: usize, memory: &[u8]) -> Row
    ensures { result ≡ dump_part full slots i memory.now }
{
    let from = i.min(131072) * 16;
    let n = showing::dump_shown(full, slots);
    if from < n {
        let place = (slots[7] as usize).wrapping_add(from);
        return rows::dump(place, memory, n - from);
    }
    rows::empty()
}

#[tactic(auto, unfolding(crate::specs::Bytes::memory_of))]
pub fn row(full: bool, slots: [u64; 24], i: usize, array: &[u8], security: &[u8]) -> Row
    ensures { result ≡ dump_part full slots i (memory_of slots array.now security.now) }
{
    let memory = if slots[10] == 0 { array } else { security };
    of_memory(full, slots, i, memory)
}

#[tactic(auto, unfolding(crate::specs::Bytes::dump_more))]
pub fn more(full: bool, slots: [u64; 24]) -> Row
    ensures { result ≡ dump_more full slots }
{
    let told = showing::dump_shown(full, slots);
    let n = showing::dumped(slots);
    if told < n {
        return rows::below(196, describing::less(n, told), 0, 0);
    }
    rows::empty()
}
