// A memory, or the status, that is not as expected. specs/Unheld.antt.
ghost use Rattle.std.specs.Prelude.{◌≡◌, ◌<◌, length};
ghost use Rattle.byte_rows.specs.Bytes.{memory_of};
ghost use Rattle.grammar.specs.Verbs as verbs;
ghost use Rattle.grammar.specs.Slots.{from, size};
ghost use Rattle.fields.specs.Records.{slot};
ghost use Rattle.byte_rows.specs.Unheld.{held_row, compared_row, status_row, unheld_row};

use grammar::Verb;
use rows::Row;
use rules::Rest;

// The first place that holds another byte, where one of n does.
#[tactic(auto, unfolding(crate::specs::Unheld::held_row))]
fn held_row(held: usize, start: usize, n: usize, memory: &[u8], expected: &[u8]) -> Row
    requires { 0 < length expected.now }
    ensures { result ≡ held_row held start n memory.now expected.now }
{
    if held < n {
        let place = start.wrapping_add(held);
        let byte = opcodes::sent_byte(memory, place);
        let other = opcodes::sent_byte(expected, held % expected.len());
        return rows::below(191, place as u64, byte, other);
    }
    rows::empty()
}

#[tactic(auto, unfolding(crate::specs::Unheld::compared_row))]
fn compared_row(held: usize, start: usize, n: usize, memory: &[u8], expected: &[u8]) -> Row
    ensures { result ≡ compared_row held start n memory.now expected.now }
{
    let count = expected.len();
    if count == 0 {
        return rows::empty();
    }
    let there = rows::count_within(memory.len(), start, n);
    if there < n {
        return rows::below(190, n as u64, there as u64, 0);
    }
    if n % count != 0 {
        return rows::below(190, count as u64, n as u64, 0);
    }
    held_row(held, start, n, memory, expected)
}

#[tactic(auto, unfolding(crate::specs::Unheld::status_row))]
fn status_row(held: usize, rest: Rest, expected: &[u8]) -> Row
    ensures { result ≡ status_row held rest expected.now }
{
    let registers = [
        registers::status_of(rest),
        registers::configuration_of(rest),
    ];
    if 2 < expected.len() {
        return rows::below(203, 0, 0, 0);
    }
    compared_row(held, 0, expected.len(), &registers, expected)
}

#[tactic(auto, unfolding(crate::specs::Bytes::memory_of))]
fn dump_row(held: usize, slots: [u64; 24], array: &[u8], security: &[u8], expected: &[u8]) -> Row
    ensures { result ≡ compared_row held (slot slots from) (slot slots size) (memory_of slots array.now security.now) expected.now }
{
    let from = slots[7] as usize;
    let n = slots[8] as usize;
    let memory = if slots[10] == 0 { array } else { security };
    compared_row(held, from, n, memory, expected)
}

#[tactic(auto, unfolding(crate::specs::Unheld::unheld_row))]
pub fn unheld(
    verb: Verb,
    held: usize,
    slots: [u64; 24],
    rest: Rest,
    array: &[u8],
    security: &[u8],
    expected: &[u8],
) -> Row
    ensures { result ≡ unheld_row (verbs.number verb) held slots rest array.now security.now expected.now }
{
    match verb {
        Verb::Status => status_row(held, rest, expected),
        Verb::Dump => dump_row(held, slots, array, security, expected),
        _ => rows::empty(),
    }
}
