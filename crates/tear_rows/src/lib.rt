// What a line stopped, and the byte that it tore. specs/Tears.antt.
#![tactic(auto)]

ghost use Rattle.std.specs.Prelude.{◌≡◌, ◌<◌};
ghost use Rattle.describing.specs.Works.{told};
ghost use Rattle.grammar.specs.Verbs as verbs;
ghost use Rattle.tear_rows.specs.Tears.{stops, stopped_row, byte_row, torn_of, unused, torn_row};

use grammar::Verb;
use rows::Row;
use rules::Work;

// The line stopped what ran: a power cut, or a 99.
#[tactic(auto, unfolding(crate::specs::Tears::stops))]
fn stops(verb: Verb, number: u8, ran: Work, sent: &[u8]) -> bool
    ensures { result ≡ stops (verbs.number verb) number ran sent.now }
{
    let by = verb == Verb::Cut || verb == Verb::Frame && describing::opcode_of(sent) == 0x99;
    number == 0 && !blocks::is_nothing(ran) && by
}

// Of a 99: what it stopped, and after how much of it. The row of a power cut says that itself.
#[tactic(auto, unfolding(crate::specs::Tears::stopped_row))]
pub fn stopped(verb: Verb, number: u8, ran: Work, k: u64, sent: &[u8]) -> Row
    ensures { result ≡ stopped_row (verbs.number verb) number ran k sent.now }
{
    if verb == Verb::Frame && stops(verb, number, ran, sent) {
        return describing::work_cut(rows::plain(1, 0, 0, 0), ran, k);
    }
    rows::empty()
}

// The byte that was torn: its place, and what it is now.
#[tactic(auto, using(describing::proofs::Tellings::told_security), unfolding(crate::specs::Tears::byte_row))]
fn byte_row(ran: Work, k: u64, m: u64, array: &[u8], security: &[u8]) -> Row
    requires { k < (told ran).size }
    ensures { result ≡ byte_row (told ran) k m array.now security.now }
{
    let span = describing::span_of(ran);
    let at = span.start + k as usize;
    if span.security {
        return rows::below(316, at as u64, m, opcodes::sent_byte(security, at));
    }
    rows::below(315, at as u64, m, opcodes::sent_byte(array, at))
}

// Where work was stopped with m said.
#[tactic(auto, unfolding(crate::specs::Tears::torn_of))]
fn torn_of(ran: Work, k: u64, m: u64, array: &[u8], security: &[u8]) -> Row
    ensures { result ≡ torn_of (told ran) k m array.now security.now }
{
    if k < describing::span_of(ran).size as u64 {
        return byte_row(ran, k, m, array, security);
    }
    rows::below(317, m, k, 0)
}

// What was said and stopped nothing.
#[tactic(auto, unfolding(crate::specs::Tears::unused))]
fn unused(verb: Verb, number: u8, k: u64, v: u64) -> Row
    ensures { result ≡ unused (verbs.number verb) number k v }
{
    if verb == Verb::Frame && (k != 0 || v != 0) {
        return rows::below(318, 0, 0, 0);
    }
    if verb == Verb::Cut && number == 0 && v != 0 {
        return rows::below(317, v % 256, k, 0);
    }
    rows::empty()
}

// The torn byte, or that what was said is not used.
#[tactic(auto, unfolding(crate::specs::Tears::torn_row))]
pub fn torn(
    verb: Verb,
    number: u8,
    ran: Work,
    slots: [u64; 24],
    sent: &[u8],
    array: &[u8],
    security: &[u8],
) -> Row
    ensures { result ≡ torn_row (verbs.number verb) number ran slots sent.now array.now security.now }
{
    let k = slots[7];
    let v = slots[9];
    if !stops(verb, number, ran, sent) {
        return unused(verb, number, k, v);
    }
    if v == 0 {
        return rows::empty();
    }
    torn_of(ran, k, v % 256, array, security)
}
