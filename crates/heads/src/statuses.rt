// The rows of a status. specs/Statuses.antt.
ghost use Rattle.std.specs.Prelude.{◌≡◌, ◌≤◌};
ghost use Rattle.grammar.specs.Verbs as verbs;
ghost use Rattle.heads.specs.Statuses.{status_bit, configuration_row, bit_of, bit_row, protocol_name, enable_row, protocol_row, protocol_told};

use grammar::Verb;
use rows::Row;
use rules::{Burst, Rest};

// A bit of the status by its name, where it is set.
#[tactic(auto, unfolding(crate::specs::Statuses::status_bit))]
pub fn status_bit(rest: Rest, i: usize) -> Row
    ensures { result ≡ status_bit rest i }
{
    let k = i.min(5);
    if blocks::bit_at(u64::from(registers::status_of(rest)), k as u32) {
        return rows::below(141 + k, 0, 0, 0);
    }
    rows::empty()
}

#[tactic(auto, unfolding(crate::specs::Statuses::configuration_row))]
pub fn configuration(verb: Verb, rest: Rest) -> Row
    ensures { result ≡ configuration_row (verbs.number verb) rest }
{
    if verb == Verb::Status {
        return rows::below(147, u64::from(registers::configuration_of(rest)), 0, 0);
    }
    rows::empty()
}

// Which bit of the configuration a row is of: IOC, BPNV, WPEN.
#[tactic(auto, unfolding(crate::specs::Statuses::bit_of))]
fn bit_of(i: usize) -> u32
    ensures value { result ≡ bit_of i }
    ensures small { result ≤ 7 }
{
    match i {
        0 => 1,
        1 => 3,
        _ => 7,
    }
}

// A bit of the configuration by its name, where it is set.
#[tactic(auto, unfolding(crate::specs::Statuses::bit_row))]
pub fn bit(verb: Verb, rest: Rest, i: usize) -> Row
    ensures { result ≡ bit_row (verbs.number verb) rest i }
{
    let set = blocks::bit_at(u64::from(registers::configuration_of(rest)), bit_of(i));
    if verb == Verb::Status && set {
        return rows::below(148 + i.min(2), 0, 0, 0);
    }
    rows::empty()
}

#[tactic(auto, unfolding(crate::specs::Statuses::protocol_name))]
fn protocol_name(sqi: bool) -> Row
    ensures { result ≡ protocol_name sqi }
{
    rows::below(if sqi { 152 } else { 151 }, 0, 0, 0)
}

#[tactic(auto, unfolding(crate::specs::Statuses::enable_row))]
fn enable_row(sqi: bool, enable: bool) -> Row
    ensures { result ≡ enable_row sqi enable }
{
    let r = protocol_name(sqi);
    rows::form(r, if enable { 153 } else { 154 }, 0, 0, 0)
}

#[tactic(auto, unfolding(crate::specs::Statuses::protocol_row))]
fn protocol_row(sqi: bool, enable: bool, ba: bool, b: Burst) -> Row
    ensures { result ≡ protocol_row sqi enable ba b }
{
    let r = enable_row(sqi, enable);
    let n = numbering::burst_length(b);
    let r = rows::form(r, 39, n as u64, 0, 0);
    rows::part(r, ba)
}

#[tactic(auto, unfolding(crate::specs::Statuses::protocol_told))]
pub fn protocol(verb: Verb, sqi: bool, enable: bool, ba: bool, b: Burst) -> Row
    ensures { result ≡ protocol_told (verbs.number verb) sqi enable ba b }
{
    if verb == Verb::Status {
        return protocol_row(sqi, enable, ba, b);
    }
    rows::empty()
}
