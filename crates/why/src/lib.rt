// Why a number was given. specs/Why.antt.
#![tactic(auto)]

ghost use Rattle.std.specs.Prelude.{◌≡◌, true, ◌^◌, ◌<◌, length, MatchOption};
ghost use Rattle.why.specs.Why.{not_listed_why, length_why, closed_why, why, locks_sentence, numbers_sentence, works_sentence, sentence, malformed_why};
ghost use Rattle.suspension.specs.Suspension.{suspend_why, clause, suspension_why};
ghost use Rattle.locked.specs.Locked.{locked_from, block_why, locked_block, locked_why};
ghost use Rattle.rules.specs.Frames.{opcode};
ghost use Rattle.rules.specs.WellFormed.{numbers_right};
ghost use Rattle.page.specs.Page.{form};
ghost use Rattle.describing.specs.Works.{told, work, places};

use describing::{opcode_of, work_places};
use locked::locked;
use page::form;
use rules::{Chip, Locks, Rest, Work, Works};
use suspension::suspension;
use writing::Row;

#[tactic(auto, unfolding(crate::specs::Why::not_listed_why))]
fn not_listed(r: Row, op: u8) -> Row
    ensures { result ≡ not_listed_why op r }
{
    let f = opcodes::form_of(op);
    let n = if f.spi != 0 {
        54
    } else if f.sqi != 0 {
        55
    } else {
        53
    };
    form(r, n, u64::from(op), 0, 0)
}

#[tactic(auto, using(crate::proofs::Reasons::least_length_lem), unfolding(crate::specs::Why::length_why))]
fn wrong_length(r: Row, sqi: bool, op: u8, n: usize) -> Row
    ensures { result ≡ length_why sqi op n r }
{
    let f = opcodes::form_of(op);
    let k = match (f.more, sqi) {
        (false, false) => 56,
        (false, true) => 57,
        (true, false) => 58,
        (true, true) => 59,
    };
    let least = if sqi { f.sqi } else { f.spi };
    form(r, k, n as u64, u64::from(op), least as u64)
}

#[tactic(auto, unfolding(crate::specs::Why::closed_why))]
fn closed(r: Row, sec: bool, op: u8) -> Row
    ensures { result ≡ closed_why sec op r }
{
    let n = if named::changes_locks(op) {
        73
    } else if sec {
        74
    } else {
        75
    };
    form(r, n, 0, 0, 0)
}

// The work that runs.
fn busy(r: Row, running: Work) -> Row
    ensures { result ≡ form 60 0 0 0 (places (told running) (work (told running) r)) }
{
    let r = work_places(r, running);
    form(r, 60, 0, 0, 0)
}

// Of the numbers from 2 on, by the record before the event.
#[tactic(auto, unfolding(crate::specs::Why::why))]
pub fn reason(r: Row, number: u8, c: Rest, sent: &[u8]) -> Row
    ensures { result ≡ why number c sent.now r }
{
    let op = opcode_of(sent);
    let works = c.works;
    let running = works.running;
    let suspended = works.suspended;
    match number {
        2 => form(r, 52, 0, 0, 0),
        3 => not_listed(r, op),
        4 => wrong_length(r, c.flags.sqi, op, sent.len()),
        5 => busy(r, running),
        6 => form(r, 61, 0, 0, 0),
        7 => form(r, 62, 0, 0, 0),
        8 => suspension(r, running, suspended, op),
        9 => form(r, 72, 0, 0, 0),
        10 => closed(r, c.flags.sec, op),
        11 => locked(r, c, op, sent),
        13 => form(r, 79, opcodes::sent_byte(sent, 1), 0, 0),
        _ => form(r, 63, 0, 0, 0),
    }
}

// ---- refusal 1

// The form of the first sentence of the registers that does not hold.
#[tactic(auto, unfolding(crate::specs::Why::locks_sentence))]
fn locks_sentence(l: Locks) -> Option<usize>
    ensures { MatchOption result (locks_sentence l ≡ 89) (λ n. (n ≡ locks_sentence l) × (n < 89)) }
{
    if l.protection >= 0x1_0000_0000_0000 {
        return Some(85);
    }
    if l.permanent >= 0x1_0000_0000_0000 {
        return Some(86);
    }
    if l.permanent & 0xaaaa_0000_0000 != 0 {
        return Some(87);
    }
    if l.permanent & l.protection != l.permanent {
        return Some(88);
    }
    None
}

#[tactic(auto, unfolding(crate::specs::Why::numbers_sentence))]
fn numbers_sentence(w: Works) -> Option<usize>
    ensures { MatchOption result (numbers_sentence w ≡ 91) (λ n. (n ≡ numbers_sentence w) × (n < 91)) }
{
    if !records::numbers_right(w.running) {
        return Some(89);
    }
    if !records::numbers_right(w.suspended) {
        return Some(90);
    }
    None
}

#[tactic(auto, using(crate::proofs::Sentences::either), unfolding(crate::specs::Why::works_sentence))]
fn works_sentence(p: u64, sec: bool, page: &[u8], w: Works) -> usize
    requires { (numbers_right w.running ≡ true) × ((numbers_right w.suspended ≡ true) × ((p < 2 ^ 48) × (length page.now ≡ 256))) }
    ensures { result ≡ works_sentence p sec page.now w }
{
    let run = w.running;
    let aside = w.suspended;
    if !(blocks::is_nothing(aside) || blocks::can_suspend(aside)) {
        return 91;
    }
    if !records::beside_right(run, aside) {
        return 92;
    }
    if !blocks::is_unlocked(p, run) {
        return 93;
    }
    if !blocks::is_unlocked(p, aside) {
        return 94;
    }
    if !records::security_right(run, sec, page) {
        return 95;
    }
    96
}

#[tactic(auto, using(crate::proofs::Sentences::locks_hold, crate::proofs::Sentences::running_holds, crate::proofs::Sentences::suspended_holds), unfolding(crate::specs::Why::sentence))]
fn sentence(c: Chip) -> usize
    ensures { result ≡ sentence c }
{
    let rest = c.rest;
    let page = c.buffer;
    let l = rest.locks;
    let w = rest.works;
    if let Some(n) = locks_sentence(l) {
        return n;
    }
    if let Some(n) = numbers_sentence(w) {
        return n;
    }
    works_sentence(l.protection, rest.flags.sec, &page, w)
}

// Refusal 1: the lengths lent, and the record.
#[tactic(auto, unfolding(crate::specs::Why::malformed_why))]
pub fn malformed(
    r: Row,
    array: usize,
    security: usize,
    sent: usize,
    reply: usize,
    marks: usize,
    c: Chip,
) -> Row
    ensures { result ≡ malformed_why array security sent reply marks c r }
{
    if array != 2097152 {
        return form(r, 80, array as u64, 0, 0);
    }
    if security != 2048 {
        return form(r, 81, security as u64, 0, 0);
    }
    if 65536 < sent {
        return form(r, 82, 0, 0, 0);
    }
    if 65536 < reply {
        return form(r, 83, 0, 0, 0);
    }
    if reply != marks {
        return form(r, 84, reply as u64, marks as u64, 0);
    }
    let n = sentence(c);
    form(r, n, 0, 0, 0)
}
