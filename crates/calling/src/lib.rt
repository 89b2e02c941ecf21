// What becomes of the bench where a line stores a station, finds one or asks for the list. specs/Lines.antt.
#![tactic(auto)]

ghost use Rattle.std.specs.Prelude.{◌≡◌, eqb, length, replicate};
ghost use Rattle.rules.specs.Words.{pick};
ghost use Rattle.stations.specs.Calls.{list_size};
ghost use Rattle.slots.specs.Reads.{shown_of};
ghost use Rattle.census.specs.Census.{cut_after};
ghost use Rattle.calling.specs.Lines.{errand_of, no_counts, no_account, number_of, ended, answered, called_of, account_of, account_shown, StoreJudged, FindJudged, StorePlayed, FindPlayed, StationsPlayed, PlayedCall, CallPlayed};
ghost use Rattle.standing.specs.Benches.{front, unjudged};

use census::Counts;
use expecting::{Expectation, Expected, Marked, Verdict};
use rules::Chip;
use script::Line;
use slots::ListRead;
use standing::{Bench, Call, Deed, Playing};

// What a call came to beside the bench.
#[derive(Clone, Copy)]
pub struct Account {
    pub polls: u64,
    // writes that would end in time, one after the other
    pub writes: usize,
    // what was found
    pub bytes: [u8; 28],
    // what of the line's expectations is not met, its bytes too
    pub verdict: Verdict,
    // the slots, and the first one that is not shown
    pub counts: Counts,
    pub cut: usize,
}

#[derive(Clone, Copy)]
pub struct Called {
    pub playing: Playing,
    pub account: Account,
}

// ---- what a line asks for

// The line that ended last.
pub fn asked(p: Playing) -> Option<Call>
    ensures { result ≡ errand_of p }
{
    let reading = p.reading;
    if !reading.ended {
        return None;
    }
    let l = script::line_of(reading);
    match standing::deed_of(l.verb) {
        Deed::Call(k) => Some(k),
        _ => None,
    }
}

// ---- what it comes to

fn no_verdict() -> Verdict
    ensures { result ≡ unjudged }
{
    Verdict {
        number: false,
        strict: false,
        length: false,
        kept: false,
        place: 0,
        compared: 0,
    }
}

fn account_of(polls: u64, writes: usize, bytes: [u8; 28], v: Verdict) -> Account
    ensures { result ≡ account_of polls writes bytes v no_counts 0 }
{
    let counts = Counts::default();
    Account {
        polls,
        writes,
        bytes,
        verdict: v,
        counts,
        cut: 0,
    }
}

fn number_of(v: Verdict) -> Verdict
    ensures { result ≡ number_of v }
{
    Verdict {
        number: v.number,
        strict: v.strict,
        length: false,
        kept: false,
        place: 0,
        compared: 0,
    }
}

// An event with this number came, and left this chip.
fn ended(p: Playing, number: u8, chip: Chip, v: Verdict) -> Playing
    ensures { result ≡ ended p number chip v }
{
    let tally = tallies::with_event(p.bench.tally, number, expecting::unmet(v));
    let bench = Bench {
        chip,
        tally,
        ..p.bench
    };
    Playing {
        bench,
        number,
        verdict: number_of(v),
        ..p
    }
}

// ---- store

fn store_judged(p: Playing, l: Line, number: u8) -> Verdict
    ensures { StoreJudged p l number result }
{
    let expectation = Expectation {
        reply: Expected::Nothing,
        ..standing::expectation(l.slots, 0)
    };
    let none = Marked {
        bytes: b"",
        marks: b"",
    };
    expecting::judge(expectation, p.bench.strict, number, &none, &none)
}

fn store(
    p: Playing,
    l: Line,
    array: &mut [u8],
    security: &mut [u8],
    sent: &[u8],
    expected: &[u8],
    known: &[u8],
    reply: &mut [u8],
    marks: &mut [u8],
) -> Called
    ensures { StorePlayed p l array.old security.old sent.now expected.now known.now reply.old marks.old result array.new security.new reply.new marks.new }
{
    let b = p.bench;
    let slots = l.slots;
    let station = calls::station_of(slots);
    let allowance = calls::allowance_of(slots);
    let list = calls::list_of(slots, expected, known);
    let r = calls::sent(
        b, station, slots, sent, allowance, &list, array, security, reply, marks,
    );
    let writes = calls::writes_ended(allowance, &list);
    let chip = r.chip;
    let v = store_judged(p, l, r.number);
    let playing = ended(p, r.number, chip, v);
    let account = account_of(r.polls, writes, [0u8; 28], v);
    Called { playing, account }
}

// ---- find

// A refused call has found nothing.
pub fn found_count(number: u8) -> usize
    ensures { result ≡ pick (eqb number 0) 28 0 }
{
    if number == 0 { 28 } else { 0 }
}

fn compared(
    p: Playing,
    l: Line,
    expected: &[u8],
    known: &[u8],
    number: u8,
    bytes: &[u8],
    sure: &[u8],
) -> Verdict
    requires { (length bytes.now ≡ 28) × (sure.now ≡ replicate 28 1) }
    ensures { FindJudged p l expected.now known.now number bytes.now result }
{
    let n = found_count(number).min(bytes.len());
    let m = found_count(number).min(sure.len());
    let expectation = standing::expectation(l.slots, expected.len());
    let came = Marked {
        bytes: &bytes[..n],
        marks: &sure[..m],
    };
    let awaited = Marked {
        bytes: expected,
        marks: known,
    };
    expecting::judge(expectation, p.bench.strict, number, &came, &awaited)
}

// What was found is known.
fn find_judged(
    p: Playing,
    l: Line,
    expected: &[u8],
    known: &[u8],
    number: u8,
    bytes: &[u8; 28],
) -> Verdict
    ensures { FindJudged p l expected.now known.now number bytes.now result }
{
    let sure = [1u8; 28];
    compared(p, l, expected, known, number, bytes, &sure)
}

fn find(
    p: Playing,
    l: Line,
    array: &mut [u8],
    security: &mut [u8],
    expected: &[u8],
    known: &[u8],
    reply: &mut [u8],
    marks: &mut [u8],
) -> Called
    ensures { FindPlayed p l array.old security.old expected.now known.now reply.old marks.old result array.new security.new reply.new marks.new }
{
    let b = p.bench;
    let slots = l.slots;
    let station = calls::station_of(slots);
    let mut bytes = [0u8; 28];
    let r = calls::found(b, station, &mut bytes, array, security, reply, marks);
    let chip = r.chip;
    let v = find_judged(p, l, expected, known, r.number, &bytes);
    let playing = ended(p, r.number, chip, v);
    let account = account_of(r.polls, 0, bytes, v);
    Called { playing, account }
}

// ---- stations

fn answered(p: Playing, number: u8) -> Playing
    ensures { result ≡ answered p number }
{
    Playing { number, ..p }
}

// 32 stations are shown, or all.
fn cut_of(full: bool, read: &ListRead) -> usize
    ensures { result ≡ pick full 2048 (cut_after (shown_of read.now) 32) }
{
    if full {
        return 2048;
    }
    census::cut_after(read, 32)
}

fn account_shown(full: bool, read: &ListRead) -> Account
    ensures { result ≡ account_shown full read.now.reply.now read.now.marks.now }
{
    let counts = census::counted(read);
    let cut = cut_of(full, read);
    let verdict = no_verdict();
    Account {
        polls: 0,
        writes: 0,
        bytes: [0u8; 28],
        verdict,
        counts,
        cut,
    }
}

// Of what is lent, the list.
fn list_shown(full: bool, reply: &[u8; 65537], marks: &[u8; 65537]) -> Account
    ensures { result ≡ account_shown full (front list_size reply.now) (front list_size marks.now) }
{
    let read = ListRead {
        reply: &reply[..65536],
        marks: &marks[..65536],
    };
    account_shown(full, &read)
}

fn stations(
    p: Playing,
    array: &mut [u8],
    security: &mut [u8],
    reply: &mut [u8; 65537],
    marks: &mut [u8; 65537],
) -> Called
    ensures { StationsPlayed p array.old security.old reply.old marks.old result array.new security.new reply.new marks.new }
{
    let b = p.bench;
    let number = calls::shown(b, array, security, reply, marks);
    let playing = answered(p, number);
    if number == 0 {
        let account = list_shown(b.full, reply, marks);
        return Called { playing, account };
    }
    let v = no_verdict();
    let account = account_of(0, 0, [0u8; 28], v);
    Called { playing, account }
}

// ---- by the line

// The line has no call.
pub fn nothing(p: Playing) -> Called
    ensures { result ≡ called_of p no_account }
{
    let v = no_verdict();
    let account = account_of(0, 0, [0u8; 28], v);
    Called {
        playing: p,
        account,
    }
}

fn call_of(
    k: Call,
    p: Playing,
    l: Line,
    array: &mut [u8],
    security: &mut [u8],
    sent: &[u8],
    expected: &[u8],
    known: &[u8],
    reply: &mut [u8; 65537],
    marks: &mut [u8; 65537],
) -> Called
    ensures { PlayedCall k p l array.old security.old sent.now expected.now known.now reply.old marks.old result array.new security.new reply.new marks.new }
{
    match k {
        Call::Store => store(p, l, array, security, sent, expected, known, reply, marks),
        Call::Find => find(p, l, array, security, expected, known, reply, marks),
        Call::Stations => stations(p, array, security, reply, marks),
    }
}

// What becomes of the bench where the line that ended has a call.
pub fn carry(
    p: Playing,
    array: &mut [u8],
    security: &mut [u8],
    frame: &[u8],
    expected: &[u8],
    known: &[u8],
    reply: &mut [u8; 65537],
    marks: &mut [u8; 65537],
) -> Called
    ensures { CallPlayed p array.old security.old frame.now expected.now known.now reply.old marks.old result array.new security.new reply.new marks.new }
{
    let reading = p.reading;
    let l = script::line_of(reading);
    let n = l.sent.min(frame.len());
    let x = l.expected.min(expected.len());
    let k = l.expected.min(known.len());
    match asked(p) {
        None => nothing(p),
        Some(c) => call_of(
            c,
            p,
            l,
            array,
            security,
            &frame[..n],
            &expected[..x],
            &known[..k],
            reply,
            marks,
        ),
    }
}
