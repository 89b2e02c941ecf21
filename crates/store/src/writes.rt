// The writes of a call: 06, the frame, polls. The two memories are lent apart, as chip::frame takes them.
ghost use Rattle.std.specs.Prelude.{◌≡◌, ◌+◌, ◌%◌, ◌<◌, ◌≤◌, eqb, get_or};
ghost use Rattle.rules.specs.Promises.{zeroed, bench_of, state_of};
ghost use Rattle.stations.specs.Slots.{slot_count, those_from, live_of};
ghost use Rattle.stations.specs.Plans.{record_frame, mark_frame, clearings, storing_at};
ghost use Rattle.stations.specs.Calls.{ends, played, polling};
ghost use Rattle.stations.specs.Calls as calls;
ghost use Rattle.slots.specs.Reads.{shown_of};
ghost use Rattle.store.specs.Steps.{most_polls, leaves, SentPromise, ArrivedPromise, PolledPromise};

use rules::{After, Chip, Circumstances, Refusal, Tear};
use slots::ListRead;
use stations::StoreRecord;

// A frame of the store is no reset: it tears nothing.
pub fn calm() -> Circumstances
    ensures { result ≡ zeroed }
{
    let tear = Tear { k: 0, m: 0 };
    Circumstances { tear }
}

// A frame with room for one reply byte.
fn send(c: Chip, array: &mut [u8], security: &mut [u8], sent: &[u8]) -> After
    ensures { SentPromise (bench_of c array.old security.old) sent.now result.answer (bench_of result.chip array.new security.new) }
{
    let mut reply = [0u8; 1];
    let mut marks = [0u8; 1];
    let x = calm();
    chip::frame(c, array, security, sent, &mut reply, &mut marks, x)
}

// The completion, where it arrives.
fn arrived(c: Chip, array: &mut [u8], security: &mut [u8], arrives: bool) -> Chip
    ensures { ArrivedPromise arrives (bench_of c array.old security.old) (bench_of result array.new security.new) }
{
    if arrives {
        let after = chip::completion(c, array, security);
        let next = after.chip;
        return next;
    }
    c
}

// What a poll tells. Its answer stands apart from busy: document 01, "Form by location", has the done case taken apart by let .. else.
#[derive(Clone, Copy)]
struct Polled {
    answer: Result<(), Refusal>,
    chip: Chip,
    busy: bool,
}

fn poll_once(c: Chip, array: &mut [u8], security: &mut [u8], arrives: bool) -> Polled
    ensures { PolledPromise arrives (bench_of c array.old security.old) result (bench_of result.chip array.new security.new) }
{
    let ready = arrived(c, array, security, arrives);
    let mut reply = [0u8; 1];
    let mut marks = [0u8; 1];
    let x = calm();
    let after = chip::frame(ready, array, security, b"\x05", &mut reply, &mut marks, x);
    let answer = after.answer;
    let next = after.chip;
    Polled {
        answer,
        chip: next,
        busy: reply[0] % 2 == 1,
    }
}

// Whether the completion arrives before the next poll of a write, of which `made` are made.
fn arrives_next(made: u16, entry: u64) -> bool
    ensures { result ≡ eqb (made + 1) entry }
{
    u64::from(made) + 1 == entry
}

// The polls of a call whose last write used up what it was allowed.
fn used_up(polls: u64, made: u16) -> u64
    requires { polls ≤ most_polls }
    ensures { result ≡ polls + made }
{
    polls + u64::from(made)
}

// Polls of one write, of whose completion `entry` says before which poll it arrives; `polls` were made before it.
fn poll(
    c: Chip,
    array: &mut [u8],
    security: &mut [u8],
    allowance: u16,
    entry: u64,
    polls: u64,
) -> StoreRecord
    requires { polls ≤ most_polls }
    ensures security_after { leaves result array.new security.new ≡ played (state_of (bench_of c array.old security.old)) (polling allowance 0 entry polls (ends 0)) }
    ensures few { result.polls ≤ polls + allowance }
{
    let mut at = c;
    for made in 0..allowance {
        let arrives = arrives_next(made, entry);
        let t = poll_once(at, array, security, arrives);
        let answer = t.answer;
        at = t.chip;
        let Ok(()) = answer else {
            return StoreRecord {
                chip: at,
                number: chip::answer_number(answer),
                polls,
            };
        };
        if !t.busy {
            return StoreRecord {
                chip: at,
                number: 0,
                polls: polls + u64::from(made) + 1,
            };
        }
    }
    StoreRecord {
        chip: at,
        number: 18,
        polls: used_up(polls, allowance),
    }
}

// One write.
fn write(
    s: StoreRecord,
    array: &mut [u8],
    security: &mut [u8],
    frame: &[u8],
    allowance: u16,
    entry: u64,
) -> StoreRecord
    requires { s.polls ≤ most_polls }
    ensures security_after { leaves result array.new security.new ≡ played (state_of (bench_of s.chip array.old security.old)) (calls.write allowance entry frame.now s.polls (ends 0)) }
    ensures few { result.polls ≤ s.polls + allowance }
{
    let c = s.chip;
    let polls = s.polls;
    let latched = send(c, array, security, b"\x06");
    let open = latched.answer;
    let ready = latched.chip;
    let Ok(()) = open else {
        return StoreRecord {
            chip: ready,
            number: chip::answer_number(open),
            polls,
        };
    };
    let begun = send(ready, array, security, frame);
    let taken = begun.answer;
    let at_work = begun.chip;
    let Ok(()) = taken else {
        return StoreRecord {
            chip: at_work,
            number: chip::answer_number(taken),
            polls,
        };
    };
    poll(at_work, array, security, allowance, entry, polls)
}

// The entry of the list for the write with this turn, counted from 0: 0 where there is none.
pub fn entry_of(list: &[u64], turn: usize) -> u64
    ensures { result ≡ get_or list.now turn 0 }
{
    list.get(turn).copied().unwrap_or(0)
}

// A byte of a place in the list.
fn byte_of(x: usize) -> u8
    ensures { result ≡ x % 256 }
{
    (x % 256) as u8
}

// The two bytes of slot i's mark.
pub fn write_mark(
    s: StoreRecord,
    array: &mut [u8],
    security: &mut [u8],
    i: usize,
    first: u8,
    second: u8,
    allowance: u16,
    entry: u64,
) -> StoreRecord
    requires { (i < 2048) × (s.polls ≤ most_polls) }
    ensures security_after { leaves result array.new security.new ≡ played (state_of (bench_of s.chip array.old security.old)) (calls.write allowance entry (mark_frame i first second) s.polls (ends 0)) }
    ensures few { result.polls ≤ s.polls + allowance }
{
    let p = i * 32;
    let frame = [0x02, 0x01, byte_of(p / 256), byte_of(p), first, second];
    write(s, array, security, &frame, allowance, entry)
}

// The frame that writes number and data into slot i.
fn put_record(frame: &mut [u8; 34], i: usize, station: u16, data: &[u8; 28])
    requires { i < 2048 }
    ensures { frame.new ≡ record_frame i station «data».now }
{
    let p = i * 32 + 2;
    let n = station as usize;
    let head = [
        0x02,
        0x01,
        byte_of(p / 256),
        byte_of(p),
        byte_of(n / 256),
        byte_of(n),
    ];
    frame[..6].copy_from_slice(&head);
    frame[6..].copy_from_slice(data);
}

// Number and data of slot i.
pub fn write_record(
    s: StoreRecord,
    array: &mut [u8],
    security: &mut [u8],
    i: usize,
    station: u16,
    data: &[u8; 28],
    allowance: u16,
    entry: u64,
) -> StoreRecord
    requires { (i < 2048) × (s.polls ≤ most_polls) }
    ensures security_after { leaves result array.new security.new ≡ played (state_of (bench_of s.chip array.old security.old)) (calls.write allowance entry (record_frame i station «data».now) s.polls (ends 0)) }
    ensures few { result.polls ≤ s.polls + allowance }
{
    let mut frame = [0u8; 34];
    put_record(&mut frame, i, station, data);
    write(s, array, security, &frame, allowance, entry)
}

// The marks of the live slots of a number, lowest first.
pub fn clear_others(
    s: StoreRecord,
    array: &mut [u8],
    security: &mut [u8],
    read: &ListRead,
    station: u16,
    allowance: u16,
    list: &[u64],
) -> StoreRecord
    requires { (s.number ≡ 0) × (s.polls ≤ 131070) }
    ensures { leaves result array.new security.new ≡ played (state_of (bench_of s.chip array.old security.old)) (calls.writes allowance list.now 2 (clearings (those_from (live_of (shown_of read.now) station) 0 slot_count)) s.polls) }
{
    let mut at = s;
    let mut turn = 2;
    for i in 0..2048 {
        if !read.is_live_of(station, i) {
            continue;
        }
        let entry = entry_of(list, turn);
        at = write_mark(at, array, security, i, 0x00, 0x00, allowance, entry);
        if at.number != 0 {
            return at;
        }
        turn += 1;
    }
    at
}

// All writes of a store into the empty slot i.
pub fn write_all(
    c: Chip,
    array: &mut [u8],
    security: &mut [u8],
    read: &ListRead,
    i: usize,
    station: u16,
    data: &[u8; 28],
    allowance: u16,
    list: &[u64],
) -> StoreRecord
    requires { i < 2048 }
    ensures { leaves result array.new security.new ≡ played (state_of (bench_of c array.old security.old)) (calls.writes allowance list.now 0 (storing_at (shown_of read.now) station «data».now i) 0) }
{
    let s = StoreRecord {
        chip: c,
        number: 0,
        polls: 0,
    };
    let recorded = write_record(
        s,
        array,
        security,
        i,
        station,
        data,
        allowance,
        entry_of(list, 0),
    );
    if recorded.number != 0 {
        return recorded;
    }
    let marked = write_mark(
        recorded,
        array,
        security,
        i,
        0x53,
        0x54,
        allowance,
        entry_of(list, 1),
    );
    if marked.number != 0 {
        return marked;
    }
    clear_others(marked, array, security, read, station, allowance, list)
}
