// The station list, written from request W-206 of document 02 and the rules of the bench chip (document 01). It stands above
// the chip of the crate `second` and touches it by frames and completions only. The words in quotation marks are W-206's, or
// document 01's where a comment says so.
// Every function is proved to be safe and to end; what a contract says beyond that is only how large a number can be.
#![tactic(auto)]

ghost use Rattle.std.specs.Prelude.{◌+◌, ◌≤◌};

// The record has a file of its own: a struct `Store` and a function `store` do not go into one.
pub mod desk;

pub use desk::Store;

// What a frame of the store that is done gives back: the chip after it, and the byte of its reply.
#[derive(Clone, Copy, PartialEq, Eq)]
struct Heard {
    chip: second::Flat,
    value: u8,
}

// What a refused frame gives back: its number, and the chip after it.
#[derive(Clone, Copy, PartialEq, Eq)]
struct Refused {
    chip: second::Flat,
    number: u8,
}

// ---- The slots ----

// "It uses 010000 to 01FFFF as 2,048 slots of 32 bytes": 65,536 bytes.
const LIST_START: usize = 0x10000;

const LIST_BYTES: usize = 65536;

const SLOTS: usize = 2048;

const SLOT_BYTES: usize = 32;

// "28 bytes of data"
const DATA_BYTES: usize = 28;

// "mark 53 54, station number in two bytes, 28 bytes of data": where the number and the data start in a slot.
const NUMBER_AT: usize = 2;

const DATA_AT: usize = 4;

// "an allowance above 65,535 .. gets 1"
const ALLOWANCE_LIMIT: u64 = 65535;

// "mark 53 54"
const LIVE: [u8; 2] = [0x53, 0x54];

// "clears to 00 00 the mark"
const CLEARED: [u8; 2] = [0, 0];

// How many bytes of the list come before a slot. All uses are of slots below 2,048.
fn slot_start(slot: usize) -> usize
    ensures { result ≤ 65504 }
{
    slot % SLOTS * SLOT_BYTES
}

// The bytes of a slot, as the read shows it. All uses are of the whole list.
fn slot_bytes(shown: &[u8], slot: usize) -> &[u8] {
    let start = slot_start(slot);
    shown.get(start..start + SLOT_BYTES).unwrap_or(&[])
}

// "A slot is empty if all FF"
fn is_empty(shown: &[u8], slot: usize) -> bool {
    slot_bytes(shown, slot).iter().all(|&byte| byte == 255)
}

// A "live slot of that number": "live if its mark is 53 54", then "station number in two bytes", the high one first, as document
// 01 has its addresses. A slot that is neither empty nor live is dead, and nobody asks for those.
fn is_live_of(shown: &[u8], slot: usize, station: u16) -> bool {
    let bytes = slot_bytes(shown, slot);
    bytes.starts_with(&LIVE)
        && bytes
            .iter()
            .skip(NUMBER_AT)
            .take(2)
            .eq(&station.to_be_bytes())
}

// "the first empty slot"
fn first_empty(shown: &[u8]) -> Option<usize> {
    (0..SLOTS).find(|&slot| is_empty(shown, slot))
}

// "the first live slot of that number"
fn first_live(shown: &[u8], station: u16) -> Option<usize> {
    (0..SLOTS).find(|&slot| is_live_of(shown, slot, station))
}

// ---- Frames ----

// The store's frames carry no tear: none of them is a 99.
fn no_tear() -> second::Extra {
    second::Extra::default()
}

// The chip after an event that is done, or what refused it.
fn done(step: second::Step) -> Result<second::Flat, Refused> {
    match step.number {
        0 => Ok(step.state),
        number => Err(Refused {
            chip: step.state,
            number,
        }),
    }
}

// The one read of a call: 03 from 010000, as many bytes as the list has.
fn read_list(
    chip: second::Flat,
    array: &mut [u8],
    security: &mut [u8],
    reply: &mut [u8],
    marks: &mut [u8],
) -> Result<second::Flat, Refused> {
    let sent = [0x03u8, 0x01, 0x00, 0x00];
    done(second::frame(chip, array, security, &sent, reply, marks, no_tear()))
}

// Any other frame, with a reply of one byte.
fn small_frame(
    chip: second::Flat,
    array: &mut [u8],
    security: &mut [u8],
    sent: &[u8],
) -> Result<Heard, Refused> {
    let mut reply = [0u8; 1];
    let mut marks = [0u8; 1];
    let step = second::frame(
        chip,
        array,
        security,
        sent,
        &mut reply,
        &mut marks,
        no_tear(),
    );
    let chip = done(step)?;
    Ok(Heard {
        chip,
        value: reply[0],
    })
}

// The chip after "completion arrives", or as it is where it does not. An 02 that was done runs until then, so no completion
// that arrives is refused.
fn after_completion(
    chip: second::Flat,
    array: &mut [u8],
    security: &mut [u8],
    arrives: bool,
) -> second::Flat {
    if !arrives {
        return chip;
    }
    let step = second::completion(chip, array, security);
    step.state
}

// One poll: 05, and "before" it the completion if it arrives.
fn poll(
    chip: second::Flat,
    array: &mut [u8],
    security: &mut [u8],
    arrives: bool,
) -> Result<Heard, Refused> {
    let now = after_completion(chip, array, security, arrives);
    small_frame(now, array, security, &[0x05u8])
}

// "polls status at most as many times as it was allowed". `before` is the poll before which completion arrives, the first
// being 1; none where it never does. "The reported polls equal the place of the first poll that reads BUSY 0, or the allowance";
// document 01: BUSY is bit 0 of the status.
fn polled(
    chip: second::Flat,
    array: &mut [u8],
    security: &mut [u8],
    allowance: u64,
    before: Option<u64>,
) -> Store
    ensures { result.polls ≤ allowance }
{
    let mut now = chip;
    for place in 0..allowance {
        let poll_number = place + 1;
        match poll(now, array, security, before == Some(poll_number)) {
            // "If the chip refuses, the call ends with that number"
            Err(refused) => {
                return Store {
                    chip: refused.chip,
                    number: refused.number,
                    polls: allowance,
                };
            }
            Ok(heard) => {
                now = heard.chip;
                if heard.value % 2 == 0 {
                    return Store {
                        chip: now,
                        number: 0,
                        polls: poll_number,
                    };
                }
            }
        }
    }
    // "18 polls used up"
    Store {
        chip: now,
        number: 18,
        polls: allowance,
    }
}

// ---- Writes ----

// A write gives back the desk's record itself, number and all: a Result over it would say a second time whether the number is 0.

// A call, or a write, that ends with a number before its first poll.
fn ended(chip: second::Flat, number: u8) -> Store
    ensures { result.polls ≤ 0 }
{
    Store {
        chip,
        number,
        polls: 0,
    }
}

// The 02 of a write and the polls after it. Only a write "whose 02 was done" has polls.
fn program(
    chip: second::Flat,
    array: &mut [u8],
    security: &mut [u8],
    sent: &[u8],
    allowance: u64,
    before: Option<u64>,
) -> Store
    ensures { result.polls ≤ allowance }
{
    match small_frame(chip, array, security, sent) {
        Ok(running) => polled(running.chip, array, security, allowance, before),
        Err(refused) => ended(refused.chip, refused.number),
    }
}

// One write: 06, then the 02 that is passed, then the polls. "only a done answer goes on to the next frame"
fn write(
    chip: second::Flat,
    array: &mut [u8],
    security: &mut [u8],
    sent: &[u8],
    allowance: u64,
    before: Option<u64>,
) -> Store
    ensures { result.polls ≤ allowance }
{
    match small_frame(chip, array, security, &[0x06u8]) {
        Ok(ready) => program(ready.chip, array, security, sent, allowance, before),
        Err(refused) => ended(refused.chip, refused.number),
    }
}

// How an 02 begins that writes to a slot, from one of its bytes on; document 01: "Address bytes are highest first".
fn program_head(slot: usize, at: usize) -> [u8; 4] {
    let place = LIST_START + slot_start(slot) + at % SLOT_BYTES;
    let [_, high, middle, low] = (place as u32).to_be_bytes();
    [0x02, high, middle, low]
}

// "writes number and data into the first empty slot": the 02 that does it. The data are 28 bytes.
fn number_and_data(slot: usize, station: u16, data: &[u8]) -> [u8; 34] {
    let head = program_head(slot, NUMBER_AT);
    let number = station.to_be_bytes();
    let mut sent = [0u8; 34];
    for (to, from) in sent.iter_mut().zip(head.iter().chain(&number).chain(data)) {
        *to = *from;
    }
    sent
}

// The 02 that writes the two bytes of a slot's mark.
fn mark_frame(slot: usize, mark: [u8; 2]) -> [u8; 6] {
    let [program, high, middle, low] = program_head(slot, 0);
    [program, high, middle, low, mark[0], mark[1]]
}

// "a lent list says, for each write in turn, before which poll completion arrives (0 or no entry: never)". The first write
// has turn 0; no poll has place 0.
fn completes_before(list: &[u64], turn: usize) -> Option<u64> {
    list.get(turn).copied()
}

// A write of a slot's mark. `call` is what the writes before it came to. The reported polls are "added over the writes".
fn write_mark(
    call: Store,
    array: &mut [u8],
    security: &mut [u8],
    slot: usize,
    mark: [u8; 2],
    allowance: u64,
    before: Option<u64>,
) -> Store
    requires { (allowance ≤ 65535) × (call.polls ≤ 1000000000) }
    ensures { result.polls ≤ call.polls + 65535 }
{
    let chip = call.chip;
    let sent = mark_frame(slot, mark);
    let now = write(chip, array, security, &sent, allowance, before);
    Store {
        polls: call.polls + now.polls,
        ..now
    }
}

// "then clears to 00 00 the mark of each other live slot of that number, lowest first". `call` is what the two writes before came
// to, which had turns 0 and 1. `shown` is what the read gave: the slot just stored was empty in it, so each live slot that it
// shows is another one.
fn clear_others(
    call: Store,
    array: &mut [u8],
    security: &mut [u8],
    shown: &[u8],
    station: u16,
    allowance: u64,
    list: &[u64],
) -> Store
    requires { (allowance ≤ 65535) × (call.polls ≤ 131070) }
{
    let mut now = call;
    let mut turn: usize = 2;
    for slot in 0..SLOTS {
        if is_live_of(shown, slot, station) {
            now = write_mark(
                now,
                array,
                security,
                slot,
                CLEARED,
                allowance,
                completes_before(list, turn),
            );
            if now.number != 0 {
                return now;
            }
            turn += 1;
        }
    }
    now
}

// "then its mark in a second write", and the clearing. `call` is what the first write came to.
fn mark_and_clear(
    call: Store,
    array: &mut [u8],
    security: &mut [u8],
    shown: &[u8],
    slot: usize,
    station: u16,
    allowance: u64,
    list: &[u64],
) -> Store
    requires { (allowance ≤ 65535) × (call.polls ≤ 65535) }
{
    let marked = write_mark(
        call,
        array,
        security,
        slot,
        LIVE,
        allowance,
        completes_before(list, 1),
    );
    if marked.number != 0 {
        return marked;
    }
    clear_others(marked, array, security, shown, station, allowance, list)
}

// "Storing writes number and data into the first empty slot", then the rest. "write by write, a chip refusal or 18 polls used
// up, with the chip as the frames so far left it"
fn store_in(
    chip: second::Flat,
    array: &mut [u8],
    security: &mut [u8],
    shown: &[u8],
    slot: usize,
    station: u16,
    data: &[u8],
    allowance: u64,
    list: &[u64],
) -> Store
    requires { allowance ≤ 65535 }
{
    let sent = number_and_data(slot, station, data);
    let written = write(
        chip,
        array,
        security,
        &sent,
        allowance,
        completes_before(list, 0),
    );
    if written.number != 0 {
        return written;
    }
    mark_and_clear(
        written, array, security, shown, slot, station, allowance, list,
    )
}

// ---- Lookup and store ----

// "data or a lookup buffer not of 28 bytes, gets 1", and so do buffers of the read that are not of the list's length.
fn lengths_fit(reply: usize, marks: usize, data: usize) -> bool {
    reply == LIST_BYTES && marks == LIST_BYTES && data == DATA_BYTES
}

// "gives the data" of a slot.
fn give_data(shown: &[u8], slot: usize, buffer: &mut [u8]) {
    let data = slot_bytes(shown, slot).iter().skip(DATA_AT);
    for (to, from) in buffer.iter_mut().zip(data) {
        *to = *from;
    }
}

// "Lookup gives the data of the first live slot of that number; a refusal leaves its buffer unchanged."
// "Refusals, in this order: 1; a chip refusal of the read; .. 17 exactly if lookup's read shows no such live slot". 16 is of
// storing.
pub fn lookup(
    s: Store,
    array: &mut [u8],
    security: &mut [u8],
    reply: &mut [u8],
    marks: &mut [u8],
    station: u16,
    buffer: &mut [u8],
) -> Store {
    let chip = s.chip;
    if !lengths_fit(reply.len(), marks.len(), buffer.len()) {
        return ended(chip, 1);
    }
    let after = match read_list(chip, array, security, reply, marks) {
        Ok(after) => after,
        // "If the chip refuses, the call ends with that number"
        Err(refused) => return ended(refused.chip, refused.number),
    };
    let Some(slot) = first_live(reply, station) else {
        return ended(after, 17);
    };
    give_data(reply, slot, buffer);
    ended(after, 0)
}

// A storing call whose read is done: "16 exactly if the read shows no empty slot; .. then, write by write"
fn store_shown(
    chip: second::Flat,
    array: &mut [u8],
    security: &mut [u8],
    shown: &[u8],
    station: u16,
    data: &[u8],
    allowance: u64,
    list: &[u64],
) -> Store
    requires { allowance ≤ 65535 }
{
    let Some(slot) = first_empty(shown) else {
        return ended(chip, 16);
    };
    store_in(
        chip, array, security, shown, slot, station, data, allowance, list,
    )
}

// A storing call that is not refused with 1: "a chip refusal of the read", then the rest.
fn read_and_store(
    chip: second::Flat,
    array: &mut [u8],
    security: &mut [u8],
    reply: &mut [u8],
    marks: &mut [u8],
    station: u16,
    data: &[u8],
    allowance: u64,
    list: &[u64],
) -> Store
    requires { allowance ≤ 65535 }
{
    match read_list(chip, array, security, reply, marks) {
        Ok(after) => store_shown(
            after, array, security, reply, station, data, allowance, list,
        ),
        // "If the chip refuses, the call ends with that number"
        Err(refused) => ended(refused.chip, refused.number),
    }
}

// "Storing writes number and data into the first empty slot, then its mark in a second write, then clears" the others.
// "Refusals, in this order: 1; .."
pub fn store(
    s: Store,
    array: &mut [u8],
    security: &mut [u8],
    reply: &mut [u8],
    marks: &mut [u8],
    station: u16,
    data: &[u8],
    allowance: u64,
    list: &[u64],
) -> Store {
    let chip = s.chip;
    if !lengths_fit(reply.len(), marks.len(), data.len()) {
        return ended(chip, 1);
    }
    // "an allowance above 65,535 .. gets 1"
    if ALLOWANCE_LIMIT < allowance {
        return ended(chip, 1);
    }
    read_and_store(
        chip, array, security, reply, marks, station, data, allowance, list,
    )
}
