// A bench chip, the SST26WF016BA or the old part SST26WF016B, written from the rules of the bench chip (document 01), the
// requests for burst reads (W-201), for chips sent by post (W-203), for the BA part (W-204) and for a reset in the middle of an
// erase (W-205), and the two parts' data sheet (002). One flat state, and three events over it: a frame, a completion, a power
// cut; beside them a chip is written to a file and read from one. The text goes through document 01 in its order; the words in
// quotation marks are its own, or a request's where a comment or the section's title says so.
// Every function is proved to be safe and to end, and says nothing more than that.
#![tactic(auto)]

ghost use Rattle.std.specs.Prelude.{◌≤◌, ◌<◌, ◌≡◌, ◌+◌, length};

use std::ops::Range;

// The kinds, the numbers and the burst stay numbers, and the parts one flat row: other crates read and write these fields.
// What runs (run_) or is suspended (sus_), as a kind and a number:
// 0 nothing; 1 sector erase, the sector; 2 protection block erase, the block's place in the table of forty;
// 3 array erase; 4 page program, the page; 5 Security ID program, its page there; 6 Security ID lock;
// 7 configuration write, IOC + 2 * WPEN; 8 permanent bits, the 48 bits as sent.
#[derive(Clone, Copy, PartialEq, Eq)]
pub struct Flat {
    pub buffer: [u8; 256],
    pub protection: u64,
    pub permanent: u64,
    pub run_kind: u8,
    pub run_number: u64,
    pub sus_kind: u8,
    pub sus_number: u64,
    pub sqi: bool,
    pub wel: bool,
    pub ioc: bool,
    pub wpen: bool,
    pub wpld: bool,
    pub sec: bool,
    // the reset enable
    pub enable: bool,
    // the burst, by the byte that C0 sends for it: 0, 1, 2, 3 for 8, 16, 32, 64 bytes
    pub burst: u8,
    // W-204: "The chip record keeps the part": true for the BA part, false for the old one. No event changes it.
    pub ba: bool,
}

// What an event gives back: its number, 0 for done, and the record after it. Other crates read the number.
#[derive(Clone, Copy, PartialEq, Eq)]
pub struct Step {
    pub number: u8,
    pub state: Flat,
}

// What a frame event carries beside its bytes and its buffers: the count k and the byte m of W-205.
#[derive(Clone, Copy, PartialEq, Eq, Default)]
pub struct Extra {
    pub k: u64,
    pub m: u8,
}

// What runs or is suspended, as the rules speak of it: `work_of` reads it from a record, `kind_and_number` writes it.
#[derive(Clone, Copy, PartialEq, Eq)]
enum Work {
    Sector(usize),
    // the block's place in the table of forty
    Block(usize),
    Array,
    Page(usize),
    // the page's number in the Security ID
    SecurityPage(usize),
    SecurityLock,
    Configuration { ioc: bool, wpen: bool },
    // the 48 bits as sent
    Permanent(u64),
}

// ---- The chip on the bench ----

// "array 2,097,152 bytes", "Security ID 2,048 bytes", "Frame at most 65,536 bytes".
const ARRAY_BYTES: usize = 2097152;

const SECURITY_BYTES: usize = 2048;

const FRAME_LIMIT: usize = 65536;

// The write locks of the register: bits 0 to 31, and the even bits of the pairs.
const WRITE_LOCKS: u64 = 0x5555FFFFFFFF;
// The read locks: the odd bits of the pairs.
const READ_LOCKS: u64 = 0xAAAA00000000;

// W-204: "SST26WF016BA powers up with the hold and protect pins disabled, so IOC is 1 after power-up and after reset.", and
// the old part "still gets 0". A new chip, a power cut and a reset ask here.
fn power_up_ioc(ba: bool) -> bool {
    ba
}

// "A new chip record is the power-up state with SEC 0, WPEN 0 and nothing permanent." W-201: "Power-up and reset set 8"
fn new_chip(ba: bool) -> Flat {
    Flat {
        buffer: [255u8; 256],
        protection: 0x5555FFFFFFFF,
        permanent: 0,
        run_kind: 0,
        run_number: 0,
        sus_kind: 0,
        sus_number: 0,
        sqi: false,
        wel: false,
        ioc: power_up_ioc(ba),
        wpen: false,
        wpld: false,
        sec: false,
        enable: false,
        burst: 0,
        ba,
    }
}

// W-204: "We now buy the BA part." "Make that the default."
pub fn fresh() -> Flat {
    new_chip(true)
}

// W-204: "A bench call that names the old part still gets 0."
pub fn fresh_old() -> Flat {
    new_chip(false)
}

// "array 2,097,152 bytes", "Security ID 2,048 bytes".
fn memories_sized(array: usize, security: usize) -> bool {
    array == ARRAY_BYTES && security == SECURITY_BYTES
}

// "Frame at most 65,536 bytes. Reply and marks of equal length, at most 65,536."
fn frame_sized(sent: usize, reply: usize, marks: usize) -> bool {
    sent <= FRAME_LIMIT && reply == marks && reply <= FRAME_LIMIT
}

// The byte at a place of a slice. All uses are inside the slice; outside it the answer is 0.
fn byte_at(from: &[u8], place: usize) -> u8 {
    from.get(place).copied().unwrap_or(0)
}

// As many bytes as both have, stored from the first place on.
fn store(to: &mut [u8], from: &[u8]) {
    for (byte, &value) in to.iter_mut().zip(from) {
        *byte = value;
    }
}

// ---- Protection blocks ----

// The place in the table of forty of the block that holds an array address.
fn block_at(address: usize) -> usize {
    // "39/38, 37/36, 35/34, 33/32: 8 KB from 006000, 004000, 002000, 000000"
    if address < 0x8000 {
        return 7 - address / 0x2000 % 4;
    }
    // "30: 32 KB from 008000"
    if address < 0x10000 {
        return 9;
    }
    // "29 down to 0: 64 KB; bit n from (n + 1) × 10000": the block from m × 10000 has bit m - 1 and place 40 - m
    if address < 0x1F0000 {
        return 40 - address / 0x10000 % 32;
    }
    // "31: 32 KB from 1F0000"
    if address < 0x1F8000 {
        return 8;
    }
    // "47/46, 45/44, 43/42, 41/40: 8 KB from 1FE000, 1FC000, 1FA000, 1F8000"
    3 - (address - 0x1F8000) / 0x2000 % 4
}

// The first address of the block at a place of the table.
fn block_start(place: usize) -> usize
    ensures { result ≤ 2097152 }
{
    if place < 4 {
        return 0x1FE000 - place * 0x2000;
    }
    if place < 8 {
        return (7 - place) * 0x2000;
    }
    if place == 8 {
        return 0x1F0000;
    }
    if place == 9 {
        return 0x8000;
    }
    if place < 40 {
        return (40 - place) * 0x10000;
    }
    0
}

// How many bytes it has: "8 KB", "32 KB", "64 KB".
fn block_size(place: usize) -> usize
    ensures { result ≤ 2097152 }
{
    if place < 8 {
        return 0x2000;
    }
    if place < 10 {
        return 0x8000;
    }
    if place < 40 {
        return 0x10000;
    }
    0
}

fn has_bit(register: u64, bit: usize) -> bool {
    register >> (bit % 64) & 1 == 1
}

// "the even bit the write lock. Single bits are write locks."
fn write_locked(protection: u64, address: usize) -> bool {
    let place = block_at(address);
    if place < 8 {
        return has_bit(protection, 46 - 2 * place);
    }
    if place < 40 {
        return has_bit(protection, 39 - place);
    }
    false
}

// "In a pair the odd bit is the read lock": only the 8 KB blocks have one.
fn read_locked(protection: u64, address: usize) -> bool {
    let place = block_at(address);
    place < 8 && has_bit(protection, 47 - 2 * place)
}

// What a kind and a number of the record stand for: none for kind 0, where nothing is, and for a kind that is not listed.
fn work_of(kind: u8, number: u64) -> Option<Work> {
    let n = number as usize;
    match kind {
        1 => Some(Work::Sector(n)),
        2 => Some(Work::Block(n)),
        3 => Some(Work::Array),
        4 => Some(Work::Page(n)),
        5 => Some(Work::SecurityPage(n)),
        6 => Some(Work::SecurityLock),
        7 => Some(Work::Configuration {
            ioc: has_bit(number, 0),
            wpen: has_bit(number, 1),
        }),
        8 => Some(Work::Permanent(number)),
        _ => None,
    }
}

// And back: the kind and the number that the record's public fields hold for it.
fn kind_and_number(work: Work) -> (u8, u64) {
    match work {
        Work::Sector(n) => (1, n as u64),
        Work::Block(n) => (2, n as u64),
        Work::Array => (3, 0),
        Work::Page(n) => (4, n as u64),
        Work::SecurityPage(n) => (5, n as u64),
        Work::SecurityLock => (6, 0),
        Work::Configuration { ioc, wpen } => (7, u64::from(ioc) | u64::from(wpen) << 1),
        Work::Permanent(bits) => (8, bits),
    }
}

fn running_work(s: Flat) -> Option<Work> {
    work_of(s.run_kind, s.run_number)
}

fn suspended_work(s: Flat) -> Option<Work> {
    work_of(s.sus_kind, s.sus_number)
}

fn is_erase(work: Work) -> bool {
    matches!(work, Work::Sector(_) | Work::Block(_) | Work::Array)
}

// 02, 32 and A5 fill the page buffer.
fn is_program(work: Work) -> bool {
    matches!(work, Work::Page(_) | Work::SecurityPage(_))
}

// "20, D8, 02 or 32": "one sector or block erase or one page program".
fn can_suspend(work: Work) -> bool {
    matches!(work, Work::Sector(_) | Work::Block(_) | Work::Page(_))
}

// The range of array work: a sector, a block, the array, a page; none where the work is not in the array.
fn array_range(work: Work) -> Option<Range<usize>> {
    match work {
        Work::Sector(n) => {
            let start = n % 512 * 4096;
            Some(start..start + 4096)
        }
        Work::Block(place) => {
            let start = block_start(place);
            Some(start..start + block_size(place))
        }
        Work::Array => Some(0..ARRAY_BYTES),
        Work::Page(n) => {
            let start = n % 8192 * 256;
            Some(start..start + 256)
        }
        _ => None,
    }
}

// Whether the range of this work holds an array place.
fn range_holds(work: Work, place: usize) -> bool {
    array_range(work).is_some_and(|range| range.contains(&place))
}

// Whether a write lock lies on the range of this work. A sector, a page and a block lie each in one block.
fn range_locked(protection: u64, work: Work) -> bool {
    if work == Work::Array {
        return protection & WRITE_LOCKS != 0;
    }
    array_range(work).is_some_and(|range| write_locked(protection, range.start))
}

// Whether two ranges have a place in common. Work in the Security ID meets no range of the array.
fn ranges_meet(one: Work, other: Work) -> bool {
    match (array_range(one), array_range(other)) {
        (Some(a), Some(b)) => a.start < b.end && b.start < a.end,
        _ => false,
    }
}

// ---- The registers as read ----

// "bit 0 BUSY, 1 WEL, 2 WSE (erase suspended), 3 WSP (program suspended), 4 WPLD, 5 SEC, 6 zero, 7 BUSY again"
fn status(s: Flat) -> u8 {
    let busy = running_work(s).is_some();
    let wse = suspended_work(s).is_some_and(is_erase);
    let wsp = suspended_work(s).is_some_and(is_program);
    let low = u8::from(busy) | u8::from(s.wel) << 1 | u8::from(wse) << 2 | u8::from(wsp) << 3;
    low | u8::from(s.wpld) << 4 | u8::from(s.sec) << 5 | u8::from(busy) << 7
}

// "bit 1 IOC, bit 3 BPNV, bit 7 WPEN, others zero. BPNV is 1 exactly while the permanent register is zero."
fn configuration(s: Flat) -> u8 {
    let bpnv = s.permanent == 0;
    u8::from(s.ioc) << 1 | u8::from(bpnv) << 3 | u8::from(s.wpen) << 7
}

// ---- Frames ----

// In which protocols an opcode is listed: "SPI only", "SQI only", or both.
#[derive(Clone, Copy, PartialEq, Eq)]
enum ListedIn {
    Both,
    Spi,
    Sqi,
}

// None for an opcode that is not listed. An opcode stays the byte that is sent, here and below: document 01 names it by that.
// W-201: C0 "in both protocols", "0C (SQI) and EC (SPI, IOC 1)"
fn protocols(opcode: u8) -> Option<ListedIn> {
    match opcode {
        0x38 | 0x9F | 0x03 | 0x6B | 0x32 | 0xEC => Some(ListedIn::Spi),
        0xAF | 0x0C => Some(ListedIn::Sqi),
        0x00 | 0x66 | 0x99 | 0xFF | 0x05 | 0x35 | 0x72 | 0x0B | 0x88 => Some(ListedIn::Both),
        0x06 | 0x04 | 0x20 | 0xD8 | 0xC7 | 0x02 | 0xA5 | 0x85 | 0x01 => Some(ListedIn::Both),
        0x42 | 0xE8 | 0x8D | 0x98 | 0xB0 | 0x30 | 0xC0 => Some(ListedIn::Both),
        _ => None,
    }
}

fn listed(opcode: u8, sqi: bool) -> bool {
    match protocols(opcode) {
        Some(ListedIn::Both) => true,
        Some(ListedIn::Spi) => !sqi,
        Some(ListedIn::Sqi) => sqi,
        None => false,
    }
}

fn either(sqi: bool, in_sqi: usize, in_spi: usize) -> usize {
    if sqi { in_sqi } else { in_spi }
}

// The "Length" column: "counts all bytes, opcode included". For "or more" it is the least length.
// W-201: "C0 takes one data byte", "0C (SQI) and EC (SPI, IOC 1) have length 7"
fn table_length(opcode: u8, sqi: bool) -> usize {
    match opcode {
        0x05 | 0x35 | 0x72 => either(sqi, 2, 1),
        0xAF | 0xC0 => 2,
        0x03 | 0x20 | 0xD8 => 4,
        0x0B => either(sqi, 7, 5),
        0x6B => 5,
        0x88 => either(sqi, 6, 4),
        0x02 | 0x32 => 5,
        0xA5 => 4,
        0x01 => 3,
        0x42 | 0xE8 | 0x0C | 0xEC => 7,
        _ => 1,
    }
}

// "5 or more" for 02 and 32, "4 or more" for A5, and for the others exactly the length.
fn length_listed(opcode: u8, sqi: bool, length: usize) -> bool {
    let asked = table_length(opcode, sqi);
    match opcode {
        0x02 | 0x32 | 0xA5 => asked <= length,
        _ => length == asked,
    }
}

// "Address bytes are highest first; an array address counts modulo 200000"
fn array_address(sent: &[u8]) -> usize
    ensures { result < 2097152 }
{
    let bytes = [0, byte_at(sent, 1), byte_at(sent, 2), byte_at(sent, 3)];
    u32::from_be_bytes(bytes) as usize % ARRAY_BYTES
}

// "a Security ID address modulo 800"
fn security_address(sent: &[u8]) -> usize
    ensures { result < 2048 }
{
    let bytes = [byte_at(sent, 1), byte_at(sent, 2)];
    usize::from(u16::from_be_bytes(bytes)) % SECURITY_BYTES
}

// "It travels as six bytes, highest first." The first of them stands at the place given.
fn six_bytes(from: &[u8], first: usize) -> u64 {
    from.iter()
        .skip(first)
        .take(6)
        .fold(0, |value, &byte| value << 8 | u64::from(byte))
}

fn protection_byte(protection: u64, i: usize) -> u8 {
    // "After six bytes 72 gives 00."
    byte_at(&protection.to_be_bytes()[2..], i)
}

// "The identity bytes are BF, 26 and the device byte printed in 002; they repeat": the sheet's table 5-4 has 51.
const IDENTITY: [u8; 3] = [0xBF, 0x26, 0x51];

// The reply and its marks, byte by byte: `out` says what is known at each place of the reply, "mark 1"; what is not "reads 00,
// mark 0".
fn answer_each<F: Fn(usize) -> Option<u8>>(reply: &mut [u8], marks: &mut [u8], out: F)
    requires { F.IsAlwaysCallable out }
{
    for (i, (byte, mark)) in reply.iter_mut().zip(marks.iter_mut()).enumerate() {
        let shown = out(i);
        *byte = shown.unwrap_or(0);
        *mark = u8::from(shown.is_some());
    }
}

// The same where all of it is known.
fn answer_known<F: Fn(usize) -> u8>(reply: &mut [u8], marks: &mut [u8], out: F)
    requires { F.IsAlwaysCallable out }
{
    for (i, byte) in reply.iter_mut().enumerate() {
        *byte = out(i);
    }
    marks.fill(1);
}

// What a place of the array shows; `aside` is the suspended range, empty where nothing is suspended.
fn array_out(protection: u64, aside: &Range<usize>, array: &[u8], place: usize) -> Option<u8> {
    // "A byte in a read-locked block reads 00, mark 1."
    if read_locked(protection, place) {
        return Some(0);
    }
    // "Otherwise a byte in the suspended range reads 00, mark 0"
    if aside.contains(&place) {
        return None;
    }
    // "All others: the stored byte, mark 1."
    Some(byte_at(array, place))
}

// W-201: "C0 takes one data byte: 00 to 03 set a burst of 8, 16, 32 or 64 bytes". Whether a byte is one of these.
fn burst_listed(code: u8) -> bool {
    code <= 3
}

// And the burst that it sets, in bytes.
fn burst_size(code: u8) -> usize
    ensures { (0 < result) × (result ≤ 64) }
{
    match code {
        0 => 8,
        1 => 16,
        2 => 32,
        _ => 64,
    }
}

// "Reads go up one place a byte; after the last array or Security ID place comes place 0." W-201: "start at the address given
// and wrap within the naturally aligned group of that length". A group begins at a multiple of its size: it is the whole memory,
// or a burst. Byte i of the reply lies i places on from the start, counted round in the group.
fn read_place(start: usize, size: usize, i: usize) -> usize
    requires start_bound { start < 2097152 }
    requires size_nonzero { 0 < size }
    requires size_bound { size ≤ 2097152 }
{
    let within = start % size;
    start - within + within.wrapping_add(i) % size
}

// "A frame without a reply fills the reply with FF and the marks with 0."
fn no_reply(reply: &mut [u8], marks: &mut [u8]) {
    reply.fill(255);
    marks.fill(0);
}

fn answer(s: Flat, array: &[u8], security: &[u8], sent: &[u8], reply: &mut [u8], marks: &mut [u8]) {
    let opcode = byte_at(sent, 0);
    let aside = suspended_work(s).and_then(array_range).unwrap_or(0..0);
    match opcode {
        0x03 | 0x0B | 0x6B => {
            let start = array_address(sent);
            answer_each(reply, marks, |i| {
                array_out(
                    s.protection,
                    &aside,
                    array,
                    read_place(start, ARRAY_BYTES, i),
                )
            });
        }
        // W-201: "Locks and suspended ranges read as before."
        0x0C | 0xEC => {
            let start = array_address(sent);
            let size = burst_size(s.burst);
            answer_each(reply, marks, |i| {
                array_out(s.protection, &aside, array, read_place(start, size, i))
            });
        }
        // No lock and no suspended range touches the Security ID.
        0x88 => {
            let start = security_address(sent);
            answer_known(
                reply,
                marks,
                |i| byte_at(security, read_place(start, SECURITY_BYTES, i)),
            );
        }
        // "Register and identity bytes, and the 00 after 72's six, have mark 1."
        0x05 => {
            let shown = status(s);
            answer_known(reply, marks, |_| shown);
        }
        0x35 => {
            let shown = configuration(s);
            answer_known(reply, marks, |_| shown);
        }
        0x72 => answer_known(reply, marks, |i| protection_byte(s.protection, i)),
        0x9F | 0xAF => {
            for group in reply.chunks_mut(IDENTITY.len()) {
                store(group, &IDENTITY);
            }
            marks.fill(1);
        }
        _ => no_reply(reply, marks),
    }
}

// "Programs fill a page buffer of 256 bytes, all FF at first. Data go to rising places in the page and wrap from its end
// to its start; a later byte replaces an earlier one in the buffer." The data start at sent[first].
fn filled(sent: &[u8], first: usize, address: usize) -> [u8; 256] {
    let mut buffer = [255u8; 256];
    for (i, byte) in sent.iter().skip(first).enumerate() {
        buffer[address.wrapping_add(i) % 256] = *byte;
    }
    buffer
}

// "first data byte ignored; second sets IOC and WPEN": bits 1 and 7, as the register is read.
fn configuration_sent(sent: &[u8]) -> Work {
    let second = u64::from(byte_at(sent, 2));
    Work::Configuration {
        ioc: has_bit(second, 1),
        wpen: has_bit(second, 7),
    }
}

// What a frame with a long opcode runs; none for the others.
fn work_sent(opcode: u8, sent: &[u8]) -> Option<Work> {
    match opcode {
        0x20 => Some(Work::Sector(array_address(sent) / 4096)),
        0xD8 => Some(Work::Block(block_at(array_address(sent)))),
        0xC7 => Some(Work::Array),
        0x02 | 0x32 => Some(Work::Page(array_address(sent) / 256)),
        0xA5 => Some(Work::SecurityPage(security_address(sent) / 256)),
        0x85 => Some(Work::SecurityLock),
        0x01 => Some(configuration_sent(sent)),
        0xE8 => Some(Work::Permanent(six_bytes(sent, 1))),
        _ => None,
    }
}

// "20, D8, C7, 02, 32, A5, 85, 01 and E8 run until completion, and only then act; BUSY is 1 meanwhile."
fn started(s: Flat, work: Work, sent: &[u8]) -> Flat {
    let (run_kind, run_number) = kind_and_number(work);
    let buffer = match work {
        Work::Page(_) => filled(sent, 4, array_address(sent)),
        Work::SecurityPage(_) => filled(sent, 3, security_address(sent)),
        _ => s.buffer,
    };
    Flat {
        buffer,
        run_kind,
        run_number,
        ..s
    }
}

// "42 replaces all 48 bits, but a write lock with its permanent bit set stays 1."
// "All others act at once; 42, 8D and 98 then set WEL to 0."
fn protection_written(s: Flat, sent: &[u8]) -> Flat {
    Flat {
        protection: six_bytes(sent, 1) | s.permanent,
        wel: false,
        ..s
    }
}

// "lock protection down (WPLD 1)"
fn locked_down(s: Flat) -> Flat {
    Flat {
        wpld: true,
        wel: false,
        ..s
    }
}

// "98 clears every write lock not permanent and no read lock."
fn locks_cleared(s: Flat) -> Flat {
    Flat {
        protection: s.protection & (READ_LOCKS | s.permanent),
        wel: false,
        ..s
    }
}

// "B0 puts aside a running 20, D8, 02 or 32 at once: BUSY 0, WSE or WSP 1, WEL unchanged."
fn suspended(s: Flat) -> Flat {
    Flat {
        sus_kind: s.run_kind,
        sus_number: s.run_number,
        run_kind: 0,
        run_number: 0,
        ..s
    }
}

// "30 runs it again and needs no WEL."
fn resumed(s: Flat) -> Flat {
    Flat {
        run_kind: s.sus_kind,
        run_number: s.sus_number,
        sus_kind: 0,
        sus_number: 0,
        ..s
    }
}

// "running and suspended work dropped"; then no program runs or is suspended, and the buffer is all FF.
fn dropped(s: Flat) -> Flat {
    Flat {
        run_kind: 0,
        run_number: 0,
        sus_kind: 0,
        sus_number: 0,
        buffer: [255u8; 256],
        ..s
    }
}

// "Reset (99): SPI, BUSY, WEL, WSE, WSP 0, IOC at its power-up value, running and suspended work dropped .. WPLD, SEC, WPEN and
// both protection registers stay." W-201: "Power-up and reset set 8". What W-205 has the running work do comes before this.
fn reset(s: Flat) -> Flat {
    Flat {
        sqi: false,
        wel: false,
        ioc: power_up_ioc(s.ba),
        burst: 0,
        ..dropped(s)
    }
}

// The record after a frame that is done; s has its enable used up already.
fn acted(s: Flat, opcode: u8, sent: &[u8]) -> Flat {
    if let Some(work) = work_sent(opcode, sent) {
        return started(s, work, sent);
    }
    match opcode {
        0x66 => Flat { enable: true, ..s },
        0x99 => reset(s),
        0x38 => Flat { sqi: true, ..s },
        0xFF => Flat { sqi: false, ..s },
        0x06 => Flat { wel: true, ..s },
        0x04 => Flat { wel: false, ..s },
        0x42 => protection_written(s, sent),
        0x8D => locked_down(s),
        0x98 => locks_cleared(s),
        0xB0 => suspended(s),
        0x30 => resumed(s),
        // W-201: "00 to 03 set a burst of 8, 16, 32 or 64 bytes"
        0xC0 => Flat {
            burst: byte_at(sent, 1),
            ..s
        },
        _ => s,
    }
}

// ---- Completion, power cut, and a reset while busy ----

// What ends after k bytes of its range. W-205: "The first k bytes are finished. If the range has a byte k (counted from 0), that
// byte becomes" something in between. "The rest is unchanged." `finished` has the byte's place in the range and its old value;
// `torn` has the old value and the finished one.
fn finish_to<F: Fn(usize, u8) -> u8, T: Fn(u8, u8) -> u8>(
    range: &mut [u8],
    k: u64,
    finished: F,
    torn: T,
)
    requires finishes { F.IsAlwaysCallable finished }
    requires tears { T.IsAlwaysCallable torn }
{
    let count = range.len().min(k as usize);
    for (i, byte) in range[..count].iter_mut().enumerate() {
        *byte = finished(i, *byte);
    }
    if let Some(byte) = range.get_mut(count) {
        let old = *byte;
        *byte = torn(old, finished(count, old));
    }
}

// "Erase sets FF." W-205: "for an erase, old OR m".
fn erase_to(range: &mut [u8], k: u64, m: u8) {
    finish_to(range, k, |_, _| 255, |old, _| old | m);
}

// "each page byte becomes its old value AND the buffer byte"; W-205: "for a program, old AND (finished OR m)". "The range of 02,
// 32 and A5 is the whole page."
fn program_to(page: &mut [u8], buffer: &[u8; 256], k: u64, m: u8) {
    finish_to(
        page,
        k,
        |i, old| old & buffer[i % 256],
        |old, finished| old & (finished | m),
    );
}

// "The running operation's range, in rising address order, has its first k bytes finished and the rest unchanged (all
// finished if k is larger)", but for W-205's byte k.
fn finish_bytes(s: Flat, array: &mut [u8], security: &mut [u8], k: u64, m: u8) {
    let Some(work) = running_work(s) else {
        return;
    };
    if let Work::SecurityPage(number) = work {
        let start = number % 8 * 256;
        if let Some(page) = security.get_mut(start..start + 256) {
            program_to(page, &s.buffer, k, m);
        }
        return;
    }
    let Some(places) = array_range(work) else {
        return;
    };
    let Some(range) = array.get_mut(places) else {
        return;
    };
    if is_erase(work) {
        erase_to(range, k, m);
    } else {
        program_to(range, &s.buffer, k, m);
    }
}

// What 85, 01 and E8 do: "lock Security ID"; "sets IOC and WPEN"; "E8 adds its write-lock bits to the permanent register
// and to the protection register; WPLD does not stop it."
fn finish_registers(s: Flat) -> Flat {
    match running_work(s) {
        Some(Work::SecurityLock) => Flat { sec: true, ..s },
        Some(Work::Configuration { ioc, wpen }) => Flat { ioc, wpen, ..s },
        Some(Work::Permanent(bits)) => Flat {
            permanent: s.permanent | bits & WRITE_LOCKS,
            protection: s.protection | bits & WRITE_LOCKS,
            ..s
        },
        _ => s,
    }
}

// What the running operation has done when a power cut stops it, or by W-205 "an accepted 99 while busy". Where nothing runs, and
// to the range of suspended work, nothing is done. The record is the one before the power-up or the reset.
fn stopped(s: Flat, array: &mut [u8], security: &mut [u8], k: u64, m: u8) -> Flat {
    finish_bytes(s, array, security, k, m);
    // "85, 01 and E8 act fully if k is 1 or more, else not", W-205: "before the registers are reset"
    if k == 0 {
        return s;
    }
    finish_registers(s)
}

// W-205: k and m are "used only by an accepted 99 while busy"; s is the record of a frame that is accepted.
fn stopped_by(opcode: u8, s: Flat, array: &mut [u8], security: &mut [u8], x: Extra) -> Flat {
    if opcode != 0x99 {
        return s;
    }
    stopped(s, array, security, x.k, x.m)
}

// "Completion sets BUSY and WEL to 0." After a program the buffer is all FF again.
fn completed(s: Flat) -> Flat {
    let buffer = if running_work(s).is_some_and(is_program) {
        [255u8; 256]
    } else {
        s.buffer
    };
    Flat {
        buffer,
        run_kind: 0,
        run_number: 0,
        wel: false,
        ..finish_registers(s)
    }
}

// "Then power-up: SPI, WPLD 0, WEL 0, IOC 0, nothing running, no reset enable, protection 5555FFFFFFFF; SEC, WPEN and the
// permanent register stay." "Suspended work is dropped." W-201: "Power-up and reset set 8". By W-204 "IOC 0" is the old part's.
fn powered_up(s: Flat) -> Flat {
    Flat {
        sqi: false,
        wpld: false,
        wel: false,
        ioc: power_up_ioc(s.ba),
        enable: false,
        protection: 0x5555FFFFFFFF,
        burst: 0,
        ..dropped(s)
    }
}

// ---- A well-formed chip record ----

// "Page numbers below 8,192, in the Security ID below 8; erase ranges are a sector, a block or the array."
fn number_fits(work: Work) -> bool {
    match work {
        Work::Sector(n) => n < 512,
        Work::Block(place) => place < 40,
        Work::Page(n) => n < 8192,
        Work::SecurityPage(n) => n < 8,
        _ => true,
    }
}

fn running_listed(s: Flat) -> bool {
    match running_work(s) {
        Some(work) => number_fits(work),
        None => s.run_kind == 0,
    }
}

// "Suspended work is one sector or block erase or one page program."
fn suspended_listed(s: Flat) -> bool {
    match suspended_work(s) {
        Some(work) => can_suspend(work) && number_fits(work),
        None => s.sus_kind == 0,
    }
}

// "Registers below 2^48, no permanent read lock, each permanent bit set in the protection register."
fn registers_fit(protection: u64, permanent: u64) -> bool {
    protection <= 0xFFFFFFFFFFFF
        && permanent <= 0xFFFFFFFFFFFF
        && permanent & READ_LOCKS == 0
        && permanent & protection == permanent
}

// "one erase and one program"
fn one_of_each(running: Work, suspended: Work) -> bool {
    if is_erase(suspended) {
        is_program(running)
    } else {
        is_erase(running)
    }
}

// "If something runs beside it, they do not overlap and are one erase and one program."
fn side_by_side(s: Flat) -> bool {
    match (running_work(s), suspended_work(s)) {
        (Some(running), Some(suspended)) => {
            one_of_each(running, suspended) && !ranges_meet(running, suspended)
        }
        _ => true,
    }
}

fn all_erased(bytes: &[u8]) -> bool {
    bytes.iter().all(|&byte| byte == 255)
}

// "Running Security ID work has SEC 0; a running A5 of page 0 has FF in its first eight buffer bytes."
fn security_fits(s: Flat) -> bool {
    match running_work(s) {
        Some(Work::SecurityLock) => !s.sec,
        Some(Work::SecurityPage(page)) => !s.sec && (page != 0 || all_erased(&s.buffer[..8])),
        _ => true,
    }
}

// "The buffer is all FF when no program runs or is suspended."
fn buffer_fits(s: Flat) -> bool {
    running_work(s).is_some_and(is_program)
        || suspended_work(s).is_some_and(is_program)
        || all_erased(&s.buffer)
}

// "A running or suspended range has no write lock."
fn ranges_open(s: Flat) -> bool {
    !running_work(s).is_some_and(|work| range_locked(s.protection, work))
        && !suspended_work(s).is_some_and(|work| range_locked(s.protection, work))
}

fn well_formed(s: Flat) -> bool {
    running_listed(s)
        && suspended_listed(s)
        && registers_fit(s.protection, s.permanent)
        && side_by_side(s)
        && ranges_open(s)
        && security_fits(s)
        // W-201: "a well-formed record holds one of these four"
        && burst_listed(s.burst)
        && buffer_fits(s)
}

// ---- Numbers the bench gives back ----

#[derive(Clone, Copy, PartialEq, Eq)]
enum Refusal {
    Malformed = 1,
    Empty = 2,
    Unlisted = 3,
    Length = 4,
    Busy = 5,
    NotEnabled = 6,
    Quad = 7,
    Suspension = 8,
    Wel = 9,
    Locked = 10,
    Protected = 11,
    Idle = 12,
    // W-201
    Burst = 13,
    // W-203
    ChipBusy = 14,
    BadFile = 15,
}

// 5: "BUSY, and opcode not 05, 66, 99, B0"
fn refused_busy(s: Flat, opcode: u8) -> bool {
    running_work(s).is_some() && !matches!(opcode, 0x05 | 0x66 | 0x99 | 0xB0)
}

// 7: "6B or 32 with IOC 0", and W-201: "7 now covers EC too"
fn refused_quad(s: Flat, opcode: u8) -> bool {
    matches!(opcode, 0x6B | 0x32 | 0xEC) && !s.ioc
}

// W-201: "13 for a C0 byte above 03"
fn refused_burst(opcode: u8, sent: &[u8]) -> bool {
    opcode == 0xC0 && !burst_listed(byte_at(sent, 1))
}

// 8: "B0 unless 20, D8, 02 or 32 runs and nothing is suspended"
fn refused_suspend(s: Flat) -> bool {
    suspended_work(s).is_some() || !running_work(s).is_some_and(can_suspend)
}

// 8: "with WSE 1, 20 and D8, and 02 or 32 into the range"
fn refused_beside_erase(suspended: Work, opcode: u8, sent: &[u8]) -> bool {
    match opcode {
        0x20 | 0xD8 => true,
        0x02 | 0x32 => range_holds(suspended, array_address(sent)),
        _ => false,
    }
}

// 8: "with WSP 1, 02 and 32, and 20 or D8 whose range holds the page"
fn refused_beside_program(suspended: Work, opcode: u8, sent: &[u8]) -> bool {
    match opcode {
        0x02 | 0x32 => true,
        0x20 | 0xD8 => work_sent(opcode, sent).is_some_and(|erase| ranges_meet(erase, suspended)),
        _ => false,
    }
}

// 8: "C7, 01, 42, 8D, E8, 98, A5, 85 while anything is" suspended, and the two rules above.
fn refused_beside(suspended: Work, opcode: u8, sent: &[u8]) -> bool {
    match opcode {
        0xC7 | 0x01 | 0x42 | 0x8D | 0xE8 | 0x98 | 0xA5 | 0x85 => true,
        _ if is_erase(suspended) => refused_beside_erase(suspended, opcode, sent),
        _ => refused_beside_program(suspended, opcode, sent),
    }
}

// 8: "suspension rule below"
fn refused_suspension(s: Flat, opcode: u8, sent: &[u8]) -> bool {
    match opcode {
        0xB0 => refused_suspend(s),
        // "30 with nothing suspended"
        0x30 => suspended_work(s).is_none(),
        _ => suspended_work(s).is_some_and(|work| refused_beside(work, opcode, sent)),
    }
}

// "20, D8, C7, 02, 32, A5, 85, 01, E8, 42, 8D and 98 need WEL 1."
fn needs_wel(opcode: u8) -> bool {
    matches!(
        opcode,
        0x20 | 0xD8 | 0xC7 | 0x02 | 0x32 | 0xA5 | 0x85 | 0x01 | 0xE8 | 0x42 | 0x8D | 0x98
    )
}

// 9: "WEL needed and 0"
fn refused_wel(s: Flat, opcode: u8) -> bool {
    !s.wel && needs_wel(opcode)
}

// "A5 that sends a byte to places 0 to 7": only page 0 has them, and data wrap in the page.
fn sends_to_factory(sent: &[u8]) -> bool {
    let address = security_address(sent);
    address < 256 && (3..sent.len()).any(|i| address.wrapping_add(i - 3) % 256 < 8)
}

// 10: "42 or 98 with WPLD 1; A5 or 85 with SEC 1; A5 that sends a byte to places 0 to 7"
fn refused_locked(s: Flat, opcode: u8, sent: &[u8]) -> bool {
    match opcode {
        0x42 | 0x98 => s.wpld,
        0x85 => s.sec,
        0xA5 => s.sec || sends_to_factory(sent),
        _ => false,
    }
}

// 11: "20, D8, 02, 32 in a write-locked block; C7 with a write lock set"
fn refused_protected(s: Flat, opcode: u8, sent: &[u8]) -> bool {
    match opcode {
        0x20 | 0xD8 | 0x02 | 0x32 => write_locked(s.protection, array_address(sent)),
        0xC7 => s.protection & WRITE_LOCKS != 0,
        _ => false,
    }
}

// "If several apply to an event, the lowest is given." W-201: 13 is "tested after 7". 7, 13, 8 to 11, or none.
fn later_refusal(s: Flat, opcode: u8, sent: &[u8]) -> Option<Refusal> {
    if refused_quad(s, opcode) {
        return Some(Refusal::Quad);
    }
    if refused_burst(opcode, sent) {
        return Some(Refusal::Burst);
    }
    if refused_suspension(s, opcode, sent) {
        return Some(Refusal::Suspension);
    }
    if refused_wel(s, opcode) {
        return Some(Refusal::Wel);
    }
    if refused_locked(s, opcode, sent) {
        return Some(Refusal::Locked);
    }
    if refused_protected(s, opcode, sent) {
        return Some(Refusal::Protected);
    }
    None
}

// 3 to 11, 13, or none, for a frame that is not empty.
fn refusal_of(s: Flat, sent: &[u8]) -> Option<Refusal> {
    let opcode = byte_at(sent, 0);
    // 3: "opcode not listed, or not in this protocol"
    if !listed(opcode, s.sqi) {
        return Some(Refusal::Unlisted);
    }
    // 4: "length not as listed"
    if !length_listed(opcode, s.sqi, sent.len()) {
        return Some(Refusal::Length);
    }
    if refused_busy(s, opcode) {
        return Some(Refusal::Busy);
    }
    // 6: "99 with no enable"
    if opcode == 0x99 && !s.enable {
        return Some(Refusal::NotEnabled);
    }
    later_refusal(s, opcode, sent)
}

// ---- The three events ----

// "0 means done."
fn done(state: Flat) -> Step {
    Step { number: 0, state }
}

fn refused(refusal: Refusal, state: Flat) -> Step {
    Step {
        number: refusal as u8,
        state,
    }
}

// 1: "record not well-formed, or a length outside "Sizes" (every event)". Whether neither is so, but for the frame's own lengths.
fn admitted(s: Flat, array: usize, security: usize) -> bool {
    memories_sized(array, security) && well_formed(s)
}

// The reply and the record of a frame that is done; s has its enable used up already.
fn carried_out(
    s: Flat,
    array: &mut [u8],
    security: &mut [u8],
    sent: &[u8],
    reply: &mut [u8],
    marks: &mut [u8],
    x: Extra,
) -> Flat {
    answer(s, array, security, sent, reply, marks);
    let opcode = byte_at(sent, 0);
    let left = stopped_by(opcode, s, array, security, x);
    acted(left, opcode, sent)
}

// A frame: the bytes sent while CE# is low, and the two reply buffers. W-205: it "also carries a count k and a byte m"
pub fn frame(
    s: Flat,
    array: &mut [u8],
    security: &mut [u8],
    sent: &[u8],
    reply: &mut [u8],
    marks: &mut [u8],
    x: Extra,
) -> Step {
    // "Refusal 1 and 12 change nothing at all."
    if !frame_sized(sent.len(), reply.len(), marks.len()) {
        return refused(Refusal::Malformed, s);
    }
    if !admitted(s, array.len(), security.len()) {
        return refused(Refusal::Malformed, s);
    }
    // "Refusals 2 to 11 fill the reply with FF and the marks with 0; nothing else changes, except that 3 to 11 use up the
    // reset enable." W-201: 13, "leaving what 3 to 11 leave"
    if sent.is_empty() {
        no_reply(reply, marks);
        return refused(Refusal::Empty, s);
    }
    // "Every frame except one refused with 1 or 2 uses up the enable; 66 then grants it."
    let used = Flat { enable: false, ..s };
    if let Some(why) = refusal_of(s, sent) {
        no_reply(reply, marks);
        return refused(why, used);
    }
    let next = carried_out(used, array, security, sent, reply, marks, x);
    done(next)
}

// A completion: the running internal operation ends.
pub fn completion(s: Flat, array: &mut [u8], security: &mut [u8]) -> Step {
    if !admitted(s, array.len(), security.len()) {
        return refused(Refusal::Malformed, s);
    }
    // 12: "completion with nothing running"
    if running_work(s).is_none() {
        return refused(Refusal::Idle, s);
    }
    // No range has a byte 2,097,152: all of it is finished, and no m is used.
    finish_bytes(s, array, security, 2097152, 0);
    let next = completed(s);
    done(next)
}

// A power cut with a count k; W-205: it "carries m too".
pub fn power_cut(s: Flat, array: &mut [u8], security: &mut [u8], k: u64, m: u8) -> Step {
    if !admitted(s, array.len(), security.len()) {
        return refused(Refusal::Malformed, s);
    }
    let left = stopped(s, array, security, k, m);
    let next = powered_up(left);
    done(next)
}

// ---- W-203: chips sent by post ----

// The words in quotation marks are W-203's from here on, or W-204's where a comment says so. A place counts the bytes of a
// file from 0.

// "That is 2,148,374 bytes, written into a lent buffer of exactly that length."
const FILE_BYTES: usize = 2148374;

// "Each record has a two-byte ASCII mark, a fixed body and a 16-bit sum". "In order: RG, 14 bytes", so 18 with mark and sum;
// "SI, 2,048 bytes", so 2,052; "then 8,192 times PG, 258 bytes", so 262 each.
const RG_BYTES: usize = 18;

const SI_BYTES: usize = 2052;

const PG_BYTES: usize = 262;

const PAGES: u16 = 8192;

// What RG's body holds: "protection 6, permanent 6, flags 1, burst code 1".
#[derive(Clone, Copy, PartialEq, Eq)]
struct Head {
    protection: u64,
    permanent: u64,
    flags: u8,
    burst: u8,
}

#[derive(Clone, Copy, PartialEq, Eq)]
enum Record {
    Rg,
    Si,
    Pg,
}

// "a two-byte ASCII mark": "RG", "SI", "PG".
fn mark_of(record: Record) -> [u8; 2] {
    match record {
        Record::Rg => [b'R', b'G'],
        Record::Si => [b'S', b'I'],
        Record::Pg => [b'P', b'G'],
    }
}

// "a 16-bit sum of the body's bytes that wraps at 65,536": as it travels, "high byte first".
fn sum_of(body: &[u8]) -> [u8; 2] {
    body.iter()
        .fold(0u16, |total, &value| total.wrapping_add(u16::from(value)))
        .to_be_bytes()
}

// What stands between a record's mark and its sum.
fn body_of(bytes: &[u8]) -> &[u8]
    requires { 4 ≤ length bytes.now }
    ensures { length result.now + 4 ≡ length bytes.now }
{
    &bytes[2..bytes.len() - 2]
}

// "Flags from bit 0: SQI, WEL, IOC, WPEN, WPLD, SEC, reset enable", and W-204: "bit 7 of W-203's flags now holds" the part,
// "1 for BA".
fn flags_of(s: Flat) -> u8 {
    let low = u8::from(s.sqi) | u8::from(s.wel) << 1 | u8::from(s.ioc) << 2 | u8::from(s.wpen) << 3;
    let high = u8::from(s.wpld) << 4 | u8::from(s.sec) << 5 | u8::from(s.enable) << 6;
    low | high | u8::from(s.ba) << 7
}

fn head_of(s: Flat) -> Head {
    Head {
        protection: s.protection,
        permanent: s.permanent,
        flags: flags_of(s),
        burst: s.burst,
    }
}

// A byte of RG's body; a register's six bytes go as document 01 has them, "highest first".
fn head_byte(head: Head, index: usize) -> u8 {
    if index < 6 {
        return protection_byte(head.protection, index);
    }
    if index < 12 {
        return protection_byte(head.permanent, index - 6);
    }
    if index == 12 {
        return head.flags;
    }
    head.burst
}

// A byte of a PG's body: "page number from 0 up, high byte first, then the page". "A file shows locked bytes": the page goes as
// it is stored.
fn page_byte(array: &[u8], page: u16, index: usize) -> u8 {
    match index {
        0 | 1 => page.to_be_bytes()[index],
        _ => byte_at(array, usize::from(page) * 256 + (index - 2) % 256),
    }
}

// A record: its mark, its body byte by byte, and its sum.
fn write_record<F: Fn(usize) -> u8>(bytes: &mut [u8], record: Record, body_byte: F)
    requires record_sized { 4 ≤ length bytes.old }
    requires callable { F.IsAlwaysCallable body_byte }
{
    let (mark, rest) = bytes.split_at_mut(2);
    let body_bytes = rest.len() - 2;
    let (body, sum) = rest.split_at_mut(body_bytes);
    mark.copy_from_slice(&mark_of(record));
    for (index, byte) in body.iter_mut().enumerate() {
        *byte = body_byte(index);
    }
    sum.copy_from_slice(&sum_of(body));
}

fn write_records(head: Head, array: &[u8], security: &[u8], file: &mut [u8])
    requires { length file.old ≡ 2148374 }
{
    let (rg, rest) = file.split_at_mut(RG_BYTES);
    let (si, rest) = rest.split_at_mut(SI_BYTES);
    let (pgs, _) = rest.as_chunks_mut::<PG_BYTES>();
    write_record(rg, Record::Rg, |index| head_byte(head, index));
    write_record(si, Record::Si, |index| byte_at(security, index));
    for (page, pg) in (0..PAGES).zip(pgs) {
        write_record(pg, Record::Pg, |index| page_byte(array, page, index));
    }
}

// Not "a wrong mark, sum".
fn record_fits(bytes: &[u8], record: Record) -> bool
    requires { 4 ≤ length bytes.now }
{
    bytes.starts_with(&mark_of(record)) && bytes.ends_with(&sum_of(body_of(bytes)))
}

// Not "a wrong mark, sum, page number".
fn records_fit(file: &[u8]) -> bool
    requires { length file.now ≡ 2148374 }
{
    let (rg, rest) = file.split_at(RG_BYTES);
    let (si, rest) = rest.split_at(SI_BYTES);
    let (pgs, _) = rest.as_chunks::<PG_BYTES>();
    record_fits(rg, Record::Rg)
        && record_fits(si, Record::Si)
        && (0..PAGES).zip(pgs).all(|(page, pg)| record_fits(pg, Record::Pg)
            && body_of(pg).starts_with(&page.to_be_bytes()))
}

// RG's body stands at places 2 to 15.
fn head_in(file: &[u8]) -> Head {
    Head {
        protection: six_bytes(file, 2),
        permanent: six_bytes(file, 8),
        flags: byte_at(file, 14),
        burst: byte_at(file, 15),
    }
}

// "a whole idle chip": nothing runs and nothing is suspended, and so the buffer is all FF. Its IOC is the file's: reading is no
// power-up. W-204: "so old files stay old parts"
fn idle_chip(head: Head) -> Flat {
    let flags = u64::from(head.flags);
    Flat {
        protection: head.protection,
        permanent: head.permanent,
        sqi: has_bit(flags, 0),
        wel: has_bit(flags, 1),
        ioc: has_bit(flags, 2),
        wpen: has_bit(flags, 3),
        wpld: has_bit(flags, 4),
        sec: has_bit(flags, 5),
        enable: has_bit(flags, 6),
        burst: head.burst,
        ..new_chip(has_bit(flags, 7))
    }
}

// Not "a wrong mark, sum, page number, code, .. or register that breaks the well-formed rules". W-204: bit 7 "now holds" the
// part, so no flag bit is wrong.
fn file_fits(file: &[u8]) -> bool
    requires { length file.now ≡ 2148374 }
{
    // the code and the registers: all else of an idle chip is well-formed
    records_fit(file) && well_formed(idle_chip(head_in(file)))
}

// SI's body goes to the Security ID, and a PG's after its number to its page of the array.
fn store_records(file: &[u8], array: &mut [u8], security: &mut [u8])
    requires { length file.now ≡ 2148374 }
{
    let (_, rest) = file.split_at(RG_BYTES);
    let (si, rest) = rest.split_at(SI_BYTES);
    let (pgs, _) = rest.as_chunks::<PG_BYTES>();
    store(security, body_of(si));
    for (page, pg) in array.chunks_mut(256).zip(pgs) {
        store(page, &body_of(pg)[2..]);
    }
}

// A chip is written to a file. The number: 0 for done.
pub fn image_write(f: Flat, array: &[u8], security: &[u8], file: &mut [u8]) -> u8 {
    // "A refusal leaves chip and buffer unchanged."
    // "1 for wrong lengths or, writing, a broken record"
    if file.len() != FILE_BYTES {
        return Refusal::Malformed as u8;
    }
    if !admitted(f, array.len(), security.len()) {
        return Refusal::Malformed as u8;
    }
    // "14 for a busy or suspended chip"
    if running_work(f).is_some() || suspended_work(f).is_some() {
        return Refusal::ChipBusy as u8;
    }
    write_records(head_of(f), array, security, file);
    0
}

// A chip is read from a file, in the place of the one lent. The number, and the record read; after a refusal the record lent.
pub fn image_read(f: Flat, file: &[u8], array: &mut [u8], security: &mut [u8]) -> Step {
    // "1 for wrong lengths"
    if file.len() != FILE_BYTES {
        return refused(Refusal::Malformed, f);
    }
    if !memories_sized(array.len(), security.len()) {
        return refused(Refusal::Malformed, f);
    }
    // 15, before the first byte is stored
    if !file_fits(file) {
        return refused(Refusal::BadFile, f);
    }
    store_records(file, array, security);
    let next = idle_chip(head_in(file));
    done(next)
}
