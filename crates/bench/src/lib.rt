// The boundary to other languages: the chip's functions over lent bytes. specs/Boundary.antt says what each gives back and leaves; specs/Images.antt of files.
// The caller lends all memory; nothing is kept between calls. The page buffer is changed where it lies, in the record's first 256 bytes. The answers are numbers, as in C.
#![tactic(auto)]

ghost use Rattle.std.specs.Prelude.{◌≡◌, true, false, ◌&&◌, [], ◌≤◌, length, take, drop};
ghost use Rattle.rules.specs.Works.{tear_of};
ghost use Rattle.rules.specs.WellFormed.{well_formed};
ghost use Rattle.rules.specs.Promises.{zeroed, carried_of};
ghost use Rattle.rules.specs.Demands.{frame_call, completion_call, cut_call};
ghost use Rattle.chip.specs.Turns.{call_of, LentFor, stop_call};
ghost use Rattle.meanings.specs.Meanings.{MeaningBytes};
ghost use Rattle.image.specs.Form.{file_size_lem};
ghost use Rattle.record_code.specs.Layout.{record_size, code, decode};
ghost use Rattle.bench.specs.Boundary.{lent_bench_of, came_of, circumstances_of, circumstances_in, StopAsked, CallPromise, NewPromise};
ghost use Rattle.bench.specs.Images.{idle_of, image_read_of, WriteImagePromise, ReadImagePromise};

use chip::{Circumstances, Event, Tear};
use rules::Rest;

// ---- the chip

// The record of a new chip of a part.
fn new_of(ba: bool, bytes: &mut [u8]) -> u8
    ensures { NewPromise ba bytes.old result bytes.new }
{
    if bytes.len() != 320 {
        return 1;
    }
    let rest = power::new_rest(ba);
    put_idle(bytes, rest);
    0
}

// A new chip's record: a BA.
pub fn fulkibono_new(bytes: &mut [u8]) -> u8
    ensures { NewPromise true bytes.old result bytes.new }
{
    new_of(true, bytes)
}

// Of the old part.
pub fn fulkibono_new_old(bytes: &mut [u8]) -> u8
    ensures { NewPromise false bytes.old result bytes.new }
{
    new_of(false, bytes)
}

// What a frame carries beside its bytes and buffers, and a power cut, as C passes it.
#[repr(C)]
#[derive(Clone, Copy)]
pub struct Passed {
    pub k: u64,
    pub m: u8,
}

fn circumstances_of(k: u64, m: u8) -> Circumstances
    ensures { result ≡ circumstances_of k m }
{
    let tear = Tear { k, m };
    Circumstances { tear }
}

// An event that stops what runs: with power-up or without. It is rare, and reads and writes the record by functions of its own, so that nothing of it is in the way of
// the others; k and m come as two numbers, so that no other event copies what C passed.
fn stop(
    up: bool,
    bytes: &mut [u8],
    array: &mut [u8],
    security: &mut [u8],
    reply: &mut [u8],
    marks: &mut [u8],
    k: u64,
    m: u8,
) -> u8
    requires { StopAsked up bytes.old array.old security.old reply.old marks.old }
    ensures { CallPromise (lent_bench_of bytes.old array.old security.old) (stop_call up reply.old marks.old (circumstances_of k m)) (came_of result bytes.new array.new security.new reply.new marks.new) }
{
    let mut r = record_code::idle_in(bytes);
    r.works = record_code::works_in(bytes);
    let circumstances = circumstances_of(k, m);
    let t = chip::stop_turn(
        up,
        r,
        &mut bytes[..256],
        array,
        security,
        reply,
        marks,
        circumstances,
    );
    let rest = t.rest;
    record_code::put_idle(bytes, rest);
    0
}

// Any of the three events. One function, from which each part is called once: nothing of the record crosses a call.
fn event(
    e: Event,
    bytes: &mut [u8],
    array: &mut [u8],
    security: &mut [u8],
    sent: &[u8],
    reply: &mut [u8],
    marks: &mut [u8],
    x: Passed,
) -> u8
    requires { LentFor e reply.old × LentFor e marks.old }
    ensures { CallPromise (lent_bench_of bytes.old array.old security.old) (call_of e sent.now reply.old marks.old (circumstances_in x)) (came_of result bytes.new array.new security.new reply.new marks.new) }
{
    if !record_code::is_code(bytes) {
        return 1;
    }
    let r = record_code::rest_in(bytes);
    let known = chip::state_right(r, &bytes[..256], array.len(), security.len());
    if chip::cuts(e, known) {
        return stop(true, bytes, array, security, reply, marks, x.k, x.m);
    }
    if chip::resets(e, known, r, sent, reply.len(), marks.len()) {
        return stop(false, bytes, array, security, reply, marks, x.k, x.m);
    }
    let t = chip::take_turn(
        e,
        known,
        r,
        &mut bytes[..256],
        array,
        security,
        sent,
        reply,
        marks,
    );
    let rest = t.rest;
    record_code::put_rest(bytes, rest);
    let answer = t.answer;
    chip::answer_number(answer)
}

// A frame: the bytes sent while CE# is low, the two reply buffers, and where a reset tears what runs.
pub fn fulkibono_frame(
    bytes: &mut [u8],
    array: &mut [u8],
    security: &mut [u8],
    sent: &[u8],
    reply: &mut [u8],
    marks: &mut [u8],
    x: Passed,
) -> u8
    ensures { CallPromise (lent_bench_of bytes.old array.old security.old) (frame_call (carried_of sent.now reply.old marks.old (circumstances_in x))) (came_of result bytes.new array.new security.new reply.new marks.new) }
{
    event(Event::Frame, bytes, array, security, sent, reply, marks, x)
}

// The running operation ends.
pub fn fulkibono_completion(bytes: &mut [u8], array: &mut [u8], security: &mut [u8]) -> u8
    ensures { CallPromise (lent_bench_of bytes.old array.old security.old) completion_call (came_of result bytes.new array.new security.new [] []) }
{
    event(
        Event::Completion,
        bytes,
        array,
        security,
        b"",
        &mut [],
        &mut [],
        Passed { k: 0, m: 0 },
    )
}

// A power cut in the middle of the running operation.
pub fn fulkibono_power_cut(
    bytes: &mut [u8],
    array: &mut [u8],
    security: &mut [u8],
    k: u64,
    m: u8,
) -> u8
    ensures { CallPromise (lent_bench_of bytes.old array.old security.old) (cut_call (tear_of k m)) (came_of result bytes.new array.new security.new [] []) }
{
    event(
        Event::Cut,
        bytes,
        array,
        security,
        b"",
        &mut [],
        &mut [],
        Passed { k, m },
    )
}

// ---- a chip as a file

// An empty frame, with the buffer in the array's place: 1 or 2, and nothing changes but what is lent for it.
fn empty_frame(coded: &mut [u8], file: &mut [u8], id: &mut [u8]) -> u8
    requires { 2097152 ≤ length file.old }
    ensures number { CallPromise (lent_bench_of coded.old (take 2097152 file.old) id.old) (frame_call (carried_of [] [] [] zeroed)) (came_of result coded.new (take 2097152 file.new) id.new [] []) }
    ensures behind { drop 2097152 file.new ≡ drop 2097152 file.old }
{
    let n = file.len().min(2097152);
    event(
        Event::Frame,
        coded,
        &mut file[..n],
        id,
        b"",
        &mut [],
        &mut [],
        Passed { k: 0, m: 0 },
    )
}

// The bytes are the code of a well-formed record. A copy goes through `event`, so that all that judges a record stays a part of it: with a second caller it would be
// called at every event.
fn is_record_by(bytes: &[u8], coded: &mut [u8; 320], id: &mut [u8; 2048], file: &mut [u8]) -> bool
    requires { length file.old ≡ file_size_lem }
    ensures value { result ≡ ((decode bytes.now).known && well_formed (decode bytes.now).chip) }
    ensures kept { file.new ≡ file.old }
{
    if bytes.len() != 320 {
        return false;
    }
    memory::copy(coded, 0, 320, bytes, 0);
    empty_frame(coded, file, id) == 2
}

fn is_record(bytes: &[u8], file: &mut [u8]) -> bool
    requires { length file.old ≡ file_size_lem }
    ensures value { result ≡ ((decode bytes.now).known && well_formed (decode bytes.now).chip) }
    ensures kept { file.new ≡ file.old }
{
    let mut coded = [0u8; 320];
    let mut id = [0u8; 2048];
    is_record_by(bytes, &mut coded, &mut id, file)
}

// A whole idle chip as a file, into a lent buffer.
pub fn fulkibono_image_write(bytes: &[u8], array: &[u8], security: &[u8], file: &mut [u8]) -> u8
    ensures { WriteImagePromise bytes.now array.now security.now file.old result file.new }
{
    if !image_records::sizes_right(array.len(), security.len(), file.len()) {
        return 1;
    }
    if !is_record(bytes, file) {
        return 1;
    }
    if !record_code::is_idle(bytes) {
        return 14;
    }
    let r = record_code::idle_in(bytes);
    image_writing::put_file(file, r, array, security);
    0
}

// The code of an idle record with a blank page: of a new chip, and of one from a file. Its own function of record_code, so that put_rest is called from the events alone and stays a part of them.
fn put_idle(bytes: &mut [u8], r: Rest)
    requires { length bytes.old ≡ record_size }
    ensures { bytes.new ≡ code (idle_of r) }
{
    memory::blank_page(&mut bytes[..256]);
    record_code::put_idle(bytes, r);
}

// The chip in a file, in place of another. What is replaced is not judged: any bytes, as many as a record has.
pub fn fulkibono_image_read(
    file: &[u8],
    bytes: &mut [u8],
    array: &mut [u8],
    security: &mut [u8],
) -> u8
    ensures { ReadImagePromise file.now bytes.old array.old security.old (image_read_of result bytes.new array.new security.new) }
{
    if bytes.len() != 320 {
        return 1;
    }
    let came = image_reading::read(chip::new(), file, array, security);
    let n = image::number(came.answer);
    if n != 0 {
        return n;
    }
    let c = came.chip;
    let rest = c.rest;
    put_idle(bytes, rest);
    0
}

// ---- what a number means

// The text of a number; a number above 18 has none.
pub fn fulkibono_meaning(number: u8, text: &mut [u8]) -> usize
    ensures { MeaningBytes number text.old result text.new }
{
    meanings::meaning(number, text)
}
