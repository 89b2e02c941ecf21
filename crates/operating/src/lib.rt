// One SPI operation on the bench chip: the completion that is due, the frame, and what the tool is shown of the reply.
#![tactic(auto)]

ghost use Rattle.std.specs.Prelude.{◌≡◌};
ghost use Rattle.rules.specs.Frames.{opcode};
ghost use Rattle.rules.specs.Registers.{busy};
ghost use Rattle.rules.specs.Promises.{bench_of};
ghost use Rattle.operating.specs.Operations.{due_before, reads_after, untorn, SettledPromise, OperationPromise, AnswerPromise};

use rules::{Chip, Circumstances, Tear};
use serprog::show;

// The chip, how many status reads it has answered since it is busy (0 or 1), and whether the tool is shown the sibling's identity. The reads are a number:
// `due_before`, `reads_after` and the theorems of proofs/Time count with it.
#[derive(Clone, Copy)]
pub struct Bench {
    pub chip: Chip,
    pub reads: u8,
    pub disguise: bool,
}

// Before the first operation on a chip.
pub fn bench_of(c: Chip, disguise: bool) -> Bench
    ensures { result ≡ record { chip = c; reads = 0; disguise = disguise } }
{
    Bench {
        chip: c,
        reads: 0,
        disguise,
    }
}

// The first byte, 0 where none was sent.
fn opcode_of(sent: &[u8]) -> u8
    ensures { result ≡ opcode sent.now }
{
    if 0 < sent.len() { sent[0] } else { 0 }
}

fn is_busy(c: Chip) -> bool
    ensures { result ≡ busy c.rest }
{
    let rest = c.rest;
    let works = rest.works;
    let run = works.running;
    !blocks::is_nothing(run)
}

// Whether the completion comes before this frame.
pub fn due(busy: bool, reads: u8, op: u8) -> bool
    ensures { result ≡ due_before busy reads op }
{
    busy & (op == 0x05) & (reads == 1)
}

// The status reads after a frame that left the chip busy or not.
pub fn reads_after(busy: bool, reads: u8, op: u8) -> u8
    ensures { result ≡ reads_after busy reads op }
{
    if busy {
        if op == 0x05 { 1 } else { reads }
    } else {
        0
    }
}

// A reset tears nothing: k 0, and the m of document 01.
fn untorn(b: Bench) -> Circumstances
    ensures { result ≡ untorn b }
{
    let c = b.chip;
    let rest = c.rest;
    let works = rest.works;
    let run = works.running;
    let tear = Tear {
        k: 0,
        m: blocks::clean_m(run),
    };
    Circumstances { tear }
}

// The chip and the memories at the frame's beginning.
fn settled(c: Chip, ends: bool, array: &mut [u8], security: &mut [u8]) -> Chip
    ensures { SettledPromise ends (bench_of c array.old security.old) (bench_of result array.new security.new) }
{
    if ends {
        let after = chip::completion(c, array, security);
        let next = after.chip;
        next
    } else {
        c
    }
}

// After the last operation: what runs ends, as with power kept on.
pub fn at_end(b: Bench, array: &mut [u8], security: &mut [u8]) -> Chip
    ensures { SettledPromise (busy b.chip.rest) (bench_of b.chip array.old security.old) (bench_of result array.new security.new) }
{
    let c = b.chip;
    let ends = is_busy(c);
    settled(c, ends, array, security)
}

// One operation: the bytes sent, and the reply with its marks.
pub fn operate(
    b: Bench,
    array: &mut [u8],
    security: &mut [u8],
    sent: &[u8],
    reply: &mut [u8],
    marks: &mut [u8],
) -> Bench
    ensures { OperationPromise b array.old security.old sent.now reply.old marks.old result array.new security.new reply.new marks.new }
{
    let op = opcode_of(sent);
    let old = b.chip;
    let ends = due(is_busy(old), b.reads, op);
    let c = settled(old, ends, array, security);
    let x = untorn(b);
    let after = chip::frame(c, array, security, sent, reply, marks, x);
    show(b.disguise, after.answer.is_ok(), op, reply);
    let next = after.chip;
    Bench {
        chip: next,
        reads: reads_after(is_busy(next), b.reads, op),
        ..b
    }
}

// The same with its answer: 06 and the reply. An answer with no room for the 06 is left, and the chip sees no frame.
pub fn answer_operation(
    b: Bench,
    array: &mut [u8],
    security: &mut [u8],
    sent: &[u8],
    answer: &mut [u8],
    marks: &mut [u8],
) -> Bench
    ensures { AnswerPromise b array.old security.old sent.now answer.old marks.old result array.new security.new answer.new marks.new }
{
    if 0 < answer.len() {
        answer[0] = 0x06;
        return operate(b, array, security, sent, &mut answer[1..], marks);
    }
    b
}
