// A script, read byte by byte. The language and what each function gives are in specs/.
#![tactic(auto)]

mod lines;

ghost use Rattle.std.specs.Prelude.{◌≡◌};
ghost use Rattle.script.specs.Lines.{fresh, stored, StepPromise, FinishPromise};

use grammar::Verb;
pub use lines::line_of;
use spelling::Word;

// ---- what a line says

#[derive(Clone, Copy)]
pub struct Line {
    pub verb: Verb,
    // what the words wrote, by the numbers of grammar/specs/Slots: the table writes a slot by its number, so none has a field of its own
    pub slots: [u64; 24],
    // bytes of the frame, at most 65,537
    pub sent: usize,
    // expected bytes, at most 65,537
    pub expected: usize,
    // bytes of the remark, at most 65,537
    pub remark: usize,
    // where the line ends, or where its first mistake stands
    pub place: u8,
    // a wrong word's first bytes, 0 after them
    pub word: [u8; 24],
    // its length, at most 25; 0: the line ends too early
    pub length: usize,
    // where it begins, counted from 1
    pub column: usize,
}

// ---- a line half read

#[derive(Clone, Copy, PartialEq, Eq)]
pub enum Mode {
    // words may come
    Open,
    // the rest of the line is a remark
    Remark,
    // a mistake was met, the word is the wrong one
    Wrong,
}

#[derive(Clone, Copy)]
pub struct Reading {
    pub mode: Mode,
    pub place: u8,
    // bytes of the line so far
    pub read: usize,
    // the word's first bytes, 0 after them
    pub shown: [u8; 24],
    pub word: Word,
    // counts of stored bytes
    pub sent: usize,
    pub expected: usize,
    // the last stored byte, and its kind where it is an expected one: a byte too, since of a list's entry it is the low one
    pub last: u8,
    pub kind: u8,
    // bytes of the remark so far
    pub remark: usize,
    pub slots: [u64; 24],
    // the last byte ended the line
    pub ended: bool,
    // and was a CR: an LF right after it ends no line
    pub cr: bool,
    // how many bytes of a byte order mark came at the input's very start; 3 after that. A count and no kind: the next byte of the mark is found by it
    pub mark: u8,
}

// ---- the calls

// Nothing of the input is read.
pub fn start() -> Reading
    ensures { result ≡ fresh 0 }
{
    lines::fresh(0)
}

fn store(a: &mut [u8; 65537], from: usize, to: usize, v: u8)
    ensures { a.new ≡ stored a.old from to v }
{
    let end = to.min(a.len());
    if from < end {
        a[from..end].fill(v);
    }
}

// One byte of the input.
pub fn step(
    r: Reading,
    b: u8,
    frame: &mut [u8; 65537],
    expected: &mut [u8; 65537],
    known: &mut [u8; 65537],
    remark: &mut [u8; 65537],
) -> Reading
    ensures { StepPromise r b frame.old expected.old known.old remark.old result frame.new expected.new known.new remark.new }
{
    let q = lines::advanced(r, b);
    store(frame, r.sent, q.sent, q.last);
    store(expected, r.expected, q.expected, q.last);
    store(known, r.expected, q.expected, q.kind);
    store(remark, r.remark, q.remark, b);
    q
}

// The input has ended.
pub fn finish(
    r: Reading,
    frame: &mut [u8; 65537],
    expected: &mut [u8; 65537],
    known: &mut [u8; 65537],
) -> Reading
    ensures { FinishPromise r frame.old expected.old known.old result frame.new expected.new known.new }
{
    let q = lines::advanced(r, 10);
    store(frame, r.sent, q.sent, q.last);
    store(expected, r.expected, q.expected, q.last);
    store(known, r.expected, q.expected, q.kind);
    q
}
