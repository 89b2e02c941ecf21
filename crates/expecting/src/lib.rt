// What a script expects of a line, compared with what came. specs/Expectations.antt.
#![tactic(auto)]

ghost use Rattle.std.specs.Prelude.{◌≡◌, not, ◌&&◌, eqb, length, get_or, drop};
ghost use Rattle.rules.specs.Words.{every};
ghost use Rattle.expecting.specs.Expectations.{First, Judged};

// What is not met.
#[derive(Clone, Copy, Default, PartialEq, Eq)]
pub struct Verdict {
    // another number came
    pub number: bool,
    // a refusal came, none was expected, and that counts
    pub strict: bool,
    // the reply has another length
    pub length: bool,
    // the reply or the marks changed
    pub kept: bool,
    // the first place that differs, or as many as were compared: no Option, since `First` gives a place and the rows count up to it
    pub place: usize,
    pub compared: usize,
}

// What a line expects of what comes.
#[derive(Clone, Copy)]
pub struct Expectation {
    // after `!`
    pub number: Option<u64>,
    pub reply: Expected,
}

// What stands after `=`.
#[derive(Clone, Copy)]
pub enum Expected {
    Nothing,
    // so many
    Bytes(usize),
    Kept,
}

// Bytes with a mark for each. Of a reply it says whether the byte is known, of expected bytes whether one is expected, and known or unknown.
#[derive(Clone, Copy)]
pub struct Marked<'a> {
    pub bytes: &'a [u8],
    pub marks: &'a [u8],
}

// The byte at a place, 0 past the end.
fn at(s: &[u8], i: usize) -> u8
    ensures { result ≡ get_or s.now i 0 }
{
    s.get(i).copied().unwrap_or(0)
}

#[tactic(auto, unfolding(crate::specs::Expectations::differs))]
fn differs(reply: &Marked, expected: &Marked, i: usize) -> bool
    ensures { result ≡ Rattle.expecting.specs.Expectations.differs reply.now.bytes.now reply.now.marks.now expected.now.bytes.now expected.now.marks.now i }
{
    let other = at(reply.bytes, i) != at(expected.bytes, i);
    let unknown = at(reply.marks, i) == 0;
    match at(expected.marks, i) {
        0 => false,
        2 => other || !unknown,
        _ => other || unknown,
    }
}

// The first of n places at which the reply is not as expected; n where there is none.
pub fn first_difference(reply: &Marked, expected: &Marked, n: usize) -> usize
    ensures { First (Rattle.expecting.specs.Expectations.differs reply.now.bytes.now reply.now.marks.now expected.now.bytes.now expected.now.marks.now) n result }
{
    (0..n).find(|&i| differs(reply, expected, i)).unwrap_or(n)
}

fn other_number(number: Option<u64>, given: u8) -> bool
    ensures { result ≡ Rattle.expecting.specs.Expectations.other_number number given }
{
    match number {
        Some(n) => n != given as u64,
        None => false,
    }
}

fn other_length(reply: Expected, replied: usize) -> bool
    ensures { result ≡ Rattle.expecting.specs.Expectations.other_length reply replied }
{
    match reply {
        Expected::Bytes(count) => replied != count,
        _ => false,
    }
}

fn is_kept(reply: Expected) -> bool
    ensures { result ≡ Rattle.expecting.specs.Expectations.is_kept reply }
{
    matches!(reply, Expected::Kept)
}

fn compared(reply: Expected, replied: usize) -> usize
    ensures { result ≡ Rattle.expecting.specs.Expectations.compared reply replied }
{
    match reply {
        Expected::Bytes(count) => replied.min(count),
        _ => 0,
    }
}

// Every byte is v.
fn all_are(s: &[u8], v: u8) -> bool
    ensures { result ≡ every (λ x. eqb x v) s.now }
{
    s.iter().all(|&x| x == v)
}

// `given` came, with this reply. If strict, no refusal is expected where no number is.
pub fn judge(e: Expectation, strict: bool, given: u8, reply: &Marked, expected: &Marked) -> Verdict
    ensures { Judged e strict given reply.now.bytes.now reply.now.marks.now expected.now.bytes.now expected.now.marks.now result }
{
    let replied = reply.bytes.len();
    let n = compared(e.reply, replied);
    let untouched = all_are(reply.bytes, 0x5a) & all_are(reply.marks, 7);
    Verdict {
        number: other_number(e.number, given),
        strict: strict & e.number.is_none() & (given != 0),
        length: other_length(e.reply, replied),
        kept: is_kept(e.reply) & !untouched,
        place: first_difference(reply, expected, n),
        compared: n,
    }
}

// ---- a memory

// The bytes from a place on, none past the end.
fn behind(memory: &[u8], from: usize) -> &[u8]
    ensures { result.now ≡ drop from memory.now }
{
    memory.get(from..).unwrap_or(&[])
}

#[tactic(auto, unfolding(crate::specs::Expectations::unheld_at))]
fn unheld(rest: &[u8], expected: &[u8], known: &[u8], j: usize, i: usize) -> bool
    ensures { result ≡ Rattle.expecting.specs.Expectations.unheld_at rest.now j expected.now known.now i }
{
    at(known, i) != 0 && at(rest, j) != at(expected, i)
}

// The first of n places from `from` on at which the memory is not as `count` expected bytes, over and over, say; n where there is
// none, or no byte is expected.
#[tactic(auto, unfolding(crate::specs::Expectations::unheld))]
pub fn first_unheld(
    memory: &[u8],
    from: usize,
    n: usize,
    expected: &[u8],
    known: &[u8],
    count: usize,
) -> usize
    ensures { First (Rattle.expecting.specs.Expectations.unheld memory.now from expected.now known.now count) n result }
{
    if count == 0 {
        return n;
    }
    let rest = behind(memory, from);
    (0..n)
        .find(|&i| unheld(rest, expected, known, i, i % count))
        .unwrap_or(n)
}

// ---- how many

// How many of a line's two expectations are not met.
#[tactic(auto, unfolding(crate::specs::Expectations::unmet))]
pub fn unmet(v: Verdict) -> u64
    ensures { result ≡ Rattle.expecting.specs.Expectations.unmet v }
{
    let number = v.number | v.strict;
    let bytes = v.length | v.kept | (v.place < v.compared);
    u64::from(number) + u64::from(bytes)
}
