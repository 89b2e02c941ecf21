// The rows of a script. specs/Events.antt.
ghost use Rattle.std.specs.Prelude.{◌≡◌, ◌≤◌};
ghost use Rattle.page.specs.Page.{form};
ghost use Rattle.writing.specs.Rows.{blank, put};
ghost use Rattle.byte_text.specs.Bytes.{part};
ghost use Rattle.rows.specs.Events.{numbered, below, part_on, count_on, bytes_on, sent_row, fits, ended_on, cut_on, reply_row, expected_row, remark_row, dump_row, quoted, word_on};

use byte_text::{count_within, marked_bytes, plain_bytes, printed_bytes};
use describing::{work, work_cut};
use page::form;
use rules::Work;
use writing::{Row, empty};

// A form on a row of its own.
pub fn plain(n: usize, a: u64, b: u64, c: u64) -> Row
    ensures { result ≡ form n a b c blank }
{
    form(empty(), n, a, b, c)
}

// Behind the script's line.
pub fn numbered(line: u64, n: usize, a: u64, b: u64, c: u64) -> Row
    ensures { result ≡ numbered line n a b c }
{
    let r = plain(0, line, 0, 0);
    form(r, n, a, b, c)
}

// The same up to the answer, which stands in its column.
pub fn headed(line: u64, n: usize, a: u64) -> Row
    ensures { result ≡ form 7 0 0 0 (numbered line n a 0 0) }
{
    form(numbered(line, n, a, 0, 0), 7, 0, 0, 0)
}

// Below such a row.
pub fn below(n: usize, a: u64, b: u64, c: u64) -> Row
    ensures { result ≡ below n a b c }
{
    let r = plain(1, 0, 0, 0);
    form(r, n, a, b, c)
}

// The part of a chip.
#[tactic(auto, unfolding(crate::specs::Events::part_on))]
pub fn part(r: Row, ba: bool) -> Row
    ensures { result ≡ part_on ba r }
{
    form(r, if ba { 98 } else { 97 }, 0, 0, 0)
}

// ---- a frame

// How many bytes: form k, or the one behind it where they are more than a frame and a reply can have.
#[tactic(auto, unfolding(crate::specs::Events::count_on))]
fn count(r: Row, k: usize, n: usize) -> Row
    requires { k ≤ 10 }
    ensures { result ≡ count_on k n r }
{
    if 65536 < n {
        return form(r, k + 1, 0, 0, 0);
    }
    form(r, k, n as u64, 0, 0)
}

#[tactic(auto, unfolding(crate::specs::Events::bytes_on))]
fn frame_bytes(r: Row, sent: &[u8]) -> Row
    ensures { result ≡ bytes_on sent.now r }
{
    let n = sent.len();
    if n <= 8 {
        return plain_bytes(r, sent, 0, 8);
    }
    let r = plain_bytes(r, sent, 0, 4);
    count(r, 8, n)
}

// The frame that a line sends, and the reply bytes that it wants.
#[tactic(auto, unfolding(crate::specs::Events::sent_row))]
pub fn sent(line: u64, sent: &[u8], wanted: usize) -> Row
    ensures { result ≡ sent_row line sent.now wanted }
{
    let r = plain(206, line, 0, 0);
    let r = frame_bytes(r, sent);
    if wanted == 0 && !sent.is_empty() {
        return r;
    }
    count(r, 10, wanted)
}

// The answer has room beside it.
#[tactic(auto, unfolding(crate::specs::Events::fits))]
pub fn fits(r: Row) -> bool
    ensures { result ≡ fits r }
{
    r.length <= 29
}

// ---- work that ends

// A completion.
#[tactic(auto, unfolding(crate::specs::Events::ended_on))]
pub fn ended(r: Row, w: Work, number: u8) -> Row
    ensures { result ≡ ended_on w number r }
{
    if number != 0 {
        return form(r, 21, u64::from(number), 0, 0);
    }
    let r = work(r, w);
    form(r, 16, 0, 0, 0)
}

// A power cut after k bytes.
#[tactic(auto, unfolding(crate::specs::Events::cut_on))]
pub fn cut(r: Row, w: Work, k: u64, number: u8) -> Row
    ensures { result ≡ cut_on w k number r }
{
    if number != 0 {
        form(r, 21, u64::from(number), 0, 0)
    } else if blocks::is_nothing(w) {
        form(r, 20, 0, 0, 0)
    } else {
        work_cut(r, w, k)
    }
}

// ---- bytes

// At most so many from a place on, with their marks.
fn marked_below(n: usize, most: usize, place: usize, bytes: &[u8], marks: &[u8]) -> Row
    ensures { result ≡ put (below n place 0 0) (part bytes.now marks.now place most) }
{
    marked_bytes(below(n, place as u64, 0, 0), bytes, marks, place, most)
}

pub fn reply(place: usize, reply: &[u8], marks: &[u8]) -> Row
    ensures { result ≡ reply_row place reply.now marks.now }
{
    marked_below(195, 16, place, reply, marks)
}

pub fn expected(place: usize, expected: &[u8], known: &[u8]) -> Row
    ensures { result ≡ expected_row place expected.now known.now }
{
    marked_below(182, 8, place, expected, known)
}

pub fn remark(text: &[u8], from: usize) -> Row
    ensures { result ≡ remark_row text.now from }
{
    let r = plain(23, 0, 0, 0);
    printed_bytes(r, text, from, 79)
}

#[tactic(auto, using(crate::proofs::Dumps::dumped), unfolding(crate::specs::Events::dump_row, crate::proofs::Dumps::dumped))]
pub fn dump(place: usize, memory: &[u8], n: usize) -> Row
    ensures { result ≡ dump_row place memory.now n }
{
    let m = n.min(16);
    let shown = count_within(memory.len(), place, m);
    let r = plain(197, place as u64, 0, 0);
    let r = plain_bytes(r, memory, place, m);
    let r = r.pad(3 * (16 - shown));
    let r = form(r, 198, 0, 0, 0);
    let r = printed_bytes(r, memory, place, m);
    form(r, 199, 0, 0, 0)
}

// ---- a wrong line

fn quoted(r: Row, word: &[u8], n: usize) -> Row
    ensures { result ≡ quoted word.now n r }
{
    let r = form(r, 174, 0, 0, 0);
    printed_bytes(r, word, 0, n)
}

#[tactic(auto, unfolding(crate::specs::Events::word_on))]
fn word(r: Row, w: &[u8], n: usize, column: usize) -> Row
    ensures { result ≡ word_on w.now n column r }
{
    if n == 0 {
        return form(r, 173, 0, 0, 0);
    }
    let mut r = quoted(r, w, n);
    if 24 < n {
        r = form(r, 175, 0, 0, 0);
    }
    form(r, 176, column as u64, 0, 0)
}

// The word that is wrong (its first bytes, and its length, 25 for a longer one), and its column. No word: the line's end.
pub fn wrong(line: u64, w: &[u8; 24], n: usize, column: usize) -> Row
    ensures { result ≡ word_on w.now n column (numbered line 172 0 0 0) }
{
    word(numbered(line, 172, 0, 0, 0), w, n, column)
}
