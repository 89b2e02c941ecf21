// Bytes as text behind a row. specs/Bytes.antt.
#![tactic(auto)]

ghost use Rattle.std.specs.Prelude.{◌≡◌, min, length, take, drop};
ghost use Rattle.writing.specs.Rows.{put, hex};
ghost use Rattle.byte_text.specs.Bytes.{within, bytes, known, marked, printed, letters};

use writing::Row;

// A byte as two digits.
pub fn byte(r: Row, b: u8) -> Row
    ensures { result ≡ put r (hex 2 b) }
{
    r.hexadecimal(2, u64::from(b))
}

pub fn count_within(n: usize, from: usize, most: usize) -> usize
    ensures { result ≡ within n from most }
{
    n.saturating_sub(from).min(most)
}

// At most `most` bytes from a place on: none past the end.
fn piece(l: &[u8], from: usize, most: usize) -> &[u8]
    ensures { result.now ≡ take most (drop from l.now) }
{
    let rest = &l[from.min(l.len())..];
    &rest[..most.min(rest.len())]
}

// At most `most` bytes from a place on; a place past the end shows nothing.
pub fn plain_bytes(r: Row, l: &[u8], from: usize, most: usize) -> Row
    ensures { result ≡ put r (bytes l.now from (within (length l.now) from most)) }
{
    piece(l, from, most)
        .iter()
        .copied()
        .fold(r, |q, b| byte(q.add(b' '), b))
}

#[tactic(auto, unfolding(crate::specs::Bytes::known))]
pub fn known_byte(r: Row, b: u8, mark: u8) -> Row
    ensures { result ≡ put r (known b mark) }
{
    if mark == 0 {
        return r.text(b"??");
    }
    byte(r, b)
}

// A for: of a fold over the two the check left a goal.
pub fn marked_bytes(r: Row, l: &[u8], marks: &[u8], from: usize, most: usize) -> Row
    ensures { result ≡ put r (marked l.now marks.now from (within (min (length l.now) (length marks.now)) from most)) }
{
    let mut q = r;
    for (b, mark) in piece(l, from, most).iter().zip(piece(marks, from, most)) {
        q = known_byte(q.add(b' '), *b, *mark);
    }
    q
}

#[tactic(auto, unfolding(crate::specs::Bytes::printed))]
fn letter(b: u8) -> u8
    ensures { result ≡ printed b }
{
    match b {
        0x20..0x7f => b,
        _ => b'.',
    }
}

pub fn printed_bytes(r: Row, l: &[u8], from: usize, most: usize) -> Row
    ensures { result ≡ put r (letters l.now from (within (length l.now) from most)) }
{
    piece(l, from, most)
        .iter()
        .copied()
        .fold(r, |q, b| q.add(letter(b)))
}
