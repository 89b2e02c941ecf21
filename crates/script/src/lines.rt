// A line half read, by the byte and by the word. specs/Lines.antt.
ghost use Rattle.std.specs.Prelude.{◌≡◌};
ghost use Rattle.script.specs.Lines.{count_after, sent_after, expected_after, byte_after, kind_after, fresh, shown_with, word_ends, mark_after, taken_open, taken, went, closed, advanced, line_of};

use crate::{Line, Mode, Reading};
use grammar::{Entry, Store, Verb, table};
use spelling::Word;

// ---- counts, and the byte that is stored

// One more, or as many as make n in all, or no more: at most 65,537.
#[tactic(auto, unfolding(crate::specs::Lines::count_after))]
fn count_after(at: usize, one: bool, again: bool, n: u64) -> usize
    ensures { result ≡ count_after at one again n }
{
    if one {
        at.saturating_add(1).min(65537)
    } else if again {
        at.saturating_add(n.saturating_sub(1) as usize).min(65537)
    } else {
        at
    }
}

// The frame's bytes after a word; what was no name is forgotten.
#[tactic(auto, unfolding(crate::specs::Lines::sent_after, crate::specs::Lines::count_after))]
fn sent_after(at: usize, store: Store, n: u64) -> usize
    ensures { result ≡ sent_after at store n }
{
    match store {
        Store::Sends => count_after(at, true, false, n),
        Store::SendsAgain => count_after(at, false, true, n),
        Store::Forgets => 0,
        _ => at,
    }
}

#[tactic(auto, unfolding(crate::specs::Lines::count_after))]
fn expected_after(at: usize, store: Store, n: u64) -> usize
    ensures { result ≡ expected_after at store n }
{
    match store {
        Store::Expects | Store::ExpectsAny | Store::ExpectsUnknown | Store::Enters => {
            count_after(at, true, false, n)
        }
        Store::ExpectsAgain => count_after(at, false, true, n),
        _ => at,
    }
}

#[tactic(auto, unfolding(crate::specs::Lines::byte_after))]
fn byte_after(store: Store, own: u8, n: u64, last: u8) -> u8
    ensures { result ≡ byte_after store own n last }
{
    match store {
        Store::Sends | Store::Expects | Store::ExpectsUnknown => own,
        Store::ExpectsAny => 0,
        Store::Enters => (n / 256 % 256) as u8,
        _ => last,
    }
}

#[tactic(auto, unfolding(crate::specs::Lines::kind_after))]
fn kind_after(store: Store, n: u64, last: u8) -> u8
    ensures { result ≡ kind_after store n last }
{
    match store {
        Store::Expects => 1,
        Store::ExpectsAny => 0,
        Store::ExpectsUnknown => 2,
        Store::Enters => (n % 256) as u8,
        _ => last,
    }
}

// ---- one byte

pub fn fresh(mark: u8) -> Reading
    ensures { result ≡ fresh mark }
{
    Reading {
        mode: Mode::Open,
        place: 0,
        read: 0,
        shown: [0; 24],
        word: spelling::none(0),
        sent: 0,
        expected: 0,
        last: 0,
        kind: 0,
        remark: 0,
        slots: [0; 24],
        ended: false,
        cr: false,
        mark,
    }
}

// The byte is shown if it is among the first 24.
fn shown_with(shown: [u8; 24], length: usize, b: u8) -> [u8; 24]
    ensures { result ≡ shown_with shown length b }
{
    let mut more = shown;
    if length < 24 {
        more[length] = b;
    }
    more
}

// # or a blank where no word is, or a byte of a word.
#[tactic(auto, unfolding(crate::specs::Lines::taken_open, crate::specs::Lines::last_after))]
fn taken_open(r: Reading, b: u8, mark: u8) -> Reading
    ensures { result ≡ taken_open r b mark }
{
    let read = spelling::one_more(r.read);
    let named = table::takes_name(r.place);
    let q = Reading { read, mark, ..r };
    if (b == b'#') & !(named & (r.word.length != 0)) {
        return Reading {
            mode: Mode::Remark,
            word: spelling::none(read),
            ..q
        };
    }
    if spelling::is_blank(b) {
        return q;
    }
    Reading {
        shown: shown_with(r.shown, r.word.length, b),
        word: spelling::longer(r.word, b, read),
        sent: count_after(r.sent, named, false, 0),
        last: if named { b } else { r.last },
        ..q
    }
}

// By the mode: a byte of words, of a remark, or after a mistake.
#[tactic(auto, unfolding(crate::specs::Lines::taken))]
fn taken(r: Reading, b: u8, mark: u8) -> Reading
    ensures { result ≡ taken r b mark }
{
    match r.mode {
        Mode::Open => taken_open(r, b, mark),
        Mode::Remark => Reading {
            read: spelling::one_more(r.read),
            remark: count_after(r.remark, true, false, 0),
            mark,
            ..r
        },
        Mode::Wrong => Reading {
            read: spelling::one_more(r.read),
            mark,
            ..r
        },
    }
}

#[tactic(auto, unfolding(crate::specs::Lines::mark_after))]
fn mark_after(mark: u8, b: u8) -> u8
    ensures { result ≡ mark_after mark b }
{
    match (mark, b) {
        (0, 0xef) => 1,
        (1, 0xbb) => 2,
        _ => 3,
    }
}

// ---- one word

// By its row the word says what it says; where it has none it is a mistake.
#[tactic(auto, unfolding(crate::specs::Lines::went))]
fn went(r: Reading, e: Option<Entry>) -> Reading
    ensures { result ≡ went r e }
{
    let word = r.word;
    match e {
        None => Reading {
            mode: Mode::Wrong,
            ..r
        },
        Some(e) => Reading {
            place: e.next,
            shown: [0; 24],
            word: spelling::none(0),
            sent: sent_after(r.sent, e.store, word.number),
            expected: expected_after(r.expected, e.store, word.number),
            last: byte_after(e.store, spelling::byte_of(word), word.number, r.last),
            kind: kind_after(e.store, word.number, r.kind),
            slots: table::heard(r.slots, e, word),
            ..r
        },
    }
}

// The word is over before the byte b: a name goes on to a blank or the line's end, any other word also to a sign or #.
#[tactic(auto, unfolding(crate::specs::Lines::word_ends))]
fn word_ends(place: u8, word: Word, b: u8) -> bool
    ensures { result ≡ word_ends place word b }
{
    if table::takes_name(place) {
        spelling::is_blank(b) | spelling::ends_line(b)
    } else {
        spelling::ends_words(b) | spelling::sign(word)
    }
}

// The line before the byte b, its last word closed.
#[tactic(auto, unfolding(crate::specs::Lines::closed))]
fn closed(r: Reading, b: u8) -> Reading
    ensures { result ≡ closed r b }
{
    if r.ended {
        return fresh(3);
    }
    let open = matches!(r.mode, Mode::Open);
    if (open & (r.word.length != 0)) & word_ends(r.place, r.word, b) {
        went(r, table::follows(r.place, r.word))
    } else {
        r
    }
}

// ---- one byte of the input

#[tactic(auto, unfolding(crate::specs::Lines::advanced, crate::specs::Lines::taken_into))]
pub fn advanced(r: Reading, b: u8) -> Reading
    ensures { result ≡ advanced r b }
{
    let q = closed(r, b);
    if spelling::ends_line(b) {
        if r.ended & (r.cr & (b == b'\n')) {
            return fresh(3);
        }
        return Reading {
            ended: true,
            cr: b == b'\r',
            mark: 3,
            ..q
        };
    }
    if (r.mark == 2) & (b == 0xbf) {
        return fresh(3);
    }
    taken(q, b, mark_after(r.mark, b))
}

// ---- the line

// A mistake, or a line that ends too early, is wrong. Where a line ends too early, its end is the mistake's column, or the # of a remark.
#[tactic(auto, unfolding(crate::specs::Lines::line_of))]
pub fn line_of(r: Reading) -> Line
    ensures { result ≡ line_of r }
{
    let ends = !matches!(r.mode, Mode::Wrong) & table::can_end(r.place);
    Line {
        verb: if ends {
            table::verb_of(r.slots[0])
        } else {
            Verb::Wrong
        },
        slots: r.slots,
        sent: r.sent,
        expected: r.expected,
        remark: r.remark,
        place: r.place,
        word: r.shown,
        length: r.word.length,
        column: if matches!(r.mode, Mode::Open) {
            spelling::one_more(r.read)
        } else {
            r.word.column
        },
    }
}
