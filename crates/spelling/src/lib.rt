// The words of a script's line: their bytes, their numbers. specs/Words.antt.
#![tactic(auto)]

ghost use Rattle.std.specs.Prelude.{◌≡◌, ◌+◌, ◌*◌, ◌%◌, ◌^◌, min, eqb};
ghost use Rattle.rules.specs.Words.{pick};
ghost use Rattle.spelling.specs.Words.{blank, line_end, sign, ends_words, digit_of, one_more_lem, tens_of, key_with, no_word, word_with, is_sign, byte_of};

// A word half read; none while its length is 0, and no Option then: where none has begun, the column of a remark is still said (`no_word`).
// The two numbers stand beside their flags and not in an Option: law `number_is` of grammar's proofs/Spelled is of a word of any bytes.
#[derive(Clone, Copy)]
pub struct Word {
    // at most 25
    pub length: usize,
    // where it begins, counted from 1
    pub column: usize,
    // its bytes as one number
    pub key: u64,
    // only decimal digits so far, and their number, at most 2^64 - 1
    pub decimal: bool,
    pub number: u64,
    // only hex digits so far, and the number of the last sixteen
    pub hexadecimal: bool,
    pub hex: u64,
}

// One more, at most 2^64 - 1.
#[tactic(auto, unfolding(crate::specs::Words::one_more_lem, crate::specs::Words::most))]
pub fn one_more(n: usize) -> usize
    ensures { result ≡ one_more_lem n }
{
    n.saturating_add(1)
}

// Space, tab, vertical tab, form feed.
pub fn is_blank(b: u8) -> bool
    ensures { result ≡ blank b }
{
    matches!(b, b' ' | b'\t' | 0x0b | 0x0c)
}

// LF, CR.
pub fn ends_line(b: u8) -> bool
    ensures { result ≡ line_end b }
{
    matches!(b, b'\n' | b'\r')
}

// One of the signs > = ! / * ~.
fn is_sign(b: u8) -> bool
    ensures { result ≡ sign b }
{
    matches!(b, b'>' | b'=' | b'!' | b'/' | b'*' | b'~')
}

// #, a sign, a blank or a line's end.
pub fn ends_words(b: u8) -> bool
    ensures { result ≡ ends_words b }
{
    b == b'#' || is_sign(b) || is_blank(b) || ends_line(b)
}

// What a hex digit stands for; 16 for any other byte, a number too, since each byte of a word adds to its numbers (`word_with`).
#[tactic(auto, unfolding(crate::specs::Words::digit_of))]
fn digit(b: u8) -> u8
    ensures { result ≡ digit_of b }
{
    match b {
        b'0'..=b'9' => b - b'0',
        b'A'..=b'F' => b - b'A' + 10,
        b'a'..=b'f' => b - b'a' + 10,
        _ => 16,
    }
}

// One digit more, at most 2^64 - 1.
#[tactic(auto, unfolding(crate::specs::Words::tens_of, crate::specs::Words::most))]
fn tens(number: u64, d: u8) -> u64
    ensures { result ≡ tens_of number d }
{
    number.saturating_mul(10).saturating_add(u64::from(d))
}

fn length_after(n: usize) -> usize
    ensures { result ≡ min (n + 1) 25 }
{
    n.saturating_add(1).min(25)
}

fn column_after(length: usize, old: usize, column: usize) -> usize
    ensures { result ≡ pick (eqb length 0) column old }
{
    if length == 0 { column } else { old }
}

pub fn key_after(key: u64, b: u8) -> u64
    ensures { result ≡ key_with key b }
{
    key % 72057594037927936 * 256 + u64::from(b)
}

fn hex_after(hex: u64, d: u8) -> u64
    ensures { result ≡ hex % 2 ^ 60 * 16 + d % 16 }
{
    hex % 1152921504606846976 * 16 + u64::from(d % 16)
}

// No word; where a remark begins, its column.
pub fn none(column: usize) -> Word
    ensures { result ≡ no_word column }
{
    Word {
        length: 0,
        column,
        key: 1,
        decimal: true,
        number: 0,
        hexadecimal: true,
        hex: 0,
    }
}

// The word with one byte more, which stands at that column.
#[tactic(auto, unfolding(crate::specs::Words::word_with))]
pub fn longer(w: Word, b: u8, column: usize) -> Word
    ensures { result ≡ word_with w b column }
{
    let d = digit(b);
    Word {
        length: length_after(w.length),
        column: column_after(w.length, w.column, column),
        key: key_after(w.key, b),
        decimal: w.decimal & (d < 10),
        number: tens(w.number, d),
        hexadecimal: w.hexadecimal & (d < 16),
        hex: hex_after(w.hex, d),
    }
}

// The word is a sign.
pub fn sign(w: Word) -> bool
    ensures { result ≡ is_sign w }
{
    (w.length == 1) & is_sign((w.key % 256) as u8)
}

// The byte that two hex digits stand for.
pub fn byte_of(w: Word) -> u8
    ensures { result ≡ byte_of w }
{
    (w.hex % 256) as u8
}
