// What a wrong word may have been meant to be. specs/Hints.antt.
#![tactic(auto)]

ghost use Rattle.std.specs.Prelude.{◌≡◌};
ghost use Rattle.hinting.specs.Hints.{stands, takes_byte, prefix, lowered, of_digits, hint_of};
ghost use Rattle.spelling.specs.Words.{no_word};

use grammar::{Class, Entry, table};
use spelling::Word;

// What a wrong word may have been meant to be.
#[derive(Clone, Copy, PartialEq, Eq)]
pub enum Hint {
    // a byte is two digits
    TwoDigits,
    // bytes stand apart
    Apart,
    // words are of lower case
    LowerCase,
}

// The word of these bytes in lower case.
fn in_lower(bytes: &[u8]) -> Word
    ensures { result ≡ lowered (no_word 0) bytes.now }
{
    let mut word = spelling::none(0);
    for &b in bytes {
        word = spelling::longer(word, b.to_ascii_lowercase(), 0);
    }
    word
}

// The word may stand at that place.
#[tactic(auto, unfolding(crate::specs::Hints::stands))]
fn stands(place: u8, w: Word) -> bool
    ensures { result ≡ stands place w }
{
    table::follows(place, w).is_some()
}

// A byte may stand here: the word 00.
#[tactic(auto, unfolding(crate::specs::Hints::takes_byte))]
fn takes_byte(place: u8) -> bool
    ensures { result ≡ takes_byte place }
{
    let byte = Word {
        length: 2,
        column: 0,
        key: 0x013030,
        decimal: true,
        number: 0,
        hexadecimal: true,
        hex: 0,
    };
    matches!(
        table::follows(place, byte),
        Some(Entry {
            class: Class::Byte,
            ..
        })
    )
}

// The bytes of 0x.
fn prefix(a: u8, b: u8) -> usize
    ensures { result ≡ prefix a b }
{
    if matches!((a, b), (b'0', b'x' | b'X')) {
        2
    } else {
        0
    }
}

#[tactic(auto, unfolding(crate::specs::Hints::of_digits))]
fn of_digits(takes: bool, n: usize) -> Option<Hint>
    ensures { result ≡ of_digits takes n }
{
    if !takes {
        None
    } else if 2 < n && n % 2 == 0 {
        Some(Hint::Apart)
    } else {
        Some(Hint::TwoDigits)
    }
}

// By the word's first bytes and its length, at that place.
pub fn hint_of(place: u8, word: &[u8; 24], length: usize) -> Option<Hint>
    ensures { result ≡ hint_of place word.now length }
{
    if length == 0 || 24 < length {
        return None;
    }
    if stands(place, in_lower(&word[..length])) {
        return Some(Hint::LowerCase);
    }
    let skipped = prefix(word[0], word[1]).min(length);
    let digits = in_lower(&word[skipped..length]);
    of_digits(takes_byte(place) & digits.hexadecimal, digits.length)
}
