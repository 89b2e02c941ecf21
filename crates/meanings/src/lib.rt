// What a number means: its text over lent bytes. specs/Meanings.antt has the texts.
#![tactic(auto)]

ghost use Rattle.std.specs.Prelude.{◌≡◌, length};
ghost use Rattle.meanings.specs.Meanings.{over, MeaningBytes};

// As many bytes of the text as fit; the text's length.
pub fn put_text(lent: &mut [u8], text: &[u8]) -> usize
    ensures { (result ≡ length text.now) × (lent.new ≡ over text.now lent.old) }
{
    let n = text.len().min(lent.len());
    let part = &mut lent[..n];
    for (i, b) in part.iter_mut().enumerate() {
        *b = text[i];
    }
    text.len()
}

#[tactic(auto, unfolding(crate::specs::Meanings::meaning))]
fn text_of(number: u8) -> &'static [u8]
    ensures { result.now ≡ Rattle.meanings.specs.Meanings.meaning number }
{
    match number {
        0 => b"done",
        1 => b"record not well-formed, or a length outside \"Sizes\"",
        2 => b"frame empty",
        3 => b"opcode not listed, or not in this protocol",
        4 => b"length not as listed",
        5 => b"BUSY, and opcode not 05, 66, 99, B0",
        6 => b"99 with no enable",
        7 => b"6B, 32 or EC with IOC 0",
        8 => b"suspension rule",
        9 => b"WEL needed and 0",
        10 => b"42 or 98 with WPLD 1; A5 or 85 with SEC 1; A5 to places 0 to 7",
        11 => b"20, D8, 02, 32 in a write-locked block; C7 with a write lock set",
        12 => b"completion with nothing running",
        13 => b"a C0 byte above 03",
        14 => b"a busy or suspended chip",
        15 => b"a wrong mark, sum, page number, code or register",
        16 => b"no empty slot",
        17 => b"no live slot of that number",
        18 => b"polls used up, the write still runs",
        _ => b"",
    }
}

// The text of a number; a number above 18 has none.
pub fn meaning(number: u8, text: &mut [u8]) -> usize
    ensures { MeaningBytes number text.old result text.new }
{
    put_text(text, text_of(number))
}
