// Words in a text.
ghost use Rattle.std.specs.Prelude.{◌≡◌, ◌≤◌, length, take};

// The part of n that lies in the slice.
pub fn within(n: usize, s: &[u8]) -> usize
    ensures within { result ≤ length s.now }
    ensures front { result ≡ length (take result s.now) }
{
    n.min(s.len())
}

// How often the word stands in the text.
pub fn times(text: &[u8], word: &[u8]) -> usize {
    (0..text.len())
        .filter(|i| text[*i..].starts_with(word))
        .count()
}
