// Parts of slices.
ghost use Rattle.std.specs.Prelude.{◌≡◌, ◌≤◌, length, take};

// The part of n that lies in the slice.
pub fn within<T>(n: usize, s: &[T]) -> usize
    ensures within { result ≤ length s.now }
    ensures front { result ≡ length (take result s.now) }
{
    n.min(s.len())
}

// The first n bytes, or all where there are fewer.
pub fn front(n: usize, s: &[u8]) -> &[u8] {
    &s[..within(n, s)]
}

// The same of bytes that are to be written.
pub fn front_mut(n: usize, s: &mut [u8]) -> &mut [u8] {
    let n = within(n, s);
    &mut s[..n]
}

// Whether the first n bytes are the same.
pub fn same_front(n: usize, a: &[u8], b: &[u8]) -> bool {
    front(n, a) == front(n, b)
}
