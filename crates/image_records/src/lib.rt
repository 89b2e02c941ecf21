// A record of an image file: numbers of two bytes, the sum, the mark. crate image, specs/Form and specs/Files.
#![tactic(auto)]

ghost use Rattle.std.specs.Prelude.{◌≡◌, ◌+◌, ◌-◌, ◌*◌, ◌<◌, ◌≤◌, ◌&&◌, ◌++◌, length, ◌==◌};
ghost use Rattle.std.proofs.Math.Seq.{paste};
ghost use Rattle.rules.specs.Blocks.{array_size_lem, security_size_lem};
ghost use Rattle.image.specs.Form.{high_first, number, sum, file_size_lem};
ghost use Rattle.image.specs.Files.{part, body_in};

// The number in two bytes, high byte first.
pub fn two(l: &[u8], at: usize) -> u64
    requires { at + 2 ≤ length l.now }
    ensures value { result ≡ number (part l.now at 2) }
    ensures small { result < 65536 }
{
    u64::from(u16::from_be_bytes([l[at], l[at + 1]]))
}

// A number in two bytes, high byte first.
pub fn put_two(l: &mut [u8], at: usize, x: u64)
    requires { at + 2 ≤ length l.old }
    ensures { l.new ≡ paste l.old at (high_first 2 x) 2 }
{
    l[at..at + 2].copy_from_slice(&((x % 0x1_0000) as u16).to_be_bytes());
}

// The sum of the bytes between two places, which wraps at 65,536. No branch, so that the loop becomes wide additions.
pub fn sum(l: &[u8], from: usize, to: usize) -> u16
    requires { (from ≤ to) × (to ≤ length l.now) }
    ensures { result ≡ sum (part l.now from (to - from)) }
{
    l[from..to]
        .iter()
        .fold(0, |s: u16, b| s.wrapping_add(u16::from(*b)))
}

// Array, Security ID and file have their sizes.
pub fn sizes_right(array: usize, security: usize, file: usize) -> bool
    ensures { result ≡ (array == array_size_lem && security == security_size_lem && file == file_size_lem) }
{
    (array == 2097152) & (security == 2048) & (file == 2148374)
}

// A body of n bytes lies behind the place of its mark: mark and sum are put around it.
pub fn seal(l: &mut [u8], at: usize, n: usize, mark: u64)
    requires { at + (n + 4) ≤ length l.old }
    ensures { l.new ≡ paste l.old at (high_first 2 mark ++ body_in l.old at n ++ high_first 2 (sum (body_in l.old at n))) (n + 4) }
{
    let from = at + 2;
    let to = from + n;
    put_two(l, at, mark);
    let s = sum(l, from, to);
    put_two(l, to, u64::from(s));
}
