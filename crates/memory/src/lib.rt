// Loops over lent bytes: pieces of memory, the page buffer, and work that is finished as far as k and m say.
#![tactic(auto)]

ghost use Rattle.std.specs.Prelude.{◌≡◌, true, [], ◌+◌, ◌≤◌, ◌<◌, length, get_or, drop};
ghost use Rattle.std.specs.Int.Bits.{bit_and};
ghost use Rattle.rules.specs.Words.{lent};
ghost use Rattle.rules.specs.Blocks.{array_size_lem, security_size_lem};
ghost use Rattle.rules.specs.declared.Work.{Work};
ghost use Rattle.rules.specs.Works.{array_range, security_range, stopped, tear_of, finish};
ghost use Rattle.rules.specs.Programs.{blank, fill};
ghost use Rattle.rules.specs.WellFormed.{first_ff, numbers_right};
ghost use Rattle.memory.specs.Patched.{Patched, Repeated};

use rules::Work;

// n bytes from `from` on become v.
pub fn set_all(s: &mut [u8], from: usize, n: usize, v: u8)
    requires { from + n ≤ length s.old }
    ensures { Patched s.new s.old from n (λ i. v) }
{
    s[from..from + n].fill(v);
}

// n bytes from `from` on become those of `src` from `at` on.
pub fn copy(s: &mut [u8], from: usize, n: usize, src: &[u8], at: usize)
    requires { (from + n ≤ length s.old) × (at + n ≤ length src.now) }
    ensures { Patched s.new s.old from n (λ i. get_or src.now (at + i) 0) }
{
    let part = &mut s[from..from + n];
    for (i, b) in part.iter_mut().enumerate() {
        *b = src[at + i];
    }
}

// The first n bytes again and again, to the end. Each round copies all that is there, so that a few rounds of wide copies do; the steps double, so no range has them.
pub fn repeat(s: &mut [u8], n: usize)
    requires { (0 < n) × ((n ≤ length s.old) × (length s.old ≤ 65536)) }
    ensures { Repeated s.new s.old n }
{
    let mut done = n;
    while done < s.len() {
        let (there, rest) = s.split_at_mut(done);
        let m = done.min(rest.len());
        copy(rest, 0, m, there, 0);
        done += m;
    }
}

// n bytes from `from` on keep only the bits that the page buffer has too.
pub fn clear_bits(s: &mut [u8], from: usize, n: usize, page: &[u8])
    requires { (from + n ≤ length s.old) × (n ≤ length page.now) }
    ensures { Patched s.new s.old from n (λ i. bit_and (get_or s.old (from + i) 0) (get_or page.now i 0)) }
{
    let part = &mut s[from..from + n];
    for (i, b) in part.iter_mut().enumerate() {
        *b &= page[i];
    }
}

pub fn blank_page(page: &mut [u8])
    requires { length page.old ≡ 256 }
    ensures { page.new ≡ blank }
{
    page.fill(255);
}

// The page buffer of the bytes sent from `skip` on, from place `at` of the page.
pub fn fill_page(page: &mut [u8], sent: &[u8], skip: usize, at: usize)
    requires { (length page.old ≡ 256) × ((at < 256) × (length sent.now ≤ 65536)) }
    ensures { page.new ≡ fill blank at (drop skip sent.now) }
{
    blank_page(page);
    let data = &sent[skip.min(sent.len())..];
    for (i, b) in data.iter().enumerate() {
        page[(at + i) % 256] = *b;
    }
}

// The first n bytes of the buffer are FF. No early exit, so that a pass over the whole buffer is a few wide instructions.
pub fn first_ff(page: &[u8], n: usize) -> bool
    requires { n ≤ length page.now }
    ensures { result ≡ first_ff n page.now }
{
    page[..n].iter().fold(255, |all, b| all & *b) == 255
}

// ---- work: the first k bytes are finished, byte k is torn by m, the rest is unchanged. Two numbers and no Tear: at a completion's they are then known where this becomes a part of it

// An erase of n bytes from `from` on.
fn erase(s: &mut [u8], from: usize, n: usize, k: u64, m: u8)
    requires { from + n ≤ length s.old }
    ensures { Patched s.new s.old from n (λ i. stopped Work.EraseArray [] (tear_of k m) i (get_or s.old (from + i) 0)) }
{
    let whole = (k as usize).min(n);
    set_all(s, from, whole, 255);
    if whole < n {
        s[from + whole] |= m;
    }
}

// A program of the page from `from` on.
fn program(s: &mut [u8], from: usize, page: &[u8], k: u64, m: u8)
    requires { (from + 256 ≤ length s.old) × (length page.now ≡ 256) }
    ensures { Patched s.new s.old from 256 (λ i. stopped (Work.ProgramPage 0) page.now (tear_of k m) i (get_or s.old (from + i) 0)) }
{
    let whole = (k as usize).min(256);
    clear_bits(s, from, whole, page);
    if whole < 256 {
        let old = s[from + whole];
        s[from + whole] = old & (old & page[whole] | m);
    }
}

// In the array.
pub fn finish_array(w: Work, page: &[u8], k: u64, m: u8, array: &mut [u8])
    requires { (numbers_right w ≡ true) × ((length array.old ≡ array_size_lem) × (length page.now ≡ 256)) }
    ensures { lent array.new ≡ finish w (array_range w) page.now (tear_of k m) (lent array.old) }
{
    match w {
        Work::EraseSector(n) => erase(array, n * 4096, 4096, k, m),
        Work::EraseBlock(n) => {
            let b = blocks::block_at(n);
            erase(array, b.start, b.size, k, m);
        }
        Work::EraseArray => erase(array, 0, 2097152, k, m),
        Work::ProgramPage(n) => program(array, n * 256, page, k, m),
        _ => {}
    }
}

// And in the Security ID: only an A5 has a range there.
pub fn finish_security(w: Work, page: &[u8], k: u64, m: u8, security: &mut [u8])
    requires { (numbers_right w ≡ true) × ((length security.old ≡ security_size_lem) × (length page.now ≡ 256)) }
    ensures { lent security.new ≡ finish w (security_range w) page.now (tear_of k m) (lent security.old) }
{
    if let Work::ProgramSecurity(n) = w {
        program(security, n * 256, page, k, m);
    }
}
