// Reads: bytes and marks into the lent reply.
#![tactic(auto)]

ghost use Rattle.std.specs.Prelude.{◌≡◌, [], ◌∷◌, ℕ, ◌+◌, ◌-◌, ◌*◌, ◌/◌, ◌%◌, ◌^◌, ◌≤◌, ◌<◌, min, ltb, length, get_or};
ghost use Rattle.rules.specs.Words.{lent, pick, holds};
ghost use Rattle.rules.specs.Blocks.{array_size_lem, security_size_lem};
ghost use Rattle.rules.specs.Reading.{place_cell};
ghost use Rattle.rules.specs.Bursts.{Divides};
ghost use Rattle.memory.specs.Patched.{Patched};
ghost use Rattle.reading.specs.Upto.{Upto, Pages, cell_from, burst_cell};

use rules::Range;

// How many places from a on lie in its sector and, as it does, in the range or outside: neither read lock nor suspended range changes among them.
fn alike(r: Range, a: usize) -> usize
    requires { r.start + r.size ≤ array_size_lem }
    ensures { result ≡ min (4096 - a % 4096) (pick (ltb a r.start) (r.start - a) (pick (ltb a (r.start + r.size)) (r.start + r.size - a) 4096)) }
{
    let left = 4096 - a % 4096;
    let start = r.start;
    let end = start + r.size;
    if a < start {
        return left.min(start - a);
    }
    if a < end {
        return left.min(end - a);
    }
    left
}

// n bytes from place a on, all alike, into the reply and the marks from i on.
fn read_alike(
    p: u64,
    r: Range,
    array: &[u8],
    a: usize,
    n: usize,
    reply: &mut [u8],
    marks: &mut [u8],
    i: usize,
)
    requires { (r.start + r.size ≤ array_size_lem) × ((length array.now ≡ array_size_lem) × ((a < array_size_lem) × ((a + n ≤ array_size_lem) × (((j : ℕ) → j < n → ((a + j) / 4096 ≡ a / 4096) × (holds r (a + j) ≡ holds r a)) × ((i + n ≤ length reply.old) × (i + n ≤ length marks.old)))))) }
    ensures bytes { Patched reply.new reply.old i n (λ j. (place_cell p r (lent array.now) (a + j)).byte) }
    ensures known { Patched marks.new marks.old i n (λ j. (place_cell p r (lent array.now) (a + j)).mark) }
{
    if blocks::read_locked(p, a) {
        memory::set_all(reply, i, n, 0);
        memory::set_all(marks, i, n, 1);
        return;
    }
    if blocks::holds_place(r, a) {
        memory::set_all(reply, i, n, 0);
        memory::set_all(marks, i, n, 0);
        return;
    }
    memory::copy(reply, i, n, array, a);
    memory::set_all(marks, i, n, 1);
}

// n bytes of one page from place a on, into the reply and the marks from i on: locks and suspended ranges do not change within a page.
fn read_piece(
    p: u64,
    r: Range,
    array: &[u8],
    a: usize,
    n: usize,
    reply: &mut [u8],
    marks: &mut [u8],
    i: usize,
)
    requires { (Pages r) × ((length array.now ≡ array_size_lem) × ((a < array_size_lem) × ((a % 256 + n ≤ 256) × ((i + n ≤ length reply.old) × (i + n ≤ length marks.old))))) }
    ensures bytes { Patched reply.new reply.old i n (λ j. (place_cell p r (lent array.now) (a + j)).byte) }
    ensures known { Patched marks.new marks.old i n (λ j. (place_cell p r (lent array.now) (a + j)).mark) }
{
    read_alike(p, r, array, a, n, reply, marks, i);
}

// The array from place `at` on, going round, as far each time as places are alike: the steps differ, so no range has them.
pub fn read_array(p: u64, r: Range, array: &[u8], at: usize, reply: &mut [u8], marks: &mut [u8])
    requires { (Pages r) × ((length array.now ≡ array_size_lem) × ((at < array_size_lem) × ((length marks.old ≡ length reply.old) × (length reply.old ≤ 65536)))) }
    ensures bytes { Upto reply.new (length reply.old) (length reply.old) (λ i. (cell_from p r array.now at i).byte) }
    ensures known { Upto marks.new (length marks.old) (length marks.old) (λ i. (cell_from p r array.now at i).mark) }
{
    let mut i: usize = 0;
    while i < reply.len() {
        let a = (at + i) % 2097152;
        let n = alike(r, a).min(reply.len() - i);
        read_alike(p, r, array, a, n, reply, marks, i);
        i += n;
    }
}

// The first turn of a burst of n bytes from place `at` on: up to the end of its group, then from the group's start.
fn first_turn(
    p: u64,
    r: Range,
    array: &[u8],
    at: usize,
    n: usize,
    reply: &mut [u8],
    marks: &mut [u8],
)
    requires { (Pages r) × ((length array.now ≡ array_size_lem) × ((at < array_size_lem) × ((Divides n) × (length marks.old ≡ length reply.old)))) }
    ensures bytes { Upto reply.new (length reply.old) (min n (length reply.old)) (λ i. (burst_cell p r array.now n at i).byte) }
    ensures known { Upto marks.new (length marks.old) (min n (length marks.old)) (λ i. (burst_cell p r array.now n at i).mark) }
{
    let all = reply.len();
    let off = at % n;
    let high = (n - off).min(all);
    read_piece(p, r, array, at, high, reply, marks, 0);
    if high < all {
        let low = off.min(all - high);
        read_piece(p, r, array, at - off, low, reply, marks, high);
    }
}

// A burst of n bytes from place `at` on, turn after turn.
pub fn read_burst(
    p: u64,
    r: Range,
    array: &[u8],
    at: usize,
    n: usize,
    reply: &mut [u8],
    marks: &mut [u8],
)
    requires { (Pages r) × ((length array.now ≡ array_size_lem) × ((at < array_size_lem) × ((Divides n) × ((length marks.old ≡ length reply.old) × (length reply.old ≤ 65536))))) }
    ensures bytes { Upto reply.new (length reply.old) (length reply.old) (λ i. (burst_cell p r array.now n at i).byte) }
    ensures known { Upto marks.new (length marks.old) (length marks.old) (λ i. (burst_cell p r array.now n at i).mark) }
{
    first_turn(p, r, array, at, n, reply, marks);
    if n < reply.len() {
        memory::repeat(reply, n);
        memory::repeat(marks, n);
    }
}

// The Security ID from place `at` on, going round.
pub fn read_security(security: &[u8], at: usize, reply: &mut [u8])
    requires { (length security.now ≡ security_size_lem) × ((at < security_size_lem) × (length reply.old ≤ 65536)) }
    ensures { Upto reply.new (length reply.old) (length reply.old) (λ i. get_or security.now ((at + i) % security_size_lem) 0) }
{
    for (i, b) in reply.iter_mut().enumerate() {
        *b = security[(at + i) % 2048];
    }
}

// Byte i of the protection register as it travels: six bytes, highest first, then 00.
fn protection_byte(p: u64, i: usize) -> u8
    ensures { result ≡ pick (ltb i 6) (p / 2 ^ (8 * (5 - i)) % 256) 0 }
{
    p.to_be_bytes()[2..].get(i).copied().unwrap_or(0)
}

pub fn read_protection(p: u64, reply: &mut [u8])
    ensures { Upto reply.new (length reply.old) (length reply.old) (λ i. pick (ltb i 6) (p / 2 ^ (8 * (5 - i)) % 256) 0) }
{
    for (i, b) in reply.iter_mut().enumerate() {
        *b = protection_byte(p, i);
    }
}

const IDENTITY: [u8; 3] = [0xbf, 0x26, 0x51];

// The identity, again and again.
pub fn read_identity(reply: &mut [u8])
    ensures { Upto reply.new (length reply.old) (length reply.old) (λ i. get_or (191 ∷ 38 ∷ 81 ∷ []) (i % 3) 0) }
{
    for (i, b) in reply.iter_mut().enumerate() {
        *b = IDENTITY[i % 3];
    }
}
