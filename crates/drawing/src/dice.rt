// Random numbers from a seed, the same in every run of the program.

// A number in which every bit of x counts for every bit.
pub fn mixed(x: u64) -> u64 {
    let a = (x << 21).wrapping_sub(x);
    let b = a ^ (a >> 24);
    let c = b.wrapping_add(b << 3).wrapping_add(b << 8);
    let d = c ^ (c >> 14);
    let e = d.wrapping_add(d << 2).wrapping_add(d << 4);
    let f = e ^ (e >> 28);
    f.wrapping_add(f << 31)
}

// The seed of the n-th thing that comes of a seed.
pub fn seed_of(seed: u64, n: u64) -> u64 {
    mixed(mixed(seed).wrapping_add((n << 32).wrapping_add(n)))
}

// A number below n for the question with this number: one seed answers each question differently. 0 where there is none.
pub fn draw(seed: u64, question: u64, n: u64) -> u64 {
    (seed_of(seed, question) >> 8).checked_rem(n).unwrap_or(0)
}

// Once in n.
pub fn once_in(seed: u64, question: u64, n: u64) -> bool {
    draw(seed, question, n) == 0
}
