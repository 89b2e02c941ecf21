// Random lines for the trial: numbers from a seed, and lines made from the forms of a data file. A part of that program, apart so that it is proved beside
// other crates; like it safe and ending, with no contract.
#![tactic(auto)]

pub mod dice;
pub mod source;

// The byte at a place, 0 past the end.
pub fn at(s: &[u8], i: usize) -> u8 {
    s.get(i).copied().unwrap_or(0)
}

// One more at a place that is there.
pub fn bump(counts: &mut [u64], i: usize) {
    if let Some(n) = counts.get_mut(i) {
        *n = n.wrapping_add(1);
    }
}

// How many of them came up.
pub fn kinds(counts: &[u64]) -> usize {
    counts.iter().filter(|n| **n != 0).count()
}
