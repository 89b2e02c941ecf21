// What a program compares of the two models: an enum of its own, each of which a difference can be planted for. A set of comparisons is a number with a bit for each.
use second::Flat;
use std::fmt;

pub trait Compared: Copy + PartialEq + fmt::Display {
    // Its bit in a set.
    fn mask(self) -> u64;
}

// The bit of a comparison that does not hold.
pub fn bit<C: Compared>(holds: bool, c: C) -> u64 {
    if holds { 0 } else { c.mask() }
}

// The last bit is another one, where the planted difference is this one.
pub fn planted_number<C: Compared>(x: u64, plant: Option<C>, c: C) -> u64 {
    x ^ u64::from(plant == Some(c))
}

// Another WEL, where the planted difference is this one.
pub fn planted_record<C: Compared>(f: Flat, plant: Option<C>, c: C) -> Flat {
    Flat {
        wel: f.wel ^ (plant == Some(c)),
        ..f
    }
}

// ---- what is said; what cannot be written is lost

// Those of all comparisons that are in a set.
pub fn say_odd<C: Compared>(rt: &impl Print, all: &[C], odd: u64) {
    for c in all {
        if odd & c.mask() != 0 {
            let _ = print!(rt; " {c}");
        }
    }
    let _ = println!(rt);
}

// In what a case differs that has a planted difference.
pub fn say_planted<C: Compared>(rt: &impl Print, all: &[C], plant: C, odd: u64) {
    let _ = print!(rt; "planted, {plant}: not the same:");
    say_odd(rt, all, odd);
}

// How often each number came up, of those that did.
pub fn say_numbers(rt: &impl Print, counts: &[u64]) {
    for (number, n) in counts.iter().enumerate() {
        if *n != 0 {
            let _ = print!(rt; ", {n} times {number}");
        }
    }
    let _ = println!(rt);
}
