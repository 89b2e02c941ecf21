// What is counted, and what is written.
use crate::comparisons::COMPARISONS;
use comparing::comparisons::{say_numbers, say_odd};
use drawing::kinds;

// Writings, readings, cases with a difference, the paper's values; numbers of writing and of reading; the sorts of chips, each of both parts; bursts, running and
// suspended work, flags of the chips.
#[derive(Drop)]
pub struct Counts {
    pub writes: u64,
    pub reads: u64,
    differences: u64,
    worked: u64,
    pub write_numbers: [u64; 16],
    pub read_numbers: [u64; 16],
    pub sorts: [u64; 12],
    pub bursts: [u64; 4],
    pub running: [u64; 9],
    pub suspended: [u64; 9],
    pub flags: [u64; 256],
}

pub fn no_counts() -> Counts {
    Counts {
        writes: 0,
        reads: 0,
        differences: 0,
        worked: 0,
        write_numbers: [0; 16],
        read_numbers: [0; 16],
        sorts: [0; 12],
        bursts: [0; 4],
        running: [0; 9],
        suspended: [0; 9],
        flags: [0; 256],
    }
}

// What cannot be written is lost. Not one struct with station_trial's: the counts are other ones, and a library's struct takes no methods here.
#[derive(Drop)]
pub struct Report<'a, P: Print> {
    pub rt: &'a P,
    pub counts: Counts,
}

impl<P: Print> Report<'_, P> {
    // A case with a difference is told, and counted. Its name is a word and a number; station_trial's has two numbers.
    pub fn tell(&mut self, name: &str, k: u64, odd: u64) {
        if odd != 0 {
            self.counts.differences = self.counts.differences.wrapping_add(1);
            let _ = print!(self.rt; "{name} {k}, not the same:");
            say_odd(self.rt, &COMPARISONS, odd);
        }
    }

    pub fn say_counts(&self) {
        let counts = &self.counts;
        let _ = println!(self.rt; "the paper's values: {}", counts.worked);
        let _ = print!(self.rt; "written by both: {}", counts.writes);
        say_numbers(self.rt, &counts.write_numbers);
        let _ = print!(self.rt; "read by both: {}", counts.reads);
        say_numbers(self.rt, &counts.read_numbers);
        let _ = print!(self.rt;
            "of the chips written: sorts by part {} kinds",
            kinds(&counts.sorts)
        );
        let _ = print!(self.rt; ", flags {} kinds", kinds(&counts.flags));
        let _ = print!(self.rt; ", bursts {} kinds", kinds(&counts.bursts));
        let _ = print!(self.rt; ", running work {} kinds", kinds(&counts.running));
        let _ = println!(self.rt; ", suspended work {} kinds", kinds(&counts.suspended));
        let _ = println!(self.rt; "{} differences", counts.differences);
    }

    // The file has these bytes at this place: a value of the paper.
    pub fn show(&mut self, file: &[u8], place: usize, text: &[u8]) {
        self.counts.worked = self.counts.worked.wrapping_add(1);
        if !file.get(place..).unwrap_or(&[]).starts_with(text) {
            self.counts.differences = self.counts.differences.wrapping_add(1);
            let _ = println!(self.rt; "not the paper's: the bytes at {place}");
        }
    }
}
