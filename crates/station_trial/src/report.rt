// What is counted, and what is written.
use comparing::comparisons::{say_numbers, say_odd};
use drawing::{bump, kinds};
use station_drawing::comparisons::COMPARISONS;

#[derive(Clone, Copy, Default)]
pub struct Counts {
    // the paper's values, cases with a difference, stores, lookups, power cuts
    pub values: u64,
    pub differences: u64,
    pub stores: u64,
    pub lookups: u64,
    pub cuts: u64,
    // numbers of stores and of lookups
    pub store_numbers: [u64; 32],
    pub lookup_numbers: [u64; 32],
    // sorts of chips and of lists
    pub chips: [u64; 23],
    pub lists: [u64; 10],
    // done stores by the marks that they cleared
    pub cleared: [u64; 4],
}

// What cannot be written is lost. Not one struct with image_trial's: the counts are other ones, and a library's struct takes no methods here.
#[derive(Drop)]
pub struct Report<'a, P> {
    pub rt: &'a P,
    pub counts: Counts,
}

impl<P: Print> Report<'_, P> {
    // ---- what is counted

    pub fn chip_counted(&mut self, sort: usize) {
        bump(&mut self.counts.chips, sort);
    }

    pub fn list_counted(&mut self, sort: usize) {
        bump(&mut self.counts.lists, sort);
    }

    pub fn cut_counted(&mut self) {
        self.counts.cuts = self.counts.cuts.wrapping_add(1);
    }

    // A store; where it is done, with the live slots that its read showed.
    pub fn store_counted(&mut self, number: u8, live: usize) {
        self.counts.stores = self.counts.stores.wrapping_add(1);
        bump(&mut self.counts.store_numbers, usize::from(number % 32));
        if number == 0 {
            bump(&mut self.counts.cleared, live.min(3));
        }
    }

    pub fn lookup_counted(&mut self, number: u8) {
        self.counts.lookups = self.counts.lookups.wrapping_add(1);
        bump(&mut self.counts.lookup_numbers, usize::from(number % 32));
    }

    // ---- comparisons

    // A case with a difference is told, and counted. Its name is a word and two numbers; image_trial's has one number.
    pub fn told(&mut self, name: &str, k: u64, n: u64, odd: u64) {
        if odd != 0 {
            self.counts.differences = self.counts.differences.wrapping_add(1);
            let _ = print!(self.rt; "{name} {k} {n}, not the same:");
            say_odd(self.rt, &COMPARISONS, odd);
        }
    }

    // A value of the paper: of which sentence, and which of its steps.
    pub fn shows(&mut self, sentence: usize, n: usize, right: bool) {
        self.counts.values = self.counts.values.wrapping_add(1);
        if !right {
            self.counts.differences = self.counts.differences.wrapping_add(1);
            let _ = println!(self.rt; "not the paper's: sentence {sentence}, step {n}");
        }
    }

    // ---- rows

    // What did not come up is told, and counts as a difference.
    fn came_up(&mut self, name: &str, i: usize, n: u64) {
        if n == 0 {
            self.counts.differences = self.counts.differences.wrapping_add(1);
            let _ = println!(self.rt; "{name} did not come up: {i}");
        }
    }

    fn all_came_up(&mut self, name: &str, counts: &[u64]) {
        for (i, n) in counts.iter().enumerate() {
            self.came_up(name, i, *n);
        }
    }

    fn numbers_came_up(&mut self, name: &str, numbers: &[usize], counts: &[u64]) {
        for number in numbers {
            let n = counts.get(*number).copied().unwrap_or(0);
            self.came_up(name, *number, n);
        }
    }

    pub fn counts_said(&mut self) {
        let c = self.counts;
        self.numbers_came_up(
            "a store's number",
            &[0, 1, 3, 5, 8, 11, 16, 18],
            &c.store_numbers,
        );
        self.numbers_came_up("a lookup's number", &[0, 1, 3, 5, 17], &c.lookup_numbers);
        self.all_came_up("a sort of chip", &c.chips);
        self.all_came_up("a sort of list", &c.lists);
        self.all_came_up("a number of cleared marks", &c.cleared);
        let values = c.values;
        let stores = c.stores;
        let _ = print!(self.rt; "the paper's values: {values}\nstored by both: {stores}");
        say_numbers(self.rt, &c.store_numbers);
        let lookups = c.lookups;
        let _ = print!(self.rt; "looked up by both: {lookups}");
        say_numbers(self.rt, &c.lookup_numbers);
        let cuts = c.cuts;
        let chips = kinds(&c.chips);
        let lists = kinds(&c.lists);
        let cleared = kinds(&c.cleared);
        let differences = self.counts.differences;
        let _ = println!(self.rt; "power cuts between: {cuts}");
        let _ = print!(self.rt; "of the runs: chips {chips} kinds, lists {lists} kinds, ");
        let _ = println!(self.rt; "done stores by the marks that they cleared {cleared} kinds");
        let _ = println!(self.rt; "{differences} differences");
    }
}
