// Where the lines come from: the scripts that the arguments name, one after the other, then random lines. A script is read in parts; a
// random line is made when the one before it has been played, since what comes up goes by the chip's state.
use crate::report::{self, Tally, say_word};
use comparing::bytes::front;
use comparing::{Odd, Plant};
use drawing::at;
use drawing::dice::{once_in, seed_of};
use drawing::source::Forms;
use filing::say;
use standing::Playing;
use std::env::{Env, FillError};
use std::fs::File;
use std::io::Read;

// What comes next.
#[derive(Clone, Copy, PartialEq, Eq)]
enum Phase {
    // another argument
    Next,
    // a part of a script
    Part,
    // what a script's end asks
    Ended,
    // a file of forms
    Forms,
    // a random line
    Random,
    // nothing
    Over,
}

// A series of random runs: from new chips, from records, from broken records, and a short run with a planted difference.
#[derive(Clone, Copy, PartialEq, Eq)]
enum Series {
    New,
    Records,
    Broken,
    Planted,
}

impl Series {
    // How many runs it has: each broken record comes a hundred times.
    fn runs(self, broken: u64) -> u64 {
        match self {
            Series::New => 250,
            Series::Records => 800,
            Series::Broken => broken % 1000 * 100,
            Series::Planted => 1,
        }
    }

    // How many forms come in a run behind the one with which it begins.
    fn forms(self) -> u64 {
        match self {
            Series::New => 100,
            Series::Records => 20,
            Series::Broken | Series::Planted => 3,
        }
    }
}

#[derive(Drop)]
pub struct Feed {
    phase: Phase,
    // the argument
    pub word: usize,
    // it names the forms of random lines
    pub random: bool,
    // no line of it is played yet
    fresh: bool,
    // the difference that is planted
    pub plant: Option<Plant>,
    // what is read, and what came of it last; how many bytes that are, and how many of them are taken
    file: Option<File>,
    input: [u8; 65536],
    came: usize,
    taken: usize,
    // the memories are compared after the lines that came
    whole: bool,
    // of random lines: their forms, the series, the run in it, the form in that, how many differences there were before it, and whether it is printed
    forms: Forms,
    series: Series,
    run: u64,
    line: u64,
    seen: u64,
    printed: bool,
    // of this script or of all random lines: cases, and lines after which the models differ
    cases: u64,
    odd: u64,
    // how often the memories were compared
    compared: u64,
    // of all of them
    events: u64,
    differences: u64,
}

impl Feed {
    pub fn new() -> Feed {
        Feed {
            phase: Phase::Next,
            word: 0,
            random: false,
            fresh: true,
            plant: None,
            file: None,
            input: [0; 65536],
            came: 0,
            taken: 0,
            whole: false,
            forms: Forms::new(),
            series: Series::New,
            run: 0,
            line: 0,
            seen: 0,
            printed: false,
            cases: 0,
            odd: 0,
            compared: 0,
            events: 0,
            differences: 0,
        }
    }

    pub fn is_over(&self) -> bool {
        self.phase == Phase::Over
    }

    // The next of the bytes that came.
    pub fn take(&mut self) -> Option<u8> {
        if self.came <= self.taken {
            return None;
        }
        let b = at(&self.input, self.taken);
        self.taken = self.taken.wrapping_add(1);
        Some(b)
    }

    fn enter(&mut self, phase: Phase, came: usize) {
        self.phase = phase;
        self.came = came;
        self.taken = 0;
    }

    // After a line in which the models differ or not.
    pub fn count_line(&mut self, odd: Odd) {
        if self.is_whole() {
            self.compared = self.compared.wrapping_add(1);
        }
        if odd != Odd::default() {
            self.odd = self.odd.wrapping_add(1);
        }
    }

    pub fn count_case(&mut self) {
        self.cases = self.cases.wrapping_add(1);
    }

    // A script's own lines are counted from its first one on; whether they begin now.
    pub fn starts(&mut self) -> bool {
        let fresh = self.fresh;
        if fresh {
            self.fresh = false;
            self.cases = 0;
            self.odd = 0;
            self.compared = 0;
        }
        fresh
    }

    // After this line the memories are compared: after every line of a script, of random ones now and then and at the end of a run.
    pub fn is_whole(&self) -> bool {
        !self.random || self.whole && self.taken == self.came
    }

    // Lines that are wrong are told one by one.
    pub fn shows(&self) -> bool {
        if self.random {
            self.printed
        } else {
            self.plant.is_none()
        }
    }

    // What is not as it should be, in this script or in all random lines.
    fn differences_now(&self, now: Playing) -> u64 {
        self.odd.wrapping_add(report::unmet(now))
    }

    fn add(&mut self, now: Playing) {
        self.events = self.events.wrapping_add(report::events(now));
        self.differences = self.differences.wrapping_add(self.differences_now(now));
    }

    // What is said of a script or of all random lines.
    fn say_row(&self, rt: &impl Print, now: Playing) {
        let events = report::events(now);
        let differences = self.differences_now(now);
        let _ = print!(rt;
            "{events} events, memories compared {} times",
            self.compared
        );
        let _ = println!(rt; ", {differences} differences");
    }

    // ---- arguments

    // A script begins with a new chip and blank memories.
    fn open(&mut self, rt: &HostRuntime, name: &[u8]) {
        self.file = filing::opened(rt, name).ok();
        self.cases = 0;
        self.odd = 0;
        self.fresh = true;
        if self.file.is_none() {
            say(rt, name);
            say(rt, b" cannot be opened\n");
            self.differences = self.differences.wrapping_add(1);
        } else if self.random {
            self.enter(Phase::Forms, 0);
        } else {
            self.input[..4].copy_from_slice(b"new\n");
            self.enter(Phase::Part, 4);
        }
    }

    fn read_word(&mut self, rt: &HostRuntime, name: &[u8]) {
        self.enter(Phase::Next, 0);
        match name {
            b"--planted" => self.plant = Some(Plant::Number),
            b"--random" => self.random = true,
            _ => self.open(rt, name),
        }
    }

    // One that is too long names no file.
    fn read_argument(&mut self, rt: &HostRuntime, tally: &Tally) {
        self.word = self.word.wrapping_add(1);
        let mut name = [0; 4096];
        match rt.arg(self.word, &mut name) {
            Ok(n) => self.read_word(rt, &name[..n]),
            Err(FillError::TooLong) => self.read_word(rt, b""),
            Err(FillError::NotPresent) => {
                report::say_counts(rt, tally);
                let _ = print!(rt; "{} events compared, ", self.events);
                let _ = println!(rt; "{} differences", self.differences);
                self.enter(Phase::Over, 0);
            }
        }
    }

    // ---- scripts

    // A file that cannot be read ends there.
    fn read_part(&mut self) {
        let n = match &mut self.file {
            Some(file) => file.read(&mut self.input).unwrap_or(0),
            None => 0,
        };
        if n == 0 {
            self.input[0] = b'\n';
            self.enter(Phase::Ended, 1);
        } else {
            self.enter(Phase::Part, n);
        }
    }

    // Its row; with a planted difference it is played once more for each comparison, and counts for nothing else.
    fn end(&mut self, rt: &HostRuntime, now: Playing) {
        self.file = None;
        say_word(rt, self.word);
        if let Some(plant) = self.plant {
            let _ = print!(rt; ", {plant}");
        }
        let _ = print!(rt; ": {} cases, ", self.cases);
        self.say_row(rt, now);
        self.enter(Phase::Next, 0);
        match self.plant {
            None => self.add(now),
            Some(plant) => {
                self.plant = plant.next();
                if self.plant.is_some() {
                    self.word = self.word.wrapping_sub(1);
                }
            }
        }
    }

    // ---- random lines

    // The forms of a file.
    fn read_forms(&mut self) {
        let n = match &mut self.file {
            Some(file) => filing::read_full(file, &mut self.forms.text).unwrap_or(0),
            None => 0,
        };
        self.file = None;
        self.forms.enter(n);
        self.enter(Phase::Random, 0);
        self.series = Series::New;
        self.run = 0;
        self.line = 0;
        self.seen = 0;
    }

    // The next series; the last one has a planted difference, and counts for nothing.
    fn next_series(&mut self, rt: &HostRuntime, now: Playing) {
        self.run = 0;
        match self.series {
            Series::New => self.series = Series::Records,
            Series::Records => self.series = Series::Broken,
            Series::Broken => {
                say_word(rt, self.word);
                say(rt, b": ");
                self.say_row(rt, now);
                self.add(now);
                self.plant = Some(Plant::Record);
                self.series = Series::Planted;
            }
            Series::Planted => {
                self.random = false;
                self.plant = None;
                self.enter(Phase::Next, 0);
            }
        }
    }

    // The next run; or the same one again, printed as a script, where it had a difference.
    fn next_run(&mut self, rt: &HostRuntime, now: Playing) {
        let before = self.seen;
        self.line = 0;
        self.seen = self.differences_now(now);
        if before != self.seen && !self.printed {
            let _ = print!(rt; "# a difference in series {}", self.series as u64);
            let _ = println!(rt; ", run {}", self.run);
            self.printed = true;
            return;
        }
        self.printed = false;
        self.run = self.run.wrapping_add(1);
        if self.run >= self.series.runs(self.forms.total(b'x')) {
            self.next_series(rt, now);
        }
    }

    // How a run begins, or what comes in it; how many bytes they have.
    fn put_form(&mut self, seed: u64, sqi: bool) -> usize {
        let input = &mut self.input;
        match (self.series, self.line) {
            (Series::Broken, 0) => self.forms.put_nth(input, seed, b'x', self.run / 100),
            (Series::Broken, _) => self.forms.put_any(input, seed, sqi, b'y'),
            (Series::Records, 0) => self.forms.put_any(input, seed, false, b'r'),
            (_, 0) => self.forms.put_any(input, seed, false, b'n'),
            _ => self.forms.put_any(input, seed, sqi, b'a'),
        }
    }

    fn draw(&mut self, rt: &HostRuntime, now: Playing, tally: &mut Tally) {
        let flags = now.bench.chip.rest.flags;
        // Of which part the chip is that a run began with: it keeps it.
        if self.line == 1 && !self.printed {
            tally.count_run(self.series as usize, flags.ba);
        }
        let last = self.series.forms();
        if last < self.line {
            self.next_run(rt, now);
            return;
        }
        let seed = seed_of(seed_of(self.series as u64, self.run), self.line);
        let n = self.put_form(seed, flags.sqi);
        if self.printed {
            say(rt, front(n, &self.input));
        }
        self.enter(Phase::Random, n);
        self.whole = once_in(seed, 4, 32) || self.line == last && self.series != Series::Broken;
        self.line = self.line.wrapping_add(1);
    }

    // ---- more bytes

    // What follows the bytes that are taken.
    pub fn more(&mut self, rt: &HostRuntime, now: Playing, tally: &mut Tally) {
        match self.phase {
            Phase::Next => self.read_argument(rt, tally),
            Phase::Part => self.read_part(),
            Phase::Ended => self.end(rt, now),
            Phase::Forms => self.read_forms(),
            Phase::Random => self.draw(rt, now, tally),
            Phase::Over => {}
        }
    }
}
