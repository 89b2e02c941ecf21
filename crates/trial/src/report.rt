// What came up in the random lines: a kind that came up less than a hundred times is named, and so the output differs from the expected one.
use comparing::Odd;
use comparing::bytes::front;
use drawing::{at, bump};
use filing::say;
use grammar::Verb;
use script::Line;
use second::Flat;
use standing::Playing;
use std::env::Env;

// What is counted, where it is of each part first the old one, then BA: frames by opcode; done ones; events by number, by what runs, by what is suspended, by what
// runs beside that; burst reads by their length; runs by how they begin; the checklist's lines; resets and power cuts by what they stop.
#[derive(Drop)]
pub struct Tally {
    sent: [u64; 256],
    done: [[u64; 256]; 2],
    numbers: [[u64; 14]; 2],
    running: [u64; 9],
    suspended: [u64; 9],
    beside: [u64; 9],
    bursts: [u64; 4],
    runs: [[u64; 2]; 4],
    lines: [u64; 82],
    resets: [u64; 9],
    cuts: [u64; 9],
}

pub fn no_counts() -> Tally {
    Tally {
        sent: [0; 256],
        done: [[0; 256]; 2],
        numbers: [[0; 14]; 2],
        running: [0; 9],
        suspended: [0; 9],
        beside: [0; 9],
        bursts: [0; 4],
        runs: [[0; 2]; 4],
        lines: [0; 82],
        resets: [0; 9],
        cuts: [0; 9],
    }
}

impl Tally {
    // A random run, by its series and the part of the chip that it begins with.
    pub fn count_run(&mut self, series: usize, ba: bool) {
        if let Some(parts) = self.runs.get_mut(series) {
            bump(parts, usize::from(ba));
        }
    }

    // An event of a random run, with the record before it.
    pub fn count_event(&mut self, before: Flat, l: Line, frame: &[u8], number: u8) {
        let part = usize::from(before.ba);
        let run_kind = usize::from(before.run_kind);
        bump(&mut self.numbers[part], usize::from(number));
        bump(&mut self.running, run_kind);
        bump(&mut self.suspended, usize::from(before.sus_kind));
        if before.sus_kind != 0 {
            bump(&mut self.beside, run_kind);
        }
        if l.verb == Verb::Cut && number == 0 {
            bump(&mut self.cuts, run_kind);
        }
        if l.sent != 0 {
            let opcode = at(frame, 0);
            bump(&mut self.sent, usize::from(opcode));
            if number == 0 {
                bump(&mut self.done[part], usize::from(opcode));
                match opcode {
                    0x99 => bump(&mut self.resets, run_kind),
                    0x0c | 0xec => bump(&mut self.bursts, usize::from(before.burst)),
                    _ => {}
                }
            }
        }
    }

    // The places behind the checklist's lines: from 90 on resets, from 100 on power cuts, by what they stop.
    fn count_numbered(&mut self, number: usize) {
        match number {
            90..=98 => bump(&mut self.resets, number - 90),
            100..=108 => bump(&mut self.cuts, number - 100),
            _ => bump(&mut self.lines, number),
        }
    }

    // The checklist's line that a case names, in front of its remark.
    pub fn count_case(&mut self, l: Line, remark: &[u8]) {
        let mut number: usize = 0;
        for b in front(l.remark, remark).iter().skip(1) {
            if !b.is_ascii_digit() {
                self.count_numbered(number);
                return;
            }
            number = number % 1000 * 10 + usize::from(*b % 16);
        }
    }
}

// ---- what is said

// How many of the kinds came up too seldom; these are named.
fn say_kinds(rt: &impl Print, tally: &[u64], kinds: &[u8], name: &str) {
    let mut seldom: u64 = 0;
    for kind in kinds {
        let n = tally.get(usize::from(*kind)).copied().unwrap_or(0);
        if n < 100 {
            let _ = println!(rt; "{name}, too seldom: {kind} came {n} times");
            seldom = seldom.wrapping_add(1);
        }
    }
    let _ = println!(rt; "{name}: {} kinds, too seldom {seldom}", kinds.len());
}

// How many lines of the checklist have no case; these are named.
fn say_untried(rt: &impl Print, lines: &[u64]) {
    let mut untried: u64 = 0;
    for (i, n) in lines.iter().enumerate().skip(1) {
        if *n == 0 {
            let _ = println!(rt; "the checklist's line without a case: {i}");
            untried = untried.wrapping_add(1);
        }
    }
    let _ = println!(rt; "checklist: lines 1 to 81, not tried: {untried}");
}

// How many runs of a series began with each part.
fn say_runs(rt: &impl Print, runs: &[u64; 2], name: &str) {
    let [old_part, ba] = runs;
    let _ = println!(rt; "{name}: old part {old_part}, BA {ba}");
}

pub fn say_counts(rt: &impl Print, tally: &Tally) {
    let opcodes =
        b"\x00\x66\x99\x38\xff\x05\x35\x72\x9f\xaf\x03\x0b\x6b\x88\x06\x04\x20\xd8\xc7\x02\x32\xa5\x85\x01\x42\xe8\x8d\x98\xb0\x30\xc0\x0c\xec";
    let numbers = &[0, 1, 2, 3, 4, 5, 6, 7, 8, 9, 10, 11, 12, 13];
    let stopped = &[1, 2, 3, 4, 5, 6, 7, 8];
    say_untried(rt, &tally.lines);
    say_kinds(rt, &tally.sent, opcodes, "opcodes sent");
    say_kinds(rt, &tally.done[0], opcodes, "opcodes done, old part");
    say_kinds(rt, &tally.done[1], opcodes, "opcodes done, BA");
    say_kinds(rt, &tally.numbers[0], numbers, "numbers, old part");
    say_kinds(rt, &tally.numbers[1], numbers, "numbers, BA");
    say_kinds(
        rt,
        &tally.running,
        &[0, 1, 2, 3, 4, 5, 6, 7, 8],
        "running work",
    );
    say_kinds(rt, &tally.suspended, &[0, 1, 2, 4], "suspended work");
    say_kinds(
        rt,
        &tally.beside,
        &[0, 1, 2, 4, 5],
        "work beside a suspension",
    );
    say_kinds(rt, &tally.bursts, &[0, 1, 2, 3], "burst reads");
    say_kinds(rt, &tally.resets, stopped, "work stopped by a reset");
    say_kinds(rt, &tally.cuts, stopped, "work stopped by a power cut");
    say_runs(rt, &tally.runs[0], "runs from new chips");
    say_runs(rt, &tally.runs[1], "runs from records");
    say_runs(rt, &tally.runs[2], "runs from broken records");
    say_kinds(
        rt,
        tally.runs.as_flattened(),
        &[0, 1, 2, 3, 4, 5],
        "runs by part",
    );
}

// ---- a line

// What of a script is not as it should be: expectations that are not met, wrong lines.
pub fn unmet(p: Playing) -> u64 {
    let t = p.bench.tally;
    t.differences.wrapping_add(t.wrong)
}

pub fn events(p: Playing) -> u64 {
    p.bench.tally.events
}

// In what the models differ.
fn say_odd(rt: &impl Print, odd: Odd) {
    say(rt, b"the models differ:");
    let named = [
        (odd.number, " number"),
        (odd.record, " record"),
        (odd.reply, " reply"),
        (odd.marks, " marks"),
        (odd.array, " array"),
        (odd.security, " Security ID"),
    ];
    for (differs, name) in named {
        if differs {
            say(rt, name.as_bytes());
        }
    }
    say(rt, b"\n");
}

// The argument of this number.
pub fn say_word(rt: &(impl Env + Print), i: usize) {
    let mut name = [0; 4096];
    if let Ok(n) = rt.arg(i, &mut name) {
        say(rt, &name[..n]);
    }
}

fn say_place(rt: &(impl Env + Print), word: usize, line: u64) {
    say(rt, b"# ");
    say_word(rt, word);
    let _ = print!(rt; ":{line}: ");
}

// What is wrong after a line of the script that an argument names.
pub fn say_line(rt: &(impl Env + Print), word: usize, line: u64, unmet: bool, odd: Odd) {
    if unmet {
        say_place(rt, word, line);
        say(rt, b"not what it expects\n");
    }
    if odd != Odd::default() {
        say_place(rt, word, line);
        say_odd(rt, odd);
    }
}
