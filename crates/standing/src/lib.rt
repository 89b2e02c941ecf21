// The bench between two lines of a script: what a line asks for, where a script begins, and where its next line does.
#![tactic(auto)]

mod deeds;

ghost use Rattle.std.specs.Prelude.{◌≡◌};
ghost use Rattle.standing.specs.Benches.{begun, with_reading, with_bench, next_line, wrong_counted};
ghost use Rattle.standing.specs.Expected.{number_expected, reply_expected, expectation};

pub use chip::Event;
pub use deeds::deed_of;
use expecting::{Expectation, Expected, Verdict};
use rules::Chip;
use script::Reading;
use tallies::Tally;

// What a line asks for.
#[derive(Clone, Copy)]
pub enum Deed {
    Nothing,
    Event(Event),
    Setting(Setting),
    Question(Question),
    Post(Post),
    Call(Call),
    Wrong,
}

#[derive(Clone, Copy)]
pub enum Setting {
    New,
    Fill,
    Pattern,
    Buffer,
    Lend,
    Record,
    Full,
    Short,
    Strict,
}

#[derive(Clone, Copy)]
pub enum Question {
    Status,
    Work,
    Locks,
    Dump,
    Is,
}

// What is done with a file.
#[derive(Clone, Copy)]
pub enum Post {
    Save,
    Load,
    SaveRaw,
    LoadRaw,
    CompareRaw,
}

// What is done with the station list.
#[derive(Clone, Copy)]
pub enum Call {
    Store,
    Find,
    Stations,
}

// The bench between two lines.
#[derive(Clone, Copy)]
pub struct Bench {
    pub chip: Chip,
    pub tally: Tally,
    // lines so far
    pub line: u64,
    // how many bytes of the memories are lent
    pub array: usize,
    pub security: usize,
    // long replies are shown in full
    pub full: bool,
    // a refusal that no line expects is a difference
    pub strict: bool,
}

// The bench, the line half read, and what the last line came to.
#[derive(Clone, Copy)]
pub struct Playing {
    pub bench: Bench,
    pub reading: Reading,
    // the record before the line, the number that came, and what is not met. A number of the papers and no error: a line says one, of a chip, a file or the store
    pub before: Chip,
    pub number: u8,
    pub verdict: Verdict,
    // of a question with expected bytes: the first place that holds another, or as many as were compared (`First` of expecting says it so)
    pub held: usize,
}

// Nothing of a script is read.
pub fn start(strict: bool) -> Playing
    ensures { result ≡ begun strict }
{
    let chip = chip::new();
    Playing {
        bench: Bench {
            chip,
            tally: tallies::no_events(),
            line: 0,
            array: 2097152,
            security: 2048,
            full: false,
            strict,
        },
        reading: script::start(),
        before: chip,
        number: 0,
        verdict: Verdict::default(),
        held: 0,
    }
}

pub fn with_reading(p: Playing, reading: Reading) -> Playing
    ensures { result ≡ with_reading p reading }
{
    Playing { reading, ..p }
}

pub fn with_bench(p: Playing, bench: Bench) -> Playing
    ensures { result ≡ with_bench p bench }
{
    Playing { bench, ..p }
}

// The next line of the script begins: nothing came of it yet.
pub fn next_line(p: Playing) -> Playing
    ensures { result ≡ next_line p }
{
    Playing {
        bench: Bench {
            line: p.bench.line.wrapping_add(1),
            ..p.bench
        },
        before: p.bench.chip,
        number: 0,
        verdict: Verdict::default(),
        held: 0,
        ..p
    }
}

pub fn wrong(p: Playing) -> Playing
    ensures { result ≡ wrong_counted p }
{
    let tally = tallies::with_wrong_line(p.bench.tally);
    with_bench(p, Bench { tally, ..p.bench })
}

// ---- what a line expects

fn number_expected(slots: [u64; 24]) -> Option<u64>
    ensures { result ≡ number_expected slots }
{
    if slots[5] == 0 { None } else { Some(slots[6]) }
}

fn reply_expected(slots: [u64; 24], count: usize) -> Expected
    ensures { result ≡ reply_expected slots count }
{
    match slots[4] {
        1 => Expected::Bytes(count),
        2 => Expected::Kept,
        _ => Expected::Nothing,
    }
}

// What a line with these slots expects, where `count` bytes stand after its `=`.
pub fn expectation(slots: [u64; 24], count: usize) -> Expectation
    ensures { result ≡ expectation slots count }
{
    Expectation {
        number: number_expected(slots),
        reply: reply_expected(slots, count),
    }
}
