// What becomes of the bench where a line saves, loads or compares a file. The program reads and writes; what it said of the file, and the bytes that came, are
// given here. specs/Posts.antt.
#![tactic(auto)]

ghost use Rattle.std.specs.Prelude.{◌≡◌, length};
ghost use Rattle.rules.specs.Blocks.{array_size_lem};
ghost use Rattle.standing.specs.Benches.{front};
ghost use Rattle.raw_image.specs.Raw.{raw_number};
ghost use Rattle.posting.specs.Posts.{post_of, judged, ended, untouched, RawLoaded, raw_compared};

use expecting::Verdict;
use image::Fault;
use raw_image::Difference;
use standing::{Bench, Deed, Playing, Post};

// Why the system refused a file.
#[derive(Clone, Copy)]
pub enum Trouble {
    // there is no such file; that is not permitted; it cannot be opened
    Missing,
    Denied,
    Unopened,
    // it cannot be read to its end
    Unread,
    // it cannot be written: there is no such folder; that is not permitted; for another reason; the name beside it is taken
    Folderless,
    Forbidden,
    Unwritten,
    Taken,
}

// What is told of it: why the system refused it, how many bytes it has, what is wrong with it first, and in what it differs.
#[derive(Clone, Copy)]
pub struct Report {
    pub trouble: Option<Trouble>,
    pub length: usize,
    pub fault: Option<Fault>,
    pub difference: Option<Difference>,
}

#[derive(Clone, Copy)]
pub struct Carried {
    pub playing: Playing,
    pub report: Report,
}

// ---- what a line asks for

// What the line that ended last does with a file, if it names one.
pub fn asked(p: Playing) -> Option<Post>
    ensures { result ≡ post_of p }
{
    let reading = p.reading;
    if !reading.ended {
        return None;
    }
    match standing::deed_of(script::line_of(reading).verb) {
        Deed::Post(f) => Some(f),
        _ => None,
    }
}

// ---- what it comes to

// A file line is no event. That another number came than the line expects (0 where it says none), that the system refused, or that bytes differ is a difference.
#[tactic(auto, unfolding(crate::specs::Posts::judged))]
pub fn judge(p: Playing, t: Option<Trouble>, number: u8, differs: bool) -> Playing
    ensures { result ≡ judged p t number differs }
{
    let slots = script::line_of(p.reading).slots;
    let unmet = t.is_some() | (u64::from(number) != slots[6]);
    let tally = tallies::with_unmet(p.bench.tally, u64::from(unmet | differs));
    Playing {
        bench: Bench { tally, ..p.bench },
        number,
        verdict: Verdict {
            number: unmet,
            ..Verdict::default()
        },
        held: 0,
        ..p
    }
}

// A file of so many bytes was written, or none was.
pub fn end(p: Playing, t: Option<Trouble>, number: u8, length: usize) -> Carried
    ensures { result ≡ ended p t number length }
{
    let playing = judge(p, t, number, false);
    let report = Report {
        trouble: t,
        length,
        fault: None,
        difference: None,
    };
    Carried { playing, report }
}

// The line has no file.
pub fn nothing(p: Playing) -> Carried
    ensures { result ≡ untouched p }
{
    let report = Report {
        trouble: None,
        length: 0,
        fault: None,
        difference: None,
    };
    Carried { playing: p, report }
}

// ---- raw files

// Whether the array that is lent can be saved.
pub fn raw_number(p: Playing, array: &[u8]) -> u8
    ensures { result ≡ raw_number (length (front p.bench.array array.now)) array_size_lem }
{
    let bench = p.bench;
    let a = bench.array.min(array.len());
    image::number(raw_image::sized(a, 2097152))
}

// The array that is lent becomes the file.
pub fn load_raw(p: Playing, array: &mut [u8], file: &[u8]) -> Carried
    ensures { RawLoaded p array.old file.now result array.new }
{
    let bench = p.bench;
    let a = bench.array.min(array.len());
    let number = image::number(raw_image::load(&mut array[..a], file));
    end(p, None, number, file.len())
}

pub fn compare_raw(p: Playing, array: &[u8], file: &[u8]) -> Carried
    ensures { result ≡ raw_compared p array.now file.now }
{
    let bench = p.bench;
    let a = bench.array.min(array.len());
    let part = &array[..a];
    let number = image::number(raw_image::sized(part.len(), file.len()));
    let difference = raw_image::compare(part, file);
    let playing = judge(p, None, number, difference.is_some());
    let report = Report {
        trouble: None,
        length: file.len(),
        fault: None,
        difference,
    };
    Carried { playing, report }
}
