// The rows of a line that saves, loads or compares a file. specs/Posts.antt.
#![tactic(auto)]

mod heads;
mod whys;

ghost use Rattle.std.specs.Prelude.{◌≡◌};
ghost use Rattle.post_rows.specs.Posts.{part_row, row_of};

use ordering::{Part, Place};
use posting::Report;
use rows::Row;
use standing::{Playing, Post};

// A part's row: its first one, what finds no room there, the number's words, and why.
fn part_row(part: Part, p: Playing, f: Post, r: Report, name: &[u8]) -> Row
    ensures { result ≡ part_row part p f r name.now }
{
    let bench = p.bench;
    let before = p.before;
    let ba = bench.chip.rest.flags.ba;
    match part {
        Part::Head => heads::head(bench.line, f, ba, p.number, r, name),
        Part::Second => heads::second(bench.line, f, ba, p.number, r, name),
        Part::Number => whys::number(r.trouble, p.number),
        Part::Why => whys::why(f, bench.array, bench.security, before, p.number, r),
        _ => rows::empty(),
    }
}

// A row of what is told of the line that was played, where that line has a file.
pub fn row(p: Playing, r: Report, at: Place, frame: &[u8]) -> Row
    ensures { result ≡ row_of p r at frame.now }
{
    let reading = p.reading;
    let l = script::line_of(reading);
    let n = l.sent.min(frame.len());
    match posting::asked(p) {
        None => rows::empty(),
        Some(f) => part_row(at.part, p, f, r, &frame[..n]),
    }
}
