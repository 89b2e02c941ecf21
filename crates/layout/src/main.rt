// Compares the record's numbers and the station list's in the C header and in the Rust wrapper with their definitions: each line that they must have is
// looked for. Both files lie in data/, all that a program of the gate can read; include/ and examples/rust have links to them.
#![tactic(auto)]

mod numbers;
mod texts;

use filing::say;
use std::fs;
use writing::Row;

// The language of a file.
#[derive(Clone, Copy)]
enum Language {
    C,
    Rust,
}

// How often the row stands in the text.
fn times(text: &[u8], r: Row) -> usize {
    let t = r.text;
    let n = texts::within(r.length, &t);
    texts::times(text, &t[..n])
}

fn begun(language: Language) -> Row {
    let r = writing::empty();
    match language {
        Language::C => r.text(b"#define FULKIBONO_"),
        Language::Rust => r.text(b"pub const "),
    }
}

// The line that gives number i its name.
fn line(i: usize, language: Language) -> Row {
    let r = numbers::named(begun(language), i);
    match language {
        Language::C => r.pad(1).size(numbers::number(i)).pad(1),
        Language::Rust => numbers::typed(r, i).size(numbers::number(i)).text(b";"),
    }
}

fn told<P: Print>(to: &P, r: Row) {
    let t = r.text;
    let n = texts::within(r.length, &t);
    say(to, &t[..n]);
    say(to, b"\n");
}

// A line that does not stand there once is told.
fn line_wrong<P: Print>(to: &P, text: &[u8], i: usize, language: Language) -> bool {
    let r = line(i, language);
    if times(text, r) == 1 {
        return false;
    }
    told(to, r);
    true
}

fn lines_wrong<P: Print>(to: &P, text: &[u8], language: Language) -> bool {
    let mut wrong = false;
    for i in 0..numbers::COUNT {
        wrong |= line_wrong(to, text, i, language);
    }
    wrong
}

// There is a name of the sort that is none of the layout's.
fn names_wrong(text: &[u8], language: Language, sort: &str) -> bool {
    let found = times(text, begun(language).text(sort.as_bytes()));
    found != numbers::names(sort)
}

fn compared(rt: &HostRuntime, name: &str, language: Language) {
    // A file that cannot be read has no line.
    let text = fs::read(rt, name).unwrap_or(Vec::new(rt.alloc()));
    let lines = lines_wrong(rt, text.as_slice(), language);
    let others = ["PLACE_", "KIND_", "FLAG_", "STATION_"]
        .iter()
        .any(|sort| names_wrong(text.as_slice(), language, *sort));
    say(rt, name.as_bytes());
    if lines {
        say(rt, b" lacks the lines above, which the definitions have\n");
        return;
    }
    if others {
        say(rt, b" has more names than the definitions\n");
        return;
    }
    say(
        rt,
        b" has the numbers of record_code's layout and of the station list\n",
    );
}

fn main(rt: HostRuntime) {
    compared(&rt, "fulkibono.h", Language::C);
    compared(&rt, "record.rs", Language::Rust);
}
