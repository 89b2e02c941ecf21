// What is said on standard error.
use crate::Failure;
use filing::front_written;
use rules::Chip;
use std::io;
use std::io::Write;
use writing::Row;

pub fn say(rt: &HostRuntime, text: &[u8]) {
    let _ = rt.stderr().write_all(text);
}

// A name, and what is said of it.
pub fn told(rt: &HostRuntime, name: &[u8], text: &[u8]) {
    say(rt, b"programmer: ");
    say(rt, name);
    say(rt, text);
    say(rt, b"\n");
}

// Which part a session's chip is, and whether that is the part in its file.
pub fn part_told(rt: &HostRuntime, c: Chip, kept: bool, name: &[u8]) {
    let rest = c.rest;
    say(rt, b"programmer: part ");
    if rest.flags.ba {
        say(rt, b"SST26WF016BA: ");
    } else {
        say(rt, b"SST26WF016B, the old one: ");
    }
    if kept {
        say(rt, b"the chip in ");
        say(rt, name);
    } else {
        say(rt, b"a new chip");
    }
    say(rt, b"\n");
}

// The error's words, without the number that std puts behind them.
fn say_error(rt: &HostRuntime, e: io::Error) {
    let mut text = [0u8; 320];
    let mut room = text.as_mut_slice();
    let _ = write!(room, "{e}");
    let left = room.len();
    let n = text.len().saturating_sub(left);
    let words = std::str::from_utf8(&text[..n]).unwrap_or("");
    let shown = match words.split_once(" (os error ") {
        Some((front, _)) => front,
        None => words,
    };
    say(rt, shown.as_bytes());
}

// A failure, with what the system says of it.
pub fn broken(rt: &HostRuntime, name: &[u8], e: io::Error) -> Failure {
    say(rt, b"programmer: ");
    say(rt, name);
    say(rt, b": ");
    say_error(rt, e);
    say(rt, b"\n");
    Failure
}

// A failure, with the number and what is wrong.
pub fn refused(rt: &HostRuntime, name: &[u8], number: u64, why: Row) -> Failure {
    say(rt, b"programmer: ");
    say(rt, name);
    say(rt, b" is refused, ");
    let _ = rt.eprint(number);
    say(rt, b", and nothing is served:\n");
    let text = why.text;
    front_written(&mut rt.stderr(), &text, why.length);
    say(rt, b"\n");
    Failure
}
