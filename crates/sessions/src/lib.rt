// The bytes of a session: each is taken as it comes, and what is due then is written before the next one is read. A part of the program `programmer`, safe and
// ending.
#![tactic(auto)]

ghost use Rattle.std.specs.Prelude.{◌≤◌, length};

use rules::Chip;
use serving::Serving;
use std::io::{Read, Write};

// The session, and whether it is over: no byte comes any more, or nobody takes an answer.
#[derive(Clone, Copy)]
struct Desk {
    now: Serving,
    over: bool,
}

// In one write, since a socket may hold a second one back.
fn written<W: Write>(to: &mut W, answer: &[u8; 65537], n: usize) -> bool {
    if n == 0 {
        return true;
    }
    filing::front_written(to, answer, n)
}

// How many bytes come; none where they end, or cannot be read.
fn came<R: Read>(from: &mut R, input: &mut [u8]) -> usize
    ensures { result ≤ length input.new }
{
    from.read(input).unwrap_or(0)
}

// Each byte that came, up to an answer that nobody takes; with none the session is over.
fn taken<W: Write>(
    to: &mut W,
    start: Desk,
    came: &[u8],
    array: &mut [u8; 2097152],
    security: &mut [u8; 2048],
    sent: &mut [u8; 65536],
    answer: &mut [u8; 65537],
    marks: &mut [u8; 65536],
) -> Desk {
    let mut d = Desk {
        over: came.is_empty(),
        ..start
    };
    for b in came {
        d.now = serving::take(d.now, *b, array, security, sent, answer, marks);
        d.over = !written(to, answer, d.now.written);
        if d.over {
            break;
        }
    }
    d
}

// A proved loop has to end, and nothing says that an input does: so it counts its turns, up to a number that no session reaches.
fn turned<R: Read, W: Write>(
    from: &mut R,
    to: &mut W,
    start: Desk,
    input: &mut [u8; 65536],
    array: &mut [u8; 2097152],
    security: &mut [u8; 2048],
    sent: &mut [u8; 65536],
    answer: &mut [u8; 65537],
    marks: &mut [u8; 65536],
) -> Desk {
    let mut d = start;
    for _ in 0..u64::MAX {
        if d.over {
            break;
        }
        let n = came(from, input);
        d = taken(to, d, &input[..n], array, security, sent, answer, marks);
    }
    d
}

// A session on a chip; the chip that it leaves, with what ran at its end done.
pub fn serve<R: Read, W: Write>(
    from: &mut R,
    to: &mut W,
    c: Chip,
    disguise: bool,
    array: &mut [u8; 2097152],
    security: &mut [u8; 2048],
) -> Chip {
    let mut input = [0u8; 65536];
    let mut sent = [0u8; 65536];
    let mut answer = [0u8; 65537];
    let mut marks = [0u8; 65536];
    let start = Desk {
        now: serving::start(c, disguise),
        over: false,
    };
    let d = turned(
        from,
        to,
        start,
        &mut input,
        array,
        security,
        &mut sent,
        &mut answer,
        &mut marks,
    );
    operating::at_end(d.now.bench, array, security)
}
