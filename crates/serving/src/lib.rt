// A serprog session, byte by byte: a command is heard, and answered once its last byte has come. specs/ has the rules; nothing here reads or writes.
#![tactic(auto)]

ghost use Rattle.std.specs.Prelude.{◌≡◌, min, length, get_or};
ghost use Rattle.memory.specs.Patched.{Patched};
ghost use Rattle.serving.specs.Sessions.{begun, answer_to, Operated, Done, Taken};

use hearing::{Due, Heard};
use operating::Bench;
use rules::Chip;

// The bench, the command half heard, and how many bytes of the answer are to be written now.
#[derive(Clone, Copy)]
pub struct Serving {
    pub bench: Bench,
    pub heard: Heard,
    pub written: usize,
}

// A chip, and no command.
pub fn start(c: Chip, disguise: bool) -> Serving
    ensures { result ≡ begun c disguise }
{
    Serving {
        bench: operating::bench_of(c, disguise),
        heard: hearing::listening(),
        written: 0,
    }
}

// The answer to the command stands in front; it gives back how long it is.
fn answered(h: Heard, answer: &mut [u8]) -> usize
    ensures { (result ≡ (answer_to h).count) × Patched answer.new answer.old 0 (min (answer_to h).count (length answer.old)) (λ i. get_or (answer_to h).bytes i 0) }
{
    let a = serprog::answer_to(h.command, &h.given);
    let n = a.count.min(answer.len());
    answer[..n].copy_from_slice(&a.bytes[..n]);
    a.count
}

// The operation that was heard, with the bytes that were sent.
fn operated(
    h: Heard,
    b: Bench,
    array: &mut [u8],
    security: &mut [u8],
    sent: &[u8],
    answer: &mut [u8],
    marks: &mut [u8],
) -> Serving
    ensures { Operated h b array.old security.old sent.now answer.old marks.old result array.new security.new answer.new marks.new }
{
    let p = h.given;
    let send = serprog::length_of(p[0], p[1], p[2]).min(sent.len());
    let receive = serprog::length_of(p[3], p[4], p[5]).min(65536);
    let n = (receive + 1).min(answer.len());
    let m = receive.min(marks.len());
    let bench = operating::answer_operation(
        b,
        array,
        security,
        &sent[..send],
        &mut answer[..n],
        &mut marks[..m],
    );
    Serving {
        bench,
        heard: h,
        written: receive + 1,
    }
}

// What is due.
fn done(
    due: Option<Due>,
    h: Heard,
    bench: Bench,
    array: &mut [u8; 2097152],
    security: &mut [u8; 2048],
    sent: &[u8; 65536],
    answer: &mut [u8; 65537],
    marks: &mut [u8; 65536],
) -> Serving
    ensures { Done due h bench array.old security.old sent.now answer.old marks.old result array.new security.new answer.new marks.new }
{
    match due {
        None => Serving {
            bench,
            heard: h,
            written: 0,
        },
        Some(Due::Answer) => Serving {
            bench,
            heard: h,
            written: answered(h, answer),
        },
        Some(Due::Operation) => operated(h, bench, array, security, sent, answer, marks),
    }
}

// One byte of the session; then so many bytes of the answer as it says are to be written.
pub fn take(
    s: Serving,
    b: u8,
    array: &mut [u8; 2097152],
    security: &mut [u8; 2048],
    sent: &mut [u8; 65536],
    answer: &mut [u8; 65537],
    marks: &mut [u8; 65536],
) -> Serving
    ensures { Taken s b array.old security.old sent.old answer.old marks.old result array.new security.new sent.new answer.new marks.new }
{
    hearing::keep(s.heard, b, sent);
    let next = hearing::heard_with(s.heard, b);
    done(
        next.due, next, s.bench, array, security, sent, answer, marks,
    )
}
