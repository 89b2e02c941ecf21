// Scripts from files and from standard input: each on a new chip, with counts of its own.
ghost use Rattle.std.specs.Prelude.{◌≤◌, length};

use crate::posts::{EACCES, ENOENT, carried};
use calling::Account;
use filing::say;
use ordering::Place;
use posting::Report;
use standing::Playing;
use std::env::Env;
use std::io;
use std::io::Read;
use std::rt::Files;
use tallies::Tally;
use telling::Argument;
use writing::Row;

// How scripts are played, and what they came to.
#[derive(Clone, Copy)]
pub struct Session {
    pub strict: bool,
    pub prompt: bool,
    pub scripts: u64,
    pub tally: Tally,
}

fn say_row(rt: &impl Print, r: Row) {
    let t = r.text;
    say(rt, &t[..r.length.min(80)]);
    say(rt, b"\n");
}

// The rows of a line; a row of no bytes is none.
fn told(rt: &impl Print, r: Row) {
    if r.length != 0 {
        say_row(rt, r);
    }
}

// How many bytes came, after a prompt where that is asked for.
fn refilled(rt: &impl Print, source: &mut impl Read, prompt: bool, input: &mut [u8; 65536]) -> usize
    ensures { result ≤ length input.new }
{
    if prompt {
        say(rt, b"> ");
    }
    match source.read(input) {
        Ok(n) => n,
        Err(_) => {
            say(rt, b"       cannot be read to its end\n");
            0
        }
    }
}

type Bytes = [u8; 65537];

// A script half played: what came of it, of a file and of a call; the memories, what its lines are read into, and the reply.
#[derive(Drop)]
struct Script<'a> {
    now: Playing,
    report: Report,
    account: Account,
    array: &'a mut [u8; 2097153],
    security: &'a mut [u8; 2049],
    frame: &'a mut Bytes,
    expected: &'a mut Bytes,
    known: &'a mut Bytes,
    remark: &'a mut Bytes,
    reply: &'a mut Bytes,
    marks: &'a mut Bytes,
}

impl Script<'_> {
    // The rows of a part of the line that ended.
    fn tell(&self, rt: &impl Print, at: Place) {
        let now = self.now;
        told(
            rt,
            telling::row(
                now,
                at,
                &*self.frame,
                &*self.expected,
                &*self.known,
                &*self.remark,
                &*self.reply,
                &*self.marks,
                &*self.array,
                &*self.security,
            ),
        );
        told(rt, post_rows::row(now, self.report, at, &*self.frame));
        told(
            rt,
            station_rows::row(
                now,
                self.account,
                at,
                &*self.expected,
                &*self.known,
                &*self.reply,
                &*self.marks,
            ),
        );
    }

    // All of them, one after the other: a proved loop has to end, so it counts them, up to a number that no line reaches.
    fn tell_line(&self, rt: &impl Print) {
        let mut at = ordering::begun(self.now);
        for _ in 0..u64::MAX {
            if ordering::is_over(at) {
                return;
            }
            self.tell(rt, at);
            at = ordering::next(self.now, at);
        }
    }

    // A byte is taken; what it ends is told.
    fn take(&mut self, rt: &(impl Files + Print), b: u8) {
        let now = self.now;
        let array = &mut *self.array;
        let security = &mut *self.security;
        let frame = &mut *self.frame;
        let expected = &mut *self.expected;
        let known = &mut *self.known;
        let remark = &mut *self.remark;
        let reply = &mut *self.reply;
        let marks = &mut *self.marks;
        let now = playing::take(
            now, b, array, security, frame, expected, known, remark, reply, marks,
        );
        let c = carried(rt, now, array, security, frame);
        let called = calling::carry(
            c.playing, array, security, frame, expected, known, reply, marks,
        );
        self.now = called.playing;
        self.report = c.report;
        self.account = called.account;
        self.tell_line(rt);
    }

    // A proved loop has to end, and nothing says that an input does: so it counts its turns, up to a number that no run reaches. Where nothing comes any
    // more, the line's end that the last line may lack is taken last.
    fn play(
        &mut self,
        rt: &(impl Files + Print),
        source: &mut impl Read,
        prompt: bool,
        input: &mut [u8; 65536],
    ) {
        for _ in 0..u64::MAX {
            let n = refilled(rt, source, prompt, input);
            let came = if n == 0 { b"\n" } else { &input[..n] };
            for b in came {
                self.take(rt, *b);
            }
            if n == 0 {
                break;
            }
        }
    }
}

// The memories belong to a function without a loop: a loop's proof carries each of them.
fn script_played(
    rt: &(impl Files + Print),
    source: &mut impl Read,
    strict: bool,
    prompt: bool,
) -> Tally {
    let mut input = [0u8; 65536];
    let mut array = [255u8; 2097153];
    let mut security = [255u8; 2049];
    let mut frame = [0u8; 65537];
    let mut expected = [0u8; 65537];
    let mut known = [0u8; 65537];
    let mut remark = [0u8; 65537];
    let mut reply = [0u8; 65537];
    let mut marks = [0u8; 65537];
    let c = posting::nothing(standing::start(strict));
    let called = calling::nothing(c.playing);
    let mut script = Script {
        now: called.playing,
        report: c.report,
        account: called.account,
        array: &mut array,
        security: &mut security,
        frame: &mut frame,
        expected: &mut expected,
        known: &mut known,
        remark: &mut remark,
        reply: &mut reply,
        marks: &mut marks,
    };
    script.play(rt, source, prompt, &mut input);
    script.now.bench.tally
}

// ---- the scripts

// Why a file cannot be opened, where that is one of the usual reasons.
fn unopened_told(rt: &impl Print, name: &[u8], e: io::Error) {
    say(rt, name);
    say(rt, b" cannot be opened");
    match e.raw_os_error() {
        Some(ENOENT) => say(rt, b", there is no such file"),
        Some(EACCES) => say(rt, b", that is not permitted"),
        _ => {}
    }
    say(rt, b"\n");
}

// The heading and its rows.
fn input_played(rt: &(impl Files + Print), s: Session, source: &mut impl Read) -> Session {
    say_row(rt, telling::heading());
    let t = script_played(rt, source, s.strict, s.prompt);
    say_row(rt, telling::total(t));
    Session {
        scripts: s.scripts.wrapping_add(1),
        tally: tallies::sum_of(s.tally, t),
        ..s
    }
}

// Its name, the heading and its rows.
fn source_played(
    rt: &(impl Files + Print),
    s: Session,
    name: &[u8],
    source: &mut impl Read,
) -> Session {
    say(rt, name);
    say(rt, b"\n");
    input_played(rt, s, source)
}

// An empty row stands between two scripts.
fn file_played(rt: &HostRuntime, s: Session, input: bool, name: &[u8]) -> Session {
    if s.scripts != 0 {
        say(rt, b"\n");
    }
    if input {
        return source_played(rt, s, name, &mut rt.stdin());
    }
    match filing::opened(rt, name) {
        Ok(mut file) => source_played(rt, s, name, &mut file),
        Err(e) => {
            unopened_told(rt, name, e);
            s
        }
    }
}

// An option, or a script.
fn word_played(rt: &HostRuntime, s: Session, word: &[u8]) -> Session {
    match telling::argument_of(word) {
        Argument::Strict => Session { strict: true, ..s },
        Argument::Prompt => Session { prompt: true, ..s },
        Argument::Input => file_played(rt, s, true, word),
        Argument::Script => file_played(rt, s, false, word),
    }
}

fn argument_played(rt: &HostRuntime, s: Session, i: usize) -> Session {
    let mut name = [0u8; 4096];
    match rt.arg(i, &mut name) {
        Ok(n) => word_played(rt, s, &name[..n]),
        Err(_) => {
            say(rt, b"a name is too long\n");
            s
        }
    }
}

// The arguments but the program's own name.
fn arguments_played(rt: &HostRuntime, s: Session, n: usize) -> Session {
    let mut now = s;
    for i in 1..n {
        now = argument_played(rt, now, i);
    }
    now
}

// Several scripts have a row for all of them.
fn all_told(rt: &impl Print, s: Session) {
    if s.scripts < 2 {
        return;
    }
    say(rt, b"\n");
    say_row(rt, telling::total_of(s.scripts, s.tally));
}

pub fn all_played(rt: &HostRuntime) {
    let s = Session {
        strict: false,
        prompt: false,
        scripts: 0,
        tally: tallies::no_events(),
    };
    let n = filing::argument_count(rt);
    if n < 2 {
        input_played(rt, s, &mut rt.stdin());
        return;
    }
    all_told(rt, arguments_played(rt, s, n));
}
