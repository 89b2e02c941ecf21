// A serprog programmer with the bench chip behind it: on standard input and output, or on recorded sessions, one after the other. What each byte is
// answered with is decided by `serving`.
#![tactic(auto)]

ghost use Rattle.std.specs.Prelude.{◌≤◌, length};

use keeping::{Failure, say, told};
use std::env::Env;
use std::io::Read;

// What the words so far ask for: the part that a new chip is, where the name of the chip's file stands among them, and whether the next word is that name.
#[derive(Clone, Copy)]
struct Session {
    ba: bool,
    disguise: bool,
    raw: bool,
    file: Option<usize>,
    naming: bool,
    served: bool,
}

fn is_option(word: &[u8]) -> bool {
    (1 < word.len()) & word.starts_with(b"-")
}

fn is_name(word: &[u8]) -> bool {
    !word.is_empty() & !word.starts_with(b"-")
}

fn usage_told(rt: &HostRuntime) {
    say(rt, b"usage: programmer [OPTION..] [SESSION..]\n");
    say(
        rt,
        b"  SESSION                     a file of what was sent, or - for standard input, which is served where none is named\n",
    );
    say(
        rt,
        b"  --chip FILE                 the chip of the sessions behind it is in FILE, an image: read before each, saved behind each\n",
    );
    say(
        rt,
        b"  --raw FILE                  the same with FILE the array alone, 2097152 bytes\n",
    );
    say(
        rt,
        b"  --old                       a new chip of the sessions behind it is the old part, SST26WF016B; one in a file stays what it is\n",
    );
    say(
        rt,
        b"  --identity-of-sst26vf016b   the sessions behind it show the sibling's identity\n",
    );
}

fn wrong_told(rt: &HostRuntime, word: &[u8], text: &[u8]) -> Failure {
    told(rt, word, text);
    usage_told(rt);
    Failure
}

// On the chip of a file, or on a new one, all FF, where the file has no name.
fn served<R: Read>(rt: &HostRuntime, s: Session, from: &mut R, name: &[u8]) -> Result<(), Failure> {
    let mut array = [255u8; 2097152];
    let mut security = [255u8; 2048];
    let kept = keeping::load(rt, s.raw, name, &mut array, &mut security)?;
    let before = keeping::chip_of(kept, s.ba);
    keeping::part_told(rt, before, kept.is_some(), name);
    let mut to = rt.stdout();
    let c = sessions::serve(from, &mut to, before, s.disguise, &mut array, &mut security);
    keeping::save(rt, s.raw, name, c, &array, &security)
}

// Word i of the command line, in front of the buffer; nothing where it is too long for a name.
fn word_of(rt: &HostRuntime, i: usize, word: &mut [u8]) -> usize
    ensures { result ≤ length word.new }
{
    rt.arg(i, word).unwrap_or(0)
}

fn source_served<R: Read>(rt: &HostRuntime, s: Session, from: &mut R) -> Result<(), Failure> {
    let Some(i) = s.file else {
        return served(rt, s, from, b"");
    };
    let mut name = [0u8; 4096];
    let n = word_of(rt, i, &mut name);
    served(rt, s, from, &name[..n])
}

// `-` is standard input.
fn session_served(rt: &HostRuntime, s: Session, word: &[u8]) -> Result<Session, Failure> {
    if let b"-" = word {
        source_served(rt, s, &mut rt.stdin())?;
    } else {
        let mut file = filing::opened(rt, word).map_err(|_| {
            told(rt, word, b" cannot be opened");
            Failure
        })?;
        source_served(rt, s, &mut file)?;
    }
    Ok(Session { served: true, ..s })
}

// The name of the chip's file.
fn file_named(rt: &HostRuntime, s: Session, i: usize, word: &[u8]) -> Result<Session, Failure> {
    if !is_name(word) {
        return Err(wrong_told(rt, word, b" is no name of a chip's file"));
    }
    Ok(Session {
        file: Some(i),
        naming: false,
        ..s
    })
}

// A word that asks for the chip in a file: its name is the next one.
fn naming(s: Session, raw: bool) -> Session {
    Session {
        raw,
        naming: true,
        ..s
    }
}

// An option, or a session.
fn word_taken(rt: &HostRuntime, s: Session, i: usize, word: &[u8]) -> Result<Session, Failure> {
    if s.naming {
        return file_named(rt, s, i, word);
    }
    match word {
        b"--identity-of-sst26vf016b" => Ok(Session {
            disguise: true,
            ..s
        }),
        b"--old" => Ok(Session { ba: false, ..s }),
        b"--chip" => Ok(naming(s, false)),
        b"--raw" => Ok(naming(s, true)),
        _ if is_option(word) => Err(wrong_told(rt, word, b" is no option")),
        _ => session_served(rt, s, word),
    }
}

fn argument_taken(rt: &HostRuntime, s: Session, i: usize) -> Result<Session, Failure> {
    let mut word = [0u8; 4096];
    let n = word_of(rt, i, &mut word);
    word_taken(rt, s, i, &word[..n])
}

// Up to the first word that is wrong.
fn arguments_taken(rt: &HostRuntime, n: usize) -> Result<Session, Failure> {
    let mut s = Session {
        ba: true,
        disguise: false,
        raw: false,
        file: None,
        naming: false,
        served: false,
    };
    for i in 1..n {
        s = argument_taken(rt, s, i)?;
    }
    Ok(s)
}

// What is wrong was told where it failed.
fn all_served(rt: &HostRuntime) -> Result<(), Failure> {
    let s = arguments_taken(rt, filing::argument_count(rt))?;
    if s.naming {
        return Err(wrong_told(rt, b"--chip or --raw", b" lacks the name of a file"));
    }
    if !s.served {
        session_served(rt, s, b"-")?;
    }
    Ok(())
}

fn main(rt: HostRuntime) {
    let _ = all_served(&rt);
}
