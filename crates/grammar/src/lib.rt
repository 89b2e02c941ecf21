// The grammar of a script's line as a table: what may follow what, and what each word says. The definitions are in specs/.
#![tactic(auto)]

ghost use Rattle.std.specs.Prelude.{◌≡◌};
ghost use Rattle.grammar.specs.Verbs.{number};

pub mod table;

// What a word is.
#[derive(Clone, Copy, PartialEq, Eq)]
pub enum Class {
    // two hex digits
    Byte,
    Number,
    // a decimal number from 1
    Times,
    // a decimal number at most 18
    Refusal,
    // one to six hex digits
    Address,
    // one to sixteen hex digits
    Hex,
    // any word: a file's name
    Name,
    // a decimal number at most 65,535
    Station,
    // a word of the list, by its number there
    Word(u8),
}

// What a word stores.
#[derive(Clone, Copy, PartialEq, Eq)]
pub enum Store {
    Nothing,
    // its byte goes to the frame
    Sends,
    // the frame's last byte, so many times in all
    SendsAgain,
    // its byte is expected
    Expects,
    // any byte is expected
    ExpectsAny,
    // its byte is expected, and that it is unknown
    ExpectsUnknown,
    // the last expected byte, so many times in all
    ExpectsAgain,
    // what was stored of the frame is forgotten: the word was no name
    Forgets,
    // its decimal number is an entry of the list
    Enters,
}

// What a word writes into a slot.
#[derive(Clone, Copy, PartialEq, Eq)]
pub enum Source {
    Nothing,
    // its decimal number
    Number,
    // its hex number
    Hex,
    // its byte, and 256 besides
    Byte,
    // a constant
    Says(u8),
}

// A row of the table, without its place.
#[derive(Clone, Copy, PartialEq, Eq)]
pub struct Entry {
    pub class: Class,
    // the place that comes next
    pub next: u8,
    pub store: Store,
    // where the source is written
    pub slot: u8,
    pub source: Source,
}

// What a line is, by its first word.
#[derive(Clone, Copy, PartialEq, Eq)]
pub enum Verb {
    // nothing, or only a remark
    Blank,
    Frame,
    Done,
    Cut,
    New,
    Status,
    Work,
    Locks,
    Dump,
    Full,
    Short,
    Strict,
    Fill,
    Buffer,
    Lend,
    Record,
    Is,
    Pattern,
    Save,
    Load,
    SaveRaw,
    LoadRaw,
    CompareRaw,
    Store,
    Find,
    Stations,
    // a mistake was met, or the line ended too early
    Wrong = 31,
}

impl From<Verb> for u8 {
    ghost from_gives = { λ v n. n ≡ number v };

    fn from(v: Verb) -> u8 {
        v as u8
    }
}
