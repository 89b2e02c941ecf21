// How many bytes of a reply or a dump are shown, and in how many rows. specs/Counts.antt.
#![tactic(auto)]

ghost use Rattle.std.specs.Prelude.{◌≡◌};
ghost use Rattle.grammar.specs.Verbs as verbs;
ghost use Rattle.showing.specs.Counts.{dumped, shown, rows_of, reply_shown, dump_shown, count_of};

use byte_text::count_within;
use grammar::Verb;

// How many bytes a dump is of: none past the memory's end.
#[tactic(auto, unfolding(crate::specs::Counts::dumped))]
pub fn dumped(slots: [u64; 24]) -> usize
    ensures { result ≡ dumped slots }
{
    let from = slots[7] as usize;
    let n = slots[8] as usize;
    let memory = if slots[10] == 0 { 2097152 } else { 2048 };
    count_within(memory, from, n)
}

// How many of n bytes are shown: all, or so many at most.
#[tactic(auto, unfolding(crate::specs::Counts::shown))]
fn shown(full: bool, n: usize, most: usize) -> usize
    ensures { result ≡ shown full n most }
{
    if full { n } else { n.min(most) }
}

#[tactic(auto, unfolding(crate::specs::Counts::rows_of))]
fn rows_of(n: usize) -> usize
    ensures { result ≡ rows_of n }
{
    n.div_ceil(16)
}

// Of a reply 64 bytes.
#[tactic(auto, unfolding(crate::specs::Counts::reply_shown))]
pub fn reply_shown(full: bool, wanted: usize) -> usize
    ensures { result ≡ reply_shown full wanted }
{
    shown(full, wanted.min(65537), 64)
}

// Of a dump 64 where its bytes are compared, else 4,096.
#[tactic(auto, unfolding(crate::specs::Counts::dump_shown))]
pub fn dump_shown(full: bool, slots: [u64; 24]) -> usize
    ensures { result ≡ dump_shown full slots }
{
    let most = if slots[4] == 0 { 4096 } else { 64 };
    shown(full, dumped(slots), most)
}

// How many rows of bytes a line has at most.
#[tactic(auto, unfolding(crate::specs::Counts::count_of))]
pub fn count(verb: Verb, full: bool, slots: [u64; 24]) -> usize
    ensures { result ≡ count_of (verbs.number verb) full slots }
{
    let wanted = slots[1] as usize;
    match verb {
        Verb::Frame => rows_of(reply_shown(full, wanted)),
        Verb::Status => 6,
        Verb::Locks => 256,
        Verb::Dump => rows_of(dump_shown(full, slots)),
        Verb::Find => 2,
        Verb::Stations => 2049,
        _ => 0,
    }
}
