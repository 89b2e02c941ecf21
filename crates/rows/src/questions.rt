// The locks by address. specs/Questions.antt.
ghost use Rattle.std.specs.Prelude.{◌≡◌, ◌+◌, ◌-◌, ◌%◌, ◌≤◌, ◌<◌, min};
ghost use Rattle.rows.specs.Questions.{locks, lock_state, run_end, run_row};

use crate::events::below;
use describing::less;
use page::form;
use rules::Block;
use writing::Row;

// The locks of a block as bits: 1 write, 2 read, 4 permanent.
#[tactic(auto, unfolding(crate::specs::Questions::locks))]
fn locks(b: Block, protection: u64, permanent: u64) -> usize
    requires { b.write < 47 }
    ensures value { result ≡ locks b protection permanent }
    ensures small { result ≤ 7 }
{
    let write = b.write;
    let w = usize::from(blocks::bit_at(protection, write));
    let o = usize::from(b.paired && blocks::bit_at(protection, write + 1));
    let p = usize::from(blocks::bit_at(permanent, write));
    w + 2 * o + 4 * p
}

// Of a group of 8 KB.
#[tactic(auto, using(rules::proofs::Blocks::block_placed, rules::proofs::Blocks::block_of_lt), unfolding(crate::specs::Questions::lock_state))]
pub fn lock_state(g: usize, protection: u64, permanent: u64) -> usize
    ensures value { result ≡ lock_state g protection permanent }
    ensures small { result ≤ 7 }
{
    let n = blocks::block_of(g % 256 * 8192);
    locks(blocks::block_at(n), protection, permanent)
}

// The first group from g on whose locks are not those of s, at most 256.
fn run_end(g: usize, s: usize, protection: u64, permanent: u64) -> usize
    requires { g ≤ 256 }
    ensures value { result ≡ run_end (256 - g) s protection permanent g }
    ensures inside { result ≤ 256 }
    ensures after { g ≤ result }
{
    (g..256)
        .find(|&h| lock_state(h, protection, permanent) != s)
        .unwrap_or(256)
}

// Where the run that begins with the group g ends: the group after its last one.
pub fn lock_run(g: usize, protection: u64, permanent: u64) -> usize
    ensures { result ≡ run_end (255 - g % 256) (lock_state g protection permanent) protection permanent (g % 256 + 1) }
{
    let s = lock_state(g, protection, permanent);
    run_end(g % 256 + 1, s, protection, permanent)
}

// The groups from g to before h, and their locks; numbers past 256 and 7 count as those.
pub fn run(g: usize, h: usize, s: usize) -> Row
    ensures { result ≡ run_row (min g 256) (min h 256) (min s 7) }
{
    let first = g.min(256) * 8192;
    let last = less(h.min(256) * 8192, 1);
    let r = below(159, first as u64, last, 0);
    form(r, 160 + s.min(7), 0, 0, 0)
}
