// Which write lock refused a frame, and what opens it. specs/Locked.antt.
#![tactic(auto)]

ghost use Rattle.std.specs.Prelude.{◌≡◌, ◌+◌, ◌≤◌, ◌<◌};
ghost use Rattle.rules.specs.Words.{pick, bit};
ghost use Rattle.rules.specs.Blocks.{block_at};
ghost use Rattle.locked.specs.Locked.{locked_from, block_why, locked_block, locked_why};

use page::form;
use rules::{Block, Rest};
use writing::Row;

fn is_locked(p: u64, n: usize) -> bool
    requires { n < 40 }
    ensures { result ≡ bit (block_at n).write p }
{
    blocks::bit_at(p, blocks::block_at(n).write)
}

// The first block of the table whose write lock is set.
fn first_locked(p: u64) -> usize
    ensures value { result ≡ locked_from 40 p 0 }
    ensures inside { result < 40 }
{
    (0..40).find(|&n| is_locked(p, n)).unwrap_or(0)
}

fn locked_block(p: u64, op: u8, sent: &[u8]) -> usize
    ensures value { result ≡ locked_block p op sent.now }
    ensures inside { result < 40 }
{
    if op == 0xC7 {
        return first_locked(p);
    }
    blocks::block_of(opcodes::address_of(sent))
}

// What opens the block: 98 and 42, unless the bit is permanent or the register locked down.
fn opened_by(permanent: bool, wpld: bool) -> usize
    ensures { result ≡ pick permanent 78 (pick wpld 77 76) }
{
    if permanent {
        return 78;
    }
    if wpld { 77 } else { 76 }
}

fn block(r: Row, b: Block, permanent: u64, wpld: bool) -> Row
    requires { (b.start + b.size ≤ 2097152) × ((1 ≤ b.size) × (b.write < 47)) }
    ensures { result ≡ block_why b permanent wpld r }
{
    let k = opened_by(blocks::bit_at(permanent, b.write), wpld);
    let last = b.start + b.size - 1;
    form(r, k, b.start as u64, last as u64, b.write as u64)
}

pub fn locked(r: Row, c: Rest, op: u8, sent: &[u8]) -> Row
    ensures { result ≡ locked_why c op sent.now r }
{
    let n = locked_block(c.locks.protection, op, sent);
    block(r, blocks::block_at(n), c.locks.permanent, c.flags.wpld)
}
