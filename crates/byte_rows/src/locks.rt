// The locks by address. specs/Bytes.antt.
ghost use Rattle.std.specs.Prelude.{◌≡◌, min};
ghost use Rattle.byte_rows.specs.Bytes.{joined, lock_row, down_row};

use rows::Row;

// The group has the locks of the one before it.
#[tactic(auto, unfolding(crate::specs::Bytes::joined))]
fn joined(g: usize, protection: u64, permanent: u64) -> bool
    ensures { result ≡ joined g protection permanent }
{
    g != 0
        && rows::lock_state(g - 1, protection, permanent)
            == rows::lock_state(g, protection, permanent)
}

// A row for each run of groups of 8 KB with the same locks, at its first group.
#[tactic(auto, unfolding(crate::specs::Bytes::lock_row, crate::specs::Bytes::lock_end))]
pub fn row(i: usize, protection: u64, permanent: u64) -> Row
    ensures { result ≡ lock_row (min i 255) protection permanent }
{
    let g = i.min(255);
    if joined(g, protection, permanent) {
        return rows::empty();
    }
    let h = rows::lock_run(g, protection, permanent);
    let s = rows::lock_state(g, protection, permanent);
    rows::run(g, h, s)
}

#[tactic(auto, unfolding(crate::specs::Bytes::down_row))]
pub fn down(wpld: bool) -> Row
    ensures { result ≡ down_row wpld }
{
    rows::below(if wpld { 168 } else { 169 }, 0, 0, 0)
}
