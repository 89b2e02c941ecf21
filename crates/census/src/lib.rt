// The slots of the station list counted, as one read of it shows them. specs/Census.antt.
#![tactic(auto)]

ghost use Rattle.std.specs.Prelude.{◌≡◌, ◌+◌, ◌<◌, get_or};
ghost use Rattle.stations.specs.Slots.{those_from, live_of, passed_over_lem, slot_count};
ghost use Rattle.slots.specs.Reads.{shown_of, IsSlot};
ghost use Rattle.census.specs.Census.{found, counts_below, cut_after};

use slots::ListRead;

// How many slots are empty, live, passed over and dead: a slot that is passed over is live too.
#[derive(Clone, Copy, Default)]
pub struct Counts {
    pub empty: u64,
    pub live: u64,
    pub passed: u64,
    pub dead: u64,
}

// Slot i is live, and a live one of its number lies below.
pub fn is_passed_over(read: &ListRead, i: usize) -> bool
    requires { i < 2048 }
    ensures { result ≡ passed_over_lem (shown_of read.now) i }
{
    let number = read.station_of(i);
    read.is_live(i) && (0..i).any(|j| read.is_live_of(number, j))
}

// Lookup finds slot i.
#[tactic(auto, unfolding(crate::specs::Census::found))]
pub fn is_found(read: &ListRead, i: usize) -> bool
    requires { i < 2048 }
    ensures { result ≡ found (shown_of read.now) i }
{
    read.is_live(i) && !is_passed_over(read, i)
}

// The counts with one slot more.
fn with_slot(c: Counts, read: &ListRead, i: usize) -> Counts
    requires { (i < 2048) × (c ≡ counts_below (shown_of read.now) i) }
    ensures { result ≡ counts_below (shown_of read.now) (i + 1) }
{
    let empty = read.is_empty(i);
    let live = read.is_live(i);
    let passed = is_passed_over(read, i);
    Counts {
        empty: c.empty + u64::from(empty),
        live: c.live + u64::from(live),
        passed: c.passed + u64::from(passed),
        dead: c.dead + u64::from(!(empty | live)),
    }
}

// Of all slots.
pub fn counted(read: &ListRead) -> Counts
    ensures { result ≡ counts_below (shown_of read.now) slot_count }
{
    let mut c = Counts::default();
    for i in 0..2048 {
        c = with_slot(c, read, i);
    }
    c
}

// The first slot below which k are found, 2048 where fewer are: how many slots are shown, if k stations are.
pub fn cut_after(read: &ListRead, k: usize) -> usize
    ensures { result ≡ cut_after (shown_of read.now) k }
{
    let mut n = 0;
    for i in 0..2048 {
        if k <= n {
            return i;
        }
        if is_found(read, i) {
            n += 1;
        }
    }
    2048
}

// The k-th live slot of a number, counted from 0.
pub fn live_at(read: &ListRead, number: u16, k: usize) -> Option<usize>
    ensures { IsSlot (get_or (those_from (live_of (shown_of read.now) number) 0 slot_count) k slot_count) result }
{
    (0..2048).filter(|&i| read.is_live_of(number, i)).nth(k)
}
