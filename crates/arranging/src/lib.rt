// What a script sets: a new chip, memories, the record, what is lent, how rows are shown. specs/Settings.antt.
#![tactic(auto)]

ghost use Rattle.std.specs.Prelude.{◌≡◌, length, replicate};
ghost use Rattle.rules.specs.Words.{lent, written};
ghost use Rattle.arranging.specs.Settings.{filled, pattern_at, Arranged, bench_set, SettingPlayed};

use standing::{Bench, Playing, Setting, with_bench};

// n bytes from a place on become v, as far as there are so many.
#[tactic(auto, unfolding(crate::specs::Settings::filled))]
fn fill(s: &mut [u8], from: usize, n: usize, v: u8)
    ensures { s.new ≡ filled from n v s.old }
{
    let start = from.min(s.len());
    let count = n.min(s.len() - start);
    s[start..start + count].fill(v);
}

fn blank(s: &mut [u8])
    ensures { s.new ≡ replicate (length s.old) 0xFF }
{
    s.fill(255);
}

#[tactic(auto, unfolding(crate::specs::Settings::pattern_at))]
fn pattern_at(i: usize) -> u8
    ensures { result ≡ pattern_at i }
{
    ((i ^ (i / 256) ^ (i / 32768)) % 256) as u8
}

fn set_pattern(s: &mut [u8])
    ensures { lent s.new ≡ written (length s.old) pattern_at }
{
    for (i, b) in s.iter_mut().enumerate() {
        *b = pattern_at(i);
    }
}

// What becomes of the memories.
pub fn arrange(s: Setting, slots: [u64; 24], array: &mut [u8], security: &mut [u8])
    ensures { Arranged s slots array.old security.old array.new security.new }
{
    let from = slots[7] as usize;
    let n = slots[8] as usize;
    let v = (slots[9] % 256) as u8;
    match s {
        Setting::New => {
            blank(array);
            blank(security);
        }
        Setting::Fill => {
            if slots[10] == 0 {
                fill(array, from, n, v);
            } else {
                fill(security, from, n, v);
            }
        }
        Setting::Pattern => {
            set_pattern(array);
            set_pattern(security);
        }
        _ => {}
    }
}

// And of the bench.
fn set(b: Bench, s: Setting, slots: [u64; 24]) -> Bench
    ensures { result ≡ bench_set s b slots }
{
    match s {
        Setting::New => Bench {
            chip: chip::new_of(slots[10] == 0),
            array: 2097152,
            security: 2048,
            ..b
        },
        Setting::Fill | Setting::Pattern => b,
        Setting::Buffer => {
            let mut chip = b.chip;
            let v = (slots[9] % 256) as u8;
            fill(&mut chip.buffer, slots[7] as usize, slots[8] as usize, v);
            Bench { chip, ..b }
        }
        Setting::Lend => Bench {
            array: slots[7] as usize,
            security: slots[8] as usize,
            ..b
        },
        Setting::Record => Bench {
            chip: fields::record_of(slots),
            ..b
        },
        Setting::Full => Bench { full: true, ..b },
        Setting::Short => Bench { full: false, ..b },
        Setting::Strict => Bench { strict: true, ..b },
    }
}

pub fn played(
    p: Playing,
    s: Setting,
    slots: [u64; 24],
    array: &mut [u8],
    security: &mut [u8],
) -> Playing
    ensures { SettingPlayed p s slots array.old security.old result array.new security.new }
{
    arrange(s, slots, array, security);
    with_bench(p, set(p.bench, s, slots))
}
