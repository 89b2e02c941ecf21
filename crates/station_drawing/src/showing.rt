// What a call has to come to by what its read showed (document 02, W-206).
use comparing::Side;

// "live if its mark is 53 54", and of that number, high byte first.
pub fn live_slots(side: &Side, station: u16) -> usize {
    let [high, low] = station.to_be_bytes();
    side.reply
        .chunks_exact(32)
        .filter(|slot| slot.starts_with(&[0x53, 0x54, high, low]))
        .count()
}

// "empty if all FF"
pub fn has_empty(side: &Side) -> bool {
    side.reply
        .chunks_exact(32)
        .any(|slot| slot.iter().all(|b| *b == 255))
}

// A number and polls.
#[derive(Clone, Copy)]
pub struct Due {
    pub number: u8,
    pub polls: u64,
}

// So many writes, none of which the chip refuses: "before which poll completion arrives (0 or no entry: never)".
pub fn due_of(list: &[u64], allowance: u64, writes: usize) -> Due {
    let mut polls: u64 = 0;
    for i in 0..writes {
        let entry = list.get(i).copied().unwrap_or(0);
        if entry == 0 || allowance < entry {
            return Due {
                number: 18,
                polls: polls.wrapping_add(allowance),
            };
        }
        polls = polls.wrapping_add(entry);
    }
    Due { number: 0, polls }
}
