// What is done and claimed in the paper's values: one step each.
use station_drawing::both::Lengths;

#[derive(Clone, Copy)]
pub enum Deed {
    // ---- What is arranged: a new chip of each model, and an empty list.
    Fresh,
    // A record that is not well-formed.
    Broken,
    // Every slot is live, and its number is its place.
    Full,
    // A slot is put into both arrays: its mark, its number and the byte that its data count up from.
    Puts(usize, [u8; 2], u16, u8),

    // ---- What is done: a frame of one byte, and its number.
    Sends(u8, u8),
    // A done frame with an address: an erase's opcode, and the page's two bytes.
    Erases(u8, u8, u8),
    // A program of one byte, at the start of a page.
    Programs(u8, u8, u8),
    Completes,
    Cuts(u64, u8),
    // A storing call: its number, what its data count up from, the allowance and the list; and the number and the polls that are due.
    Stores(u16, u8, u64, [u64; 5], u8, u64),
    // One that is refused, with lengths of a kind.
    StoresWith(Lengths, u8),
    // A done lookup gives these data.
    Finds(u16, u8),
    Misses(u16, u8),
    MissesWith(Lengths, u8),

    // ---- What is claimed: a slot of the array holds these bytes.
    Holds(usize, [u8; 2], u16, u8),
    IsEmpty(usize),
    Stands { wel: bool, busy: bool },
    // The last read showed this byte, with this mark, at a place of the list.
    Reads(usize, u8, u8),
    // No byte outside the list has changed.
    Outside,
}
