// The desk's record: the chip, and the number and the polls of the last call. The number is 0 for done: other
// crates read it.
// W-206: "First take and return the record"
#[derive(Clone, Copy, PartialEq, Eq)]
pub struct Store {
    pub chip: second::Flat,
    pub number: u8,
    pub polls: u64,
}
