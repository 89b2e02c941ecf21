// Document 02, W-206: the station list. The types; what they mean is in specs/.
#![tactic(auto)]

use rules::Chip;

// The desk's record: the chip, and the number and the polls of the last call. A number, as document 02 has it: it is one of three lists, and C's.
#[derive(Clone, Copy)]
pub struct StoreRecord {
    pub chip: Chip,
    pub number: u8,
    pub polls: u64,
}
