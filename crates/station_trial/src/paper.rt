// The paper's values (document 02, W-206), step by step: each group under the sentence that it shows. The list starts open where 06 and 98 were sent.
use crate::deeds::Deed;
use crate::deeds::Deed::{
    Broken, Completes, Cuts, Erases, Finds, Fresh, Full, Holds, IsEmpty, Misses, MissesWith,
    Outside, Programs, Puts, Reads, Sends, Stands, Stores, StoresWith,
};
use station_drawing::both::{Lengths, RIGHT};
use station_drawing::lists::{CLEARED, LIVE, UNMARKED};

// How WEL and BUSY stand.
const IDLE: Deed = Stands {
    wel: false,
    busy: false,
};

const ENABLED: Deed = Stands {
    wel: true,
    busy: false,
};

const BUSY: Deed = Stands {
    wel: true,
    busy: true,
};

// "29 down to 0: 64 KB; bit n from (n + 1) × 10000", "At power-up the register is 5555FFFFFFFF": the list of a new chip is locked, and 11 is of the first 02.
const LOCKED: [Deed; 6] = [
    Fresh,
    Stores(0x1234, 0x10, 3, [1; 5], 11, 0),
    ENABLED,
    IsEmpty(0),
    Misses(0x1234, 17),
    Outside,
];

// "Storing writes number and data into the first empty slot, then its mark in a second write, then clears to 00 00 the mark of each other live slot of that number"
const IN_ORDER: [Deed; 18] = [
    Fresh,
    Sends(0x06, 0),
    Sends(0x98, 0),
    Stores(0x1234, 0x10, 3, [1, 1, 0, 0, 0], 0, 2),
    Holds(0, LIVE, 0x1234, 0x10),
    IsEmpty(1),
    IDLE,
    Finds(0x1234, 0x10),
    Stores(0x1234, 0x40, 9, [2, 3, 4, 0, 0], 0, 9),
    Holds(1, LIVE, 0x1234, 0x40),
    Holds(0, CLEARED, 0x1234, 0x10),
    IsEmpty(2),
    Finds(0x1234, 0x40),
    // "station number in two bytes": the high one first
    Misses(0x3412, 17),
    Stores(0x3412, 0x60, 1, [1, 1, 0, 0, 0], 0, 2),
    Holds(2, LIVE, 0x3412, 0x60),
    Holds(1, LIVE, 0x1234, 0x40),
    Outside,
];

// "After each write the store polls status at most as many times as it was allowed", "18 polls used up, with the chip as the frames so far left it"
const POLLS_USED_UP: [Deed; 28] = [
    Fresh,
    Sends(0x06, 0),
    Sends(0x98, 0),
    // "0 or no entry: never"
    Stores(7, 1, 5, [0, 1, 1, 1, 1], 18, 5),
    BUSY,
    // 5: "BUSY, and opcode not 05, 66, 99, B0"
    Misses(7, 5),
    Stores(7, 1, 5, [1; 5], 5, 0),
    Completes,
    Holds(0, UNMARKED, 7, 1),
    Misses(7, 17),
    Stores(7, 2, 4, [1, 0, 1, 1, 1], 18, 5),
    Holds(1, UNMARKED, 7, 2),
    Completes,
    Holds(1, LIVE, 7, 2),
    Finds(7, 2),
    // an entry beyond the allowance
    Stores(7, 3, 5, [6, 1, 1, 1, 1], 18, 5),
    BUSY,
    Completes,
    Holds(2, UNMARKED, 7, 3),
    // no poll is allowed
    Stores(7, 4, 0, [1; 5], 18, 0),
    BUSY,
    Completes,
    Holds(3, UNMARKED, 7, 4),
    // each entry is the allowance: three writes
    Stores(7, 6, 5, [5, 5, 5, 0, 0], 0, 15),
    Holds(4, LIVE, 7, 6),
    Holds(1, CLEARED, 7, 2),
    Finds(7, 6),
    Outside,
];

// "an allowance above 65,535, or data or a lookup buffer not of 28 bytes, gets 1"
const ALLOWANCES: [Deed; 8] = [
    Fresh,
    Sends(0x06, 0),
    Sends(0x98, 0),
    Stores(7, 1, 65536, [1; 5], 1, 0),
    Stores(7, 1, 0xffff_ffff_ffff_ffff, [1; 5], 1, 0),
    IsEmpty(0),
    Stores(7, 1, 65535, [65535, 1, 0, 0, 0], 0, 65536),
    Holds(0, LIVE, 7, 1),
];

// Wrong lengths: data or buffer, reply and marks, array, Security ID.
const DATA_SHORT: Lengths = Lengths { bytes: 27, ..RIGHT };

const DATA_LONG: Lengths = Lengths { bytes: 29, ..RIGHT };

const NO_DATA: Lengths = Lengths { bytes: 0, ..RIGHT };

const REPLY_SHORT: Lengths = Lengths {
    reply: 65535,
    ..RIGHT
};

const REPLY_LONG: Lengths = Lengths {
    reply: 65537,
    ..RIGHT
};

const MARKS_SHORT: Lengths = Lengths {
    marks: 65535,
    ..RIGHT
};

const MARKS_LONG: Lengths = Lengths {
    marks: 65537,
    ..RIGHT
};

const ARRAY_SHORT: Lengths = Lengths {
    array: 2097151,
    ..RIGHT
};

const SECURITY_SHORT: Lengths = Lengths {
    security: 2047,
    ..RIGHT
};

// The same, and "a length outside "Sizes"": data or buffer of 27, 29 and 0 bytes, reply and marks a byte short or long, array and Security ID a byte short.
const LENGTHS: [Deed; 30] = [
    Fresh,
    Sends(0x06, 0),
    Sends(0x98, 0),
    StoresWith(DATA_SHORT, 1),
    StoresWith(DATA_LONG, 1),
    StoresWith(NO_DATA, 1),
    StoresWith(REPLY_SHORT, 1),
    StoresWith(REPLY_LONG, 1),
    StoresWith(MARKS_SHORT, 1),
    StoresWith(MARKS_LONG, 1),
    StoresWith(ARRAY_SHORT, 1),
    StoresWith(SECURITY_SHORT, 1),
    MissesWith(DATA_SHORT, 1),
    MissesWith(DATA_LONG, 1),
    MissesWith(NO_DATA, 1),
    MissesWith(REPLY_SHORT, 1),
    MissesWith(REPLY_LONG, 1),
    MissesWith(MARKS_SHORT, 1),
    MissesWith(MARKS_LONG, 1),
    MissesWith(ARRAY_SHORT, 1),
    MissesWith(SECURITY_SHORT, 1),
    IsEmpty(0),
    IDLE,
    Stores(7, 1, 3, [1; 5], 0, 2),
    Holds(0, LIVE, 7, 1),
    Broken,
    Stores(7, 1, 3, [1; 5], 1, 0),
    Misses(7, 1),
    IsEmpty(1),
    Outside,
];

// "of SPI length": 3, "not in this protocol", of the read
const IN_SQI: [Deed; 11] = [
    Fresh,
    Sends(0x06, 0),
    Sends(0x98, 0),
    Sends(0x38, 0),
    Stores(7, 1, 3, [1; 5], 3, 0),
    Misses(7, 3),
    IDLE,
    Sends(0xff, 0),
    IsEmpty(0),
    Stores(7, 1, 3, [1; 5], 0, 2),
    Finds(7, 1),
];

// "16 exactly if the read shows no empty slot": also where the station's own slot would do. A lookup needs none.
const NO_EMPTY_SLOT: [Deed; 20] = [
    Fresh,
    Sends(0x06, 0),
    Sends(0x98, 0),
    Full,
    Stores(5, 0x20, 3, [1; 5], 16, 0),
    Stores(0xabcd, 0x20, 3, [1; 5], 16, 0),
    IDLE,
    Holds(5, LIVE, 5, 7),
    Finds(5, 7),
    Finds(0x07ff, 7),
    Misses(0x0800, 17),
    // a dead slot is not used: here its mark is 00 00
    Puts(900, [0, 0], 0xffff, 255),
    Stores(5, 0x20, 3, [1; 5], 16, 0),
    // the last slot is empty
    Puts(2047, [255, 255], 0xffff, 255),
    Stores(5, 0x20, 3, [1, 1, 2, 0, 0], 0, 4),
    Holds(2047, LIVE, 5, 0x20),
    Holds(5, CLEARED, 5, 7),
    Finds(5, 0x20),
    Stores(5, 0x30, 3, [1; 5], 16, 0),
    Outside,
];

// Number FFFF with data all FF: the slot is "all FF" after its first write, and its mark still goes there.
const ALL_FF: [Deed; 17] = [
    Fresh,
    Sends(0x06, 0),
    Sends(0x98, 0),
    Stores(0xffff, 255, 2, [1, 2, 0, 0, 0], 0, 3),
    Holds(0, LIVE, 0xffff, 255),
    IsEmpty(1),
    Finds(0xffff, 255),
    Stores(0xffff, 255, 2, [1, 1, 2, 0, 0], 0, 4),
    Holds(0, CLEARED, 0xffff, 255),
    Holds(1, LIVE, 0xffff, 255),
    IsEmpty(2),
    Finds(0xffff, 255),
    // its first write alone leaves an empty slot, which the next call takes
    Stores(0xffff, 255, 2, [0; 5], 18, 2),
    Completes,
    IsEmpty(2),
    Stores(8, 3, 1, [1, 1, 0, 0, 0], 0, 2),
    Holds(2, LIVE, 8, 3),
];

// "the mark of each other live slot of that number, lowest first", and "a lent list says, for each write in turn": 1 + 2 + 3, then 7 polls used up.
const LOWEST_FIRST: [Deed; 27] = [
    Fresh,
    Sends(0x06, 0),
    Sends(0x98, 0),
    Puts(0, LIVE, 9, 0x11),
    Puts(2, LIVE, 9, 0x22),
    Puts(3, LIVE, 8, 0x33),
    Puts(4, [0x00, 0x54], 9, 0x44),
    Puts(5, LIVE, 9, 0x55),
    // "the first live slot of that number"
    Finds(9, 0x11),
    Stores(9, 0x66, 7, [1, 2, 3, 0, 1], 18, 13),
    Holds(1, LIVE, 9, 0x66),
    Holds(0, CLEARED, 9, 0x11),
    Holds(2, LIVE, 9, 0x22),
    Holds(5, LIVE, 9, 0x55),
    Completes,
    Holds(2, CLEARED, 9, 0x22),
    Holds(5, LIVE, 9, 0x55),
    Finds(9, 0x66),
    Stores(9, 0x77, 7, [4, 3, 2, 1, 0], 0, 10),
    Holds(6, LIVE, 9, 0x77),
    Holds(1, CLEARED, 9, 0x66),
    Holds(5, CLEARED, 9, 0x55),
    Holds(3, LIVE, 8, 0x33),
    Holds(4, [0x00, 0x54], 9, 0x44),
    Finds(9, 0x77),
    Finds(8, 0x33),
    Outside,
];

// "with WSP 1, 02 and 32": 8 at the first 02, wherever the page is; 06 was done
const PAGE_SUSPENDED: [Deed; 26] = [
    Fresh,
    Sends(0x06, 0),
    Sends(0x98, 0),
    Stores(7, 1, 1, [1, 1, 0, 0, 0], 0, 2),
    Sends(0x06, 0),
    Programs(0x10, 0x00, 0xaa),
    Sends(0xb0, 0),
    Sends(0x04, 0),
    Stores(7, 2, 3, [1; 5], 8, 0),
    ENABLED,
    IsEmpty(1),
    Finds(7, 1),
    // dropped
    Cuts(0, 0xff),
    // one of the list: its page reads 00, mark 0
    Sends(0x06, 0),
    Sends(0x98, 0),
    Sends(0x06, 0),
    Programs(0x01, 0x00, 0xff),
    Sends(0xb0, 0),
    Stores(7, 2, 3, [1; 5], 8, 0),
    Misses(7, 17),
    Reads(0xff, 0, 0),
    Reads(0x100, 255, 1),
    Sends(0x30, 0),
    Completes,
    Finds(7, 1),
    Outside,
];

// "a byte in the suspended range reads 00, mark 0": a suspended erase hides its slots, and no write goes there
const ERASE_SUSPENDED: [Deed; 31] = [
    Fresh,
    Sends(0x06, 0),
    Sends(0x98, 0),
    Puts(0, LIVE, 6, 0x11),
    Puts(128, LIVE, 5, 0x22),
    Sends(0x06, 0),
    Erases(0x20, 0x01, 0x10),
    Sends(0xb0, 0),
    Misses(5, 17),
    Reads(0x0fff, 255, 1),
    Reads(0x1000, 0, 0),
    Reads(0x1fff, 0, 0),
    Reads(0x2000, 255, 1),
    Stores(5, 0x33, 2, [1, 1, 0, 0, 0], 0, 2),
    Holds(1, LIVE, 5, 0x33),
    Holds(128, LIVE, 5, 0x22),
    Sends(0x30, 0),
    Misses(5, 5),
    Completes,
    IsEmpty(128),
    Finds(5, 0x33),
    // the whole list
    Sends(0x06, 0),
    Erases(0xd8, 0x01, 0x00),
    Sends(0xb0, 0),
    Stores(5, 0x44, 2, [1; 5], 16, 0),
    Misses(5, 17),
    Reads(0xffff, 0, 0),
    Cuts(70000, 0xff),
    Finds(5, 0x33),
    Holds(0, LIVE, 6, 0x11),
    Outside,
];

// "Every frame except one refused with 1 or 2 uses up the enable": the store's own 1 sends nothing
const RESET_ENABLE: [Deed; 19] = [
    Fresh,
    Sends(0x66, 0),
    MissesWith(DATA_SHORT, 1),
    Sends(0x99, 0),
    Sends(0x66, 0),
    Stores(7, 1, 65536, [1; 5], 1, 0),
    Sends(0x99, 0),
    Sends(0x66, 0),
    Misses(7, 17),
    Sends(0x99, 6),
    Sends(0x66, 0),
    Stores(7, 1, 3, [1; 5], 11, 0),
    Sends(0x99, 6),
    Sends(0x06, 0),
    Sends(0x98, 0),
    Full,
    Sends(0x66, 0),
    Stores(7, 1, 3, [1; 5], 16, 0),
    Sends(0x99, 6),
];

// W-205: "The first k bytes are finished", byte k becomes "old AND (finished OR m)": a power cut tears the write that a call left running. Then the list is locked.
const CUT_SHORT: [Deed; 29] = [
    Fresh,
    Sends(0x06, 0),
    Sends(0x98, 0),
    Stores(7, 1, 3, [1, 0, 0, 0, 0], 18, 4),
    Cuts(1, 0xff),
    Holds(0, [0x53, 0xff], 7, 1),
    Misses(7, 17),
    Stores(7, 2, 3, [1; 5], 11, 0),
    Sends(0x98, 0),
    Stores(7, 2, 3, [1, 1, 0, 0, 0], 0, 2),
    Holds(1, LIVE, 7, 2),
    Stores(7, 3, 3, [1, 0, 0, 0, 0], 18, 4),
    // slot 2 is at 64 of its page: 53 OR F0 is F3
    Cuts(64, 0xf0),
    Holds(2, [0xf3, 0xff], 7, 3),
    Finds(7, 2),
    Sends(0x06, 0),
    Sends(0x98, 0),
    // cut before its clearing: two are live, and the older one counts
    Stores(7, 4, 3, [1, 1, 0, 0, 0], 18, 5),
    Cuts(0, 0xff),
    Holds(1, LIVE, 7, 2),
    Holds(3, LIVE, 7, 4),
    Finds(7, 2),
    Sends(0x06, 0),
    Sends(0x98, 0),
    Stores(7, 5, 3, [1, 1, 1, 1, 0], 0, 4),
    Holds(1, CLEARED, 7, 2),
    Holds(3, CLEARED, 7, 4),
    Finds(7, 5),
    Outside,
];

// "Completion sets BUSY and WEL to 0": a 06 before the call makes no difference to a store, and a lookup keeps WEL.
const ENABLED_BEFORE: [Deed; 10] = [
    Fresh,
    Sends(0x06, 0),
    Sends(0x98, 0),
    Sends(0x06, 0),
    ENABLED,
    Misses(7, 17),
    ENABLED,
    Stores(7, 1, 2, [2, 2, 0, 0, 0], 0, 4),
    IDLE,
    Finds(7, 1),
];

// The steps of each sentence.
pub const SENTENCES: [&[Deed]; 14] = [
    &LOCKED,
    &IN_ORDER,
    &POLLS_USED_UP,
    &ALLOWANCES,
    &LENGTHS,
    &IN_SQI,
    &NO_EMPTY_SLOT,
    &ALL_FF,
    &LOWEST_FIRST,
    &PAGE_SUSPENDED,
    &ERASE_SUSPENDED,
    &RESET_ENABLE,
    &CUT_SHORT,
    &ENABLED_BEFORE,
];
