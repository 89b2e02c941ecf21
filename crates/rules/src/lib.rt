// The declared types of the bench chip: what every crate of the repository uses. Their meaning is in specs/.
#![tactic(auto)]

// An internal operation that runs or is suspended, with what it needs until it ends.
// Sectors, blocks and pages are given by number: a block by its place in document 01's table, counted from 0.
#[derive(Clone, Copy, PartialEq, Eq, Default)]
pub enum Work {
    #[default]
    Nothing,
    EraseSector(usize),
    EraseBlock(usize),
    EraseArray,
    ProgramPage(usize),
    ProgramSecurity(usize),
    LockSecurity,
    // IOC and WPEN
    WriteConfiguration(bool, bool),
    // the 48 bits that E8 sent
    AddPermanent(u64),
}

// The protection register and the permanent one.
#[derive(Clone, Copy, PartialEq, Eq)]
pub struct Locks {
    pub protection: u64,
    pub permanent: u64,
}

#[derive(Clone, Copy, PartialEq, Eq, Default)]
pub struct Works {
    pub running: Work,
    pub suspended: Work,
}

#[derive(Clone, Copy, PartialEq, Eq, Default)]
pub struct Flags {
    // the part: BA, else the old one. No event changes it, and it stands first: behind those that frames change, a frame takes more instructions
    pub ba: bool,
    pub wpld: bool,
    pub sec: bool,
    pub ioc: bool,
    pub wpen: bool,
    // those that frames change stand together
    pub sqi: bool,
    pub wel: bool,
    // a 99 is taken next
    pub enable: bool,
}

// How many bytes a burst read goes round in.
#[derive(Clone, Copy, PartialEq, Eq, Default)]
pub enum Burst {
    #[default]
    Eight,
    Sixteen,
    ThirtyTwo,
    SixtyFour,
}

// The chip record without its page buffer.
#[derive(Clone, Copy, PartialEq, Eq)]
pub struct Rest {
    pub locks: Locks,
    // apart from the flags: next to them both are moved as one word, and an event takes more instructions
    pub burst: Burst,
    pub works: Works,
    pub flags: Flags,
}

// The chip record.
#[derive(Clone, Copy)]
pub struct Chip {
    pub buffer: [u8; 256],
    pub rest: Rest,
}

// Where work is stopped before its end: the first k bytes of its range are finished, and byte k, counted from 0, is torn by the byte m.
#[derive(Clone, Copy)]
pub struct Tear {
    pub k: u64,
    pub m: u8,
}

// What a frame event carries beside its bytes and its buffers.
#[derive(Clone, Copy)]
pub struct Circumstances {
    // used only by an accepted 99 while busy
    pub tear: Tear,
}

// Why an event is refused: document 01's list, in its order, then document 02's numbers.
#[derive(Clone, Copy, PartialEq, Eq)]
pub enum Refusal {
    Malformed = 1,
    Empty,
    NotListed,
    WrongLength,
    Busy,
    NoEnable,
    NoIoc,
    Suspension,
    NoWel,
    Closed,
    WriteLocked,
    NothingRuns,
    NoSuchBurst,
}

// What an event gives back: the answer (done, or refused), and the record afterwards.
#[derive(Clone, Copy)]
pub struct After {
    pub answer: Result<(), Refusal>,
    pub chip: Chip,
}

// The same where the page buffer lies with the caller: the answer, and the rest of the record.
#[derive(Clone, Copy)]
pub struct Turn {
    pub answer: Result<(), Refusal>,
    pub rest: Rest,
}

// What a reading frame gives.
#[derive(Clone, Copy, PartialEq, Eq)]
pub enum Source {
    Status,
    Configuration,
    Protection,
    Identity,
    Array,
    ArrayBurst,
    Security,
}

// A command that runs until completion.
#[derive(Clone, Copy, PartialEq, Eq)]
pub enum Long {
    Sector,
    Block,
    Array,
    Page,
    SecurityPage,
    SecurityLock,
    Configuration,
    Permanent,
}

// A command that acts at once.
#[derive(Clone, Copy, PartialEq, Eq)]
pub enum Short {
    Nothing,
    EnableReset,
    Reset,
    ToSqi,
    ToSpi,
    SetWel,
    ClearWel,
    WriteProtection,
    LockDown,
    ClearLocks,
    Suspend,
    Resume,
    SetBurst,
}

// What an opcode asks for.
#[derive(Clone, Copy, PartialEq, Eq)]
pub enum Kind {
    Show(Source),
    Begin(Long),
    Do(Short),
}

// The form of an opcode's frames: its length in each protocol (0: not in that protocol), and whether more bytes may follow.
#[derive(Clone, Copy)]
pub struct Form {
    pub kind: Kind,
    pub spi: usize,
    pub sqi: usize,
    pub more: bool,
}

// A protection block: its places, its write-lock bit, and whether the bit above that is its read lock.
#[derive(Clone, Copy)]
pub struct Block {
    pub start: usize,
    pub size: usize,
    pub write: u32,
    pub paired: bool,
}

// Places from start on.
#[derive(Clone, Copy)]
pub struct Range {
    pub start: usize,
    pub size: usize,
}

// A byte of a reply and its mark.
#[derive(Clone, Copy)]
pub struct Cell {
    pub byte: u8,
    pub mark: u8,
}
