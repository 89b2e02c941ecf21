// Document 02, W-203: a whole idle chip as a file. The types, and an answer's number; what they mean is in specs/.
#![tactic(auto)]

ghost use Rattle.std.specs.Prelude.{◌≡◌};
ghost use Rattle.image.specs.Promises.{posted_number};

use rules::Chip;

// Why a file is not written, or not read: document 02's numbers.
#[derive(Clone, Copy)]
pub enum FileRefusal {
    Malformed = 1,
    AtWork = 14,
    WrongFile = 15,
}

// What reading a file gives back: the answer, and the record afterwards, which a refusal leaves as it was.
#[derive(Clone, Copy)]
pub struct Received {
    pub answer: Result<(), FileRefusal>,
    pub chip: Chip,
}

// What of a file is not as it must be.
#[derive(Clone, Copy)]
pub enum What {
    Length,
    Mark,
    Sum,
    PageNumber,
    BurstCode,
    ReadLock,
    Unprotected,
}

// The first thing that is wrong with a file: in which record, counted from 0 (RG, SI, then the pages), what stands there, and what belongs there.
#[derive(Clone, Copy)]
pub struct Fault {
    pub what: What,
    pub at: usize,
    pub found: u64,
    pub due: u64,
}

// 0 for done, or the refusal's number.
pub fn number(answer: Result<(), FileRefusal>) -> u8
    ensures { result ≡ posted_number answer }
{
    match answer {
        Ok(()) => 0,
        Err(why) => why as u8,
    }
}
