// What is compared of the two models.
use comparing::comparisons::Compared;
use std::fmt;

#[derive(Clone, Copy, PartialEq, Eq)]
pub enum Comparison {
    WritingNumber,
    File,
    // what a refusal leaves as it was
    BufferLeft,
    ReadingNumber,
    Record,
    Array,
    SecurityId,
    ArrayLeft,
    SecurityIdLeft,
    RecordLeft,
    DueNumber,
    // what is read is what was written
    ArrayBack,
    SecurityIdBack,
    RecordBack,
    WrittenAgain,
    WrittenAgainBySecond,
    Part,
}

// Listed by hand: no derive gives an enum's variants.
pub const COMPARISONS: [Comparison; 17] = [
    Comparison::WritingNumber,
    Comparison::File,
    Comparison::BufferLeft,
    Comparison::ReadingNumber,
    Comparison::Record,
    Comparison::Array,
    Comparison::SecurityId,
    Comparison::ArrayLeft,
    Comparison::SecurityIdLeft,
    Comparison::RecordLeft,
    Comparison::DueNumber,
    Comparison::ArrayBack,
    Comparison::SecurityIdBack,
    Comparison::RecordBack,
    Comparison::WrittenAgain,
    Comparison::WrittenAgainBySecond,
    Comparison::Part,
];

impl fmt::Display for Comparison {
    fn fmt<W: fmt::Write>(&self, f: &mut fmt::Formatter<W>) -> fmt::Result {
        f.write_str(match self {
            Comparison::WritingNumber => "writing's number",
            Comparison::File => "file",
            Comparison::BufferLeft => "buffer left",
            Comparison::ReadingNumber => "reading's number",
            Comparison::Record => "record",
            Comparison::Array => "array",
            Comparison::SecurityId => "Security ID",
            Comparison::ArrayLeft => "array left",
            Comparison::SecurityIdLeft => "Security ID left",
            Comparison::RecordLeft => "record left",
            Comparison::DueNumber => "number that is due",
            Comparison::ArrayBack => "array given back",
            Comparison::SecurityIdBack => "Security ID given back",
            Comparison::RecordBack => "record given back",
            Comparison::WrittenAgain => "written again",
            Comparison::WrittenAgainBySecond => "written again by the second",
            Comparison::Part => "part",
        })
    }
}

impl Compared for Comparison {
    fn mask(self) -> u64 {
        1 << (self as u64)
    }
}
