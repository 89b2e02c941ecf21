// What is compared of the two models.
use comparing::comparisons::Compared;
use std::fmt;

#[derive(Clone, Copy, PartialEq, Eq)]
pub enum Comparison {
    Number,
    Polls,
    Record,
    Array,
    SecurityId,
    Reply,
    Marks,
    Buffer,
    // what a refusal leaves as it was
    RecordLeft,
    ReadLeft,
    BufferLeft,
    // what a call has to come to
    DataGivenBack,
    NumberByRead,
    PollsByList,
    EventNumber,
    EventRecord,
}

// Listed by hand: no derive gives an enum's variants.
pub const COMPARISONS: [Comparison; 16] = [
    Comparison::Number,
    Comparison::Polls,
    Comparison::Record,
    Comparison::Array,
    Comparison::SecurityId,
    Comparison::Reply,
    Comparison::Marks,
    Comparison::Buffer,
    Comparison::RecordLeft,
    Comparison::ReadLeft,
    Comparison::BufferLeft,
    Comparison::DataGivenBack,
    Comparison::NumberByRead,
    Comparison::PollsByList,
    Comparison::EventNumber,
    Comparison::EventRecord,
];

impl fmt::Display for Comparison {
    fn fmt<W: fmt::Write>(&self, f: &mut fmt::Formatter<W>) -> fmt::Result {
        f.write_str(match self {
            Comparison::Number => "number",
            Comparison::Polls => "polls",
            Comparison::Record => "record",
            Comparison::Array => "array",
            Comparison::SecurityId => "Security ID",
            Comparison::Reply => "reply",
            Comparison::Marks => "marks",
            Comparison::Buffer => "buffer",
            Comparison::RecordLeft => "record left",
            Comparison::ReadLeft => "reply and marks left",
            Comparison::BufferLeft => "buffer left",
            Comparison::DataGivenBack => "data given back",
            Comparison::NumberByRead => "number by what the read shows",
            Comparison::PollsByList => "polls by the list",
            Comparison::EventNumber => "event's number",
            Comparison::EventRecord => "event's record",
        })
    }
}

impl Compared for Comparison {
    fn mask(self) -> u64 {
        1 << (self as u64)
    }
}
