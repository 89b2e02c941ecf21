// The opcode decision: kind, frame length and protocol.
#![tactic(auto)]

ghost use Rattle.std.specs.Prelude.{◌≡◌, true, false, ◌+◌, ◌*◌, ◌<◌};
ghost use Rattle.rules.specs.Blocks.{array_size_lem, security_size_lem};
ghost use Rattle.rules.specs.Frames.{form_of, sent_byte, address, security_address, six};

use rules::{Form, Kind, Long, Short, Source};

// A length of 0: not in this protocol.
fn exact(kind: Kind, spi: usize, sqi: usize) -> Form
    ensures { result ≡ record { kind = kind; spi = spi; sqi = sqi; more = false } }
{
    Form {
        kind,
        spi,
        sqi,
        more: false,
    }
}

// That length or more.
fn at_least(kind: Kind, spi: usize, sqi: usize) -> Form
    ensures { result ≡ record { kind = kind; spi = spi; sqi = sqi; more = true } }
{
    Form {
        more: true,
        ..exact(kind, spi, sqi)
    }
}

// The table of frames, document 01's and 02's, by the opcode; an opcode that it does not list is in no protocol.
#[tactic(auto, unfolding(rules::specs::Frames::form_of, rules::specs::Frames::find, rules::specs::Frames::frames))]
pub fn form_of(op: u8) -> Form
    ensures { result ≡ form_of op }
{
    match op {
        0x00 => exact(Kind::Do(Short::Nothing), 1, 1),
        0x01 => exact(Kind::Begin(Long::Configuration), 3, 3),
        0x02 => at_least(Kind::Begin(Long::Page), 5, 5),
        0x03 => exact(Kind::Show(Source::Array), 4, 0),
        0x04 => exact(Kind::Do(Short::ClearWel), 1, 1),
        0x05 => exact(Kind::Show(Source::Status), 1, 2),
        0x06 => exact(Kind::Do(Short::SetWel), 1, 1),
        0x0b => exact(Kind::Show(Source::Array), 5, 7),
        0x0c => exact(Kind::Show(Source::ArrayBurst), 0, 7),
        0x20 => exact(Kind::Begin(Long::Sector), 4, 4),
        0x30 => exact(Kind::Do(Short::Resume), 1, 1),
        0x32 => at_least(Kind::Begin(Long::Page), 5, 0),
        0x35 => exact(Kind::Show(Source::Configuration), 1, 2),
        0x38 => exact(Kind::Do(Short::ToSqi), 1, 0),
        0x42 => exact(Kind::Do(Short::WriteProtection), 7, 7),
        0x66 => exact(Kind::Do(Short::EnableReset), 1, 1),
        0x6b => exact(Kind::Show(Source::Array), 5, 0),
        0x72 => exact(Kind::Show(Source::Protection), 1, 2),
        0x85 => exact(Kind::Begin(Long::SecurityLock), 1, 1),
        0x88 => exact(Kind::Show(Source::Security), 4, 6),
        0x8d => exact(Kind::Do(Short::LockDown), 1, 1),
        0x98 => exact(Kind::Do(Short::ClearLocks), 1, 1),
        0x99 => exact(Kind::Do(Short::Reset), 1, 1),
        0x9f => exact(Kind::Show(Source::Identity), 1, 0),
        0xa5 => at_least(Kind::Begin(Long::SecurityPage), 4, 4),
        0xaf => exact(Kind::Show(Source::Identity), 0, 2),
        0xb0 => exact(Kind::Do(Short::Suspend), 1, 1),
        0xc0 => exact(Kind::Do(Short::SetBurst), 2, 2),
        0xc7 => exact(Kind::Begin(Long::Array), 1, 1),
        0xd8 => exact(Kind::Begin(Long::Block), 4, 4),
        0xe8 => exact(Kind::Begin(Long::Permanent), 7, 7),
        0xec => exact(Kind::Show(Source::ArrayBurst), 7, 0),
        0xff => exact(Kind::Do(Short::ToSpi), 1, 1),
        0x07..=0x0a
        | 0x0d..=0x1f
        | 0x21..=0x2f
        | 0x31
        | 0x33..=0x34
        | 0x36..=0x37
        | 0x39..=0x41
        | 0x43..=0x65
        | 0x67..=0x6a
        | 0x6c..=0x71
        | 0x73..=0x84
        | 0x86..=0x87
        | 0x89..=0x8c
        | 0x8e..=0x97
        | 0x9a..=0x9e
        | 0xa0..=0xa4
        | 0xa6..=0xae
        | 0xb1..=0xbf
        | 0xc1..=0xc6
        | 0xc8..=0xd7
        | 0xd9..=0xe7
        | 0xe9..=0xeb
        | 0xed..=0xfe => exact(Kind::Do(Short::Nothing), 0, 0),
    }
}

// ---- the bytes of a frame

// Byte i of a frame, the opcode's being byte 0; 0 past its end.
fn byte_of(sent: &[u8], i: usize) -> u8
    ensures { result ≡ sent_byte sent.now i }
{
    sent.get(i).copied().unwrap_or(0)
}

// The same as a number.
pub fn sent_byte(sent: &[u8], i: usize) -> u64
    ensures value { result ≡ sent_byte sent.now i }
    ensures small { result < 256 }
{
    u64::from(byte_of(sent, i))
}

// The array address of a frame.
pub fn address_of(sent: &[u8]) -> usize
    ensures value { result ≡ address sent.now }
    ensures inside { result < array_size_lem }
{
    let a = u32::from_be_bytes([0, byte_of(sent, 1), byte_of(sent, 2), byte_of(sent, 3)]);
    (a % 0x20_0000) as usize
}

// The Security ID address of a frame.
pub fn security_address_of(sent: &[u8]) -> usize
    ensures value { result ≡ security_address sent.now }
    ensures inside { result < security_size_lem }
{
    let a = u16::from_be_bytes([byte_of(sent, 1), byte_of(sent, 2)]);
    usize::from(a % 2048)
}

// The register that a frame sends.
pub fn six_of(sent: &[u8]) -> u64
    ensures { result ≡ six sent.now }
{
    u64::from_be_bytes([
        0,
        0,
        byte_of(sent, 1),
        byte_of(sent, 2),
        byte_of(sent, 3),
        byte_of(sent, 4),
        byte_of(sent, 5),
        byte_of(sent, 6),
    ])
}
