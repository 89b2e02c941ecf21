// The commands that the programmer knows, and the answer to each.
ghost use Rattle.std.specs.Prelude.{◌≡◌, ◌≤◌, true, false, [], ◌∷◌, length};
ghost use Rattle.serprog.specs.Commands.{ack, shape_of, answer_of, length24, fits, right_or_not, frequency_bytes, operation_bytes, map_bytes, answer_bytes};

use crate::{Answer, Command, Shape};

fn shape(command: Command, parameters: usize, sends: bool) -> Shape
    ensures { result ≡ record { command = command; parameters = parameters; sends = sends } }
{
    Shape {
        command,
        parameters,
        sends,
    }
}

// The table of commands, by the code.
#[tactic(auto, unfolding(crate::specs::Commands::shape_of, crate::specs::Commands::find, crate::specs::Commands::rows))]
pub fn shape_of(code: u8) -> Shape
    ensures { result ≡ shape_of code }
{
    match code {
        0x00 => shape(Command::Nothing, 0, false),
        0x01 => shape(Command::Version, 0, false),
        0x02 => shape(Command::Map, 0, false),
        0x03 => shape(Command::Name, 0, false),
        0x04 => shape(Command::BufferSize, 0, false),
        0x05 => shape(Command::Buses, 0, false),
        0x10 => shape(Command::Sync, 0, false),
        0x12 => shape(Command::SetBus, 1, false),
        0x13 => shape(Command::Operation, 6, true),
        0x14 => shape(Command::SetFrequency, 4, false),
        0x15 => shape(Command::SetPins, 1, false),
        _ => shape(Command::Unlisted, 0, false),
    }
}

// A length of 24 bits, low byte first.
pub fn length_of(low: u8, middle: u8, high: u8) -> usize
    ensures { result ≡ length24 low middle high }
{
    u32::from_le_bytes([low, middle, high, 0]) as usize
}

// Whether both lengths are within the chip's sizes.
pub fn lengths_fit(send: usize, receive: usize) -> bool
    ensures { result ≡ fits send receive }
{
    (send <= 65536) & (receive <= 65536)
}

// An answer of these bytes; the others are 0.
fn answer_of(first: &[u8]) -> Answer
    requires { length first.now ≤ 33 }
    ensures { result ≡ answer_of first.now }
{
    let mut bytes = [0u8; 33];
    bytes[..first.len()].copy_from_slice(first);
    Answer {
        bytes,
        count: first.len(),
    }
}

// The map's bytes with a listed command; the others are 0.
fn map() -> Answer
    ensures { result ≡ answer_of (ack ∷ map_bytes) }
{
    let mut bytes = [0u8; 33];
    bytes[0] = 0x06;
    bytes[1] = 0b00111111;
    bytes[3] = 0b00111101;
    answer_of(&bytes)
}

fn right_or_not(right: bool) -> Answer
    ensures { result ≡ answer_of (right_or_not right) }
{
    if right {
        answer_of(&[0x06])
    } else {
        answer_of(&[0x15])
    }
}

fn frequency(a: u8, b: u8, c: u8, d: u8) -> Answer
    ensures { result ≡ answer_of (frequency_bytes a b c d) }
{
    if (a == 0) & (b == 0) & (c == 0) & (d == 0) {
        answer_of(&[0x15])
    } else {
        answer_of(&[0x06, a, b, c, d])
    }
}

fn operation(p: &[u8; 6]) -> Answer
    ensures { result ≡ answer_of (operation_bytes p.now) }
{
    let send = length_of(p[0], p[1], p[2]);
    let receive = length_of(p[3], p[4], p[5]);
    right_or_not(lengths_fit(send, receive))
}

// The answer to a command with these parameter bytes; of an operation its first byte.
#[tactic(auto, unfolding(crate::specs::Commands::name_bytes, rules::specs::Words::bit))]
pub fn answer_to(c: Command, p: &[u8; 6]) -> Answer
    ensures { result ≡ answer_of (answer_bytes c p.now) }
{
    match c {
        Command::Nothing => answer_of(&[0x06]),
        Command::Version => answer_of(&[0x06, 0x01, 0x00]),
        Command::Map => map(),
        Command::Name => answer_of(b"\x06Fulkibono\0\0\0\0\0\0\0"),
        Command::BufferSize => answer_of(&[0x06, 0xff, 0xff]),
        Command::Buses => answer_of(&[0x06, 0x08]),
        Command::Sync => answer_of(&[0x15, 0x06]),
        Command::SetBus => right_or_not(p[0] / 8 % 2 == 1),
        Command::Operation => operation(p),
        Command::SetFrequency => frequency(p[0], p[1], p[2], p[3]),
        Command::SetPins => answer_of(&[0x06]),
        Command::Unlisted => answer_of(&[0x15]),
    }
}
