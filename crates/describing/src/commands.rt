// A frame's command by its name, its operands, and the answer. specs/Commands.antt.
ghost use Rattle.std.specs.Prelude.{◌≡◌, ◌+◌, ◌-◌, ◌≤◌, get_or};
ghost use Rattle.rules.specs.Frames.{form_of, opcode};
ghost use Rattle.page.specs.Page.{form};
ghost use Rattle.describing.specs.Commands.{opcodes, place_of, operands, operand_on, name_on, command_on, on_row, done_on, answer_on};

use byte_text::marked_bytes;
use page::form;
use rules::Kind;
use writing::Row;

// The place of the byte in the table, or its size. A for: of `position` the check left a goal.
#[tactic(auto, using(crate::proofs::Places::place_here, crate::proofs::Places::place_later, crate::proofs::Places::place_none))]
fn place_of(table: &[u8], op: u8) -> usize
    ensures { result ≡ place_of table.now op }
{
    for (i, x) in table.iter().enumerate() {
        if op == *x {
            return i;
        }
    }
    table.len()
}

// Its place among the opcodes of the table.
#[tactic(auto, using(crate::proofs::Places::place_within), unfolding(crate::specs::Commands::opcodes, crate::specs::Commands::opcodes_of, rules::specs::Frames::frames))]
fn opcode_place(op: u8) -> usize
    ensures value { result ≡ place_of opcodes op }
    ensures small { result ≤ 33 }
{
    place_of(
        b"\x00\x66\x99\x38\xff\x05\x35\x72\x9f\xaf\x03\x0b\x6b\x88\x06\x04\x20\xd8\xc7\x02\x32\xa5\x85\x01\x42\xe8\x8d\x98\xb0\x30\xc0\x0c\xec",
        op,
    )
}

pub fn opcode_of(sent: &[u8]) -> u8
    ensures { result ≡ opcode sent.now }
{
    opcodes::sent_byte(sent, 0) as u8
}

pub fn less(n: usize, k: usize) -> u64
    ensures { result ≡ n - k }
{
    n.saturating_sub(k) as u64
}

// What the frame says behind its opcode: an address, or that and how many bytes, a register, the configuration, the burst.
#[tactic(auto, using(crate::proofs::Operands::kind_is), unfolding(crate::specs::Commands::operand_on))]
fn operand(r: Row, sent: &[u8]) -> Row
    ensures { result ≡ operand_on (get_or operands (place_of opcodes (opcode sent.now)) 0) sent.now r }
{
    let place = opcodes::address_of(sent) as u64;
    let security = opcodes::security_address_of(sent) as u64;
    match opcode_of(sent) {
        0x03 | 0x0b | 0x6b | 0x20 | 0xd8 | 0x0c | 0xec => form(r, 139, place, 0, 0),
        0x02 | 0x32 => form(r, 134, place, less(sent.len(), 4), 0),
        0x42 | 0xe8 => form(r, 135, opcodes::six_of(sent), 0, 0),
        0x88 => form(r, 136, security, 0, 0),
        0xa5 => form(r, 137, security, less(sent.len(), 3), 0),
        0x01 => form(r, 138, opcodes::sent_byte(sent, 2), 0, 0),
        0xc0 => form(r, 138, opcodes::sent_byte(sent, 1), 0, 0),
        _ => r,
    }
}

fn name(r: Row, op: u8, place: usize) -> Row
    requires { place ≤ 33 }
    ensures { result ≡ form (100 + place) op 0 0 r }
{
    form(r, 100 + place, u64::from(op), 0, 0)
}

#[tactic(auto, unfolding(crate::specs::Commands::command_on, crate::specs::Commands::name_on))]
fn command(r: Row, sent: &[u8], number: u8) -> Row
    ensures { result ≡ command_on sent.now number r }
{
    let op = opcode_of(sent);
    let r = name(r, op, opcode_place(op));
    if number == 0 || 4 < number {
        return operand(r, sent);
    }
    r
}

// A reply of that length stands on the row, where the command replies.
#[tactic(auto, unfolding(crate::specs::Commands::on_row))]
fn on_row(k: Kind, n: usize) -> bool
    ensures { result ≡ on_row k n }
{
    matches!(k, Kind::Show(_)) && 0 < n && n <= 8
}

#[tactic(auto, unfolding(crate::specs::Commands::done_on))]
fn done(r: Row, k: Kind, reply: &[u8], marks: &[u8]) -> Row
    ensures { result ≡ done_on k reply.now marks.now r }
{
    if matches!(k, Kind::Begin(_)) {
        return form(r, 3, 0, 0, 0);
    }
    if on_row(k, reply.len()) {
        let r = form(r, 5, 0, 0, 0);
        return marked_bytes(r, reply, marks, 0, 8);
    }
    form(r, 2, 0, 0, 0)
}

// The command and the answer, behind the row.
#[tactic(auto, unfolding(crate::specs::Commands::answer_on))]
pub fn answer(r: Row, sent: &[u8], number: u8, reply: &[u8], marks: &[u8]) -> Row
    ensures { result ≡ answer_on sent.now number reply.now marks.now r }
{
    if number == 0 {
        let f = opcodes::form_of(opcode_of(sent));
        let r = command(r, sent, 0);
        return done(r, f.kind, reply, marks);
    }
    if sent.is_empty() {
        return form(r, 21, u64::from(number), 0, 0);
    }
    let r = command(r, sent, number);
    form(r, 4, u64::from(number), 0, 0)
}

// Whether a reply of n bytes stands on the row of its frame.
pub fn reply_on_row(sent: &[u8], n: usize) -> bool
    ensures { result ≡ on_row (form_of (opcode sent.now)).kind n }
{
    on_row(opcodes::form_of(opcode_of(sent)).kind, n)
}
