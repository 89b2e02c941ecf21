// The refusals 3 to 11 and 13 of a frame, each by its opcode.
#![tactic(auto)]

ghost use Rattle.std.specs.Prelude.{◌≡◌, not, ◌≤◌, length};
ghost use Rattle.rules.specs.Frames.{least_length, listed, length_right};
ghost use Rattle.rules.specs.Programs.{reaches_first};
ghost use Rattle.rules.specs.Numbers.{answer_number, while_busy, no_enable, no_ioc, no_such_burst, closed, locked_target, first, command_tests};
ghost use Rattle.judging.specs.Judging.{Judgeable, change_tests};

use rules::{Form, Refusal, Rest};

// ---- 3 to 7, and 13; 8 is in crate `beside`

// The length of a form in the protocol in force.
fn least_length(r: Rest, f: Form) -> usize
    ensures { result ≡ least_length r.flags.sqi f }
{
    if r.flags.sqi { f.sqi } else { f.spi }
}

fn not_listed(r: Rest, f: Form) -> bool
    ensures { result ≡ not (listed r.flags.sqi f) }
{
    least_length(r, f) == 0
}

fn wrong_length(r: Rest, f: Form, n: usize) -> bool
    ensures { result ≡ not (length_right r.flags.sqi f n) }
{
    let least = least_length(r, f);
    !((n == least) | f.more & (least < n))
}

fn while_busy(r: Rest, op: u8) -> bool
    ensures { result ≡ while_busy r op }
{
    !blocks::is_nothing(r.works.running) & !named::passes_busy(op)
}

fn no_enable(r: Rest, op: u8) -> bool
    ensures { result ≡ no_enable r op }
{
    named::is(op, 0x99) & !r.flags.enable
}

fn no_ioc(r: Rest, op: u8) -> bool
    ensures { result ≡ no_ioc r op }
{
    named::needs_ioc(op) & !r.flags.ioc
}

// A C0 byte above 03.
fn no_such_burst(op: u8, sent: &[u8]) -> bool
    ensures { result ≡ no_such_burst op sent.now }
{
    named::is(op, 0xc0) & (3 < opcodes::sent_byte(sent, 1))
}

// ---- 9 to 11

// A5 sends a byte to places 0 to 7.
fn reaches_first(sent: &[u8]) -> bool
    requires { length sent.now ≤ 65536 }
    ensures { result ≡ reaches_first sent.now }
{
    if sent.len() < 4 {
        return false;
    }
    let a = opcodes::security_address_of(sent);
    let at = a % 256;
    let n = sent.len() - 3;
    (a < 256) & ((at < 8) | (256 < at + n))
}

fn is_closed(r: Rest, op: u8, sent: &[u8]) -> bool
    requires { length sent.now ≤ 65536 }
    ensures { result ≡ closed r op sent.now }
{
    if op == 0xa5 {
        return r.flags.sec | reaches_first(sent);
    }
    named::changes_locks(op) & r.flags.wpld | named::to_security(op) & r.flags.sec
}

fn is_locked(r: Rest, op: u8, sent: &[u8]) -> bool
    ensures { result ≡ locked_target r op sent.now }
{
    if op == 0xc7 {
        return r.locks.protection & 0x5555_ffff_ffff != 0;
    }
    if !named::in_a_block(op) {
        return false;
    }
    blocks::write_locked(r.locks.protection, opcodes::address_of(sent))
}

// ---- the first that applies

// 9 to 11: none of them is of a command that needs no WEL.
fn judge_change(r: Rest, op: u8, sent: &[u8]) -> Result<(), Refusal>
    requires { length sent.now ≤ 65536 }
    ensures { answer_number result ≡ first (change_tests r op sent.now) }
{
    if !named::needs_wel(op) {
        return Ok(());
    }
    if !r.flags.wel {
        return Err(Refusal::NoWel);
    }
    if is_closed(r, op, sent) {
        return Err(Refusal::Closed);
    }
    if is_locked(r, op, sent) {
        return Err(Refusal::WriteLocked);
    }
    Ok(())
}

// The number of a frame that is not empty, with a well-formed record and right lengths.
pub fn judge(r: Rest, op: u8, form: Form, sent: &[u8]) -> Result<(), Refusal>
    requires { Judgeable r op form sent.now }
    ensures { answer_number result ≡ first (command_tests r sent.now) }
{
    if not_listed(r, form) {
        return Err(Refusal::NotListed);
    }
    if wrong_length(r, form, sent.len()) {
        return Err(Refusal::WrongLength);
    }
    if while_busy(r, op) {
        return Err(Refusal::Busy);
    }
    if no_enable(r, op) {
        return Err(Refusal::NoEnable);
    }
    if no_ioc(r, op) {
        return Err(Refusal::NoIoc);
    }
    if no_such_burst(op, sent) {
        return Err(Refusal::NoSuchBurst);
    }
    if beside::conflicts(r, op, sent) {
        return Err(Refusal::Suspension);
    }
    judge_change(r, op, sent)
}
