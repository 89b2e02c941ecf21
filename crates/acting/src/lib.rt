// The record without its buffer after a frame.
#![tactic(auto)]

ghost use Rattle.std.specs.Prelude.{◌≡◌, true, false};
ghost use Rattle.rules.specs.Fields.{with_protection, with_running, with_suspended, with_sqi, with_wel, with_wpld, with_enable, with_burst};
ghost use Rattle.rules.specs.Commands.{work_of, at_once, act};

use numbering::burst_of;
use rules::{Burst, Kind, Long, Rest, Short, Work};

// The enable is used up.
pub fn used(r: Rest) -> Rest
    ensures { result ≡ with_enable false r }
{
    let mut next = r;
    next.flags.enable = false;
    next
}

// ---- long commands

// The work that a long command starts.
fn work_of(l: Long, sent: &[u8]) -> Work
    ensures { result ≡ work_of l sent.now }
{
    match l {
        Long::Sector => Work::EraseSector(opcodes::address_of(sent) / 4096),
        Long::Block => Work::EraseBlock(blocks::block_of(opcodes::address_of(sent))),
        Long::Array => Work::EraseArray,
        Long::Page => Work::ProgramPage(opcodes::address_of(sent) / 256),
        Long::SecurityPage => Work::ProgramSecurity(opcodes::security_address_of(sent) / 256),
        Long::SecurityLock => Work::LockSecurity,
        Long::Configuration => {
            let v = opcodes::sent_byte(sent, 2);
            Work::WriteConfiguration(blocks::bit_at(v, 1), blocks::bit_at(v, 7))
        }
        Long::Permanent => Work::AddPermanent(opcodes::six_of(sent)),
    }
}

fn begin(r: Rest, w: Work) -> Rest
    ensures { result ≡ with_running w (with_enable false r) }
{
    let mut next = used(r);
    next.works.running = w;
    next
}

// ---- commands that act at once

fn suspend(r: Rest) -> Rest
    ensures { result ≡ with_suspended r.works.running (with_running Work.Nothing (with_enable false r)) }
{
    let mut next = used(r);
    next.works.suspended = r.works.running;
    next.works.running = Work::Nothing;
    next
}

fn resume(r: Rest) -> Rest
    ensures { result ≡ with_running r.works.suspended (with_suspended Work.Nothing (with_enable false r)) }
{
    let mut next = used(r);
    next.works.running = r.works.suspended;
    next.works.suspended = Work::Nothing;
    next
}

fn with_wel(r: Rest, on: bool) -> Rest
    ensures { result ≡ with_wel on (with_enable false r) }
{
    let mut next = used(r);
    next.flags.wel = on;
    next
}

fn with_protocol(r: Rest, sqi: bool) -> Rest
    ensures { result ≡ with_sqi sqi (with_enable false r) }
{
    let mut next = used(r);
    next.flags.sqi = sqi;
    next
}

fn with_locks(r: Rest, p: u64) -> Rest
    ensures { result ≡ with_wel false (with_protection p (with_enable false r)) }
{
    let mut next = used(r);
    next.locks.protection = p;
    next.flags.wel = false;
    next
}

fn locked_down(r: Rest) -> Rest
    ensures { result ≡ with_wel false (with_wpld true (with_enable false r)) }
{
    let mut next = used(r);
    next.flags.wpld = true;
    next.flags.wel = false;
    next
}

fn enabled(r: Rest) -> Rest
    ensures { result ≡ with_enable true r }
{
    let mut next = r;
    next.flags.enable = true;
    next
}

fn with_burst(r: Rest, b: Burst) -> Rest
    ensures { result ≡ with_burst b (with_enable false r) }
{
    Rest {
        burst: b,
        ..used(r)
    }
}

fn at_once(s: Short, sent: &[u8], r: Rest) -> Rest
    ensures { result ≡ at_once s sent.now 0 (with_enable false r) }
{
    match s {
        Short::Nothing => used(r),
        Short::EnableReset => enabled(r),
        Short::Reset => power::reset(r),
        Short::ToSqi => with_protocol(r, true),
        Short::ToSpi => with_protocol(r, false),
        Short::SetWel => with_wel(r, true),
        Short::ClearWel => with_wel(r, false),
        Short::WriteProtection => {
            let v = opcodes::six_of(sent);
            with_locks(r, (v & 0xffff_ffff_ffff) | r.locks.permanent)
        }
        Short::LockDown => locked_down(r),
        Short::ClearLocks => {
            with_locks(
                r,
                (r.locks.protection & 0xaaaa_0000_0000) | r.locks.permanent,
            )
        }
        Short::Suspend => suspend(r),
        Short::Resume => resume(r),
        Short::SetBurst => with_burst(r, burst_of(opcodes::sent_byte(sent, 1))),
    }
}

// After a done frame. Only a reset looks at k, and one that may stop work is settling's: here k is 0.
pub fn acted(kind: Kind, sent: &[u8], r: Rest) -> Rest
    ensures { result ≡ act kind sent.now 0 (with_enable false r) }
{
    match kind {
        Kind::Show(_) => used(r),
        Kind::Begin(l) => begin(r, work_of(l, sent)),
        Kind::Do(s) => at_once(s, sent, r),
    }
}
