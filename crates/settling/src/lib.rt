// The record without its buffer when work ends or is stopped.
#![tactic(auto)]

ghost use Rattle.std.specs.Prelude.{◌≡◌, false};
ghost use Rattle.rules.specs.Fields.{with_enable};
ghost use Rattle.rules.specs.Commands.{after_reset, settled, settled_first, rested, after_cut};

use rules::{Rest, Work};

// The registers that finished work sets.
fn settle(r: Rest) -> Rest
    ensures { result ≡ settled r.works.running r }
{
    let mut next = r;
    match r.works.running {
        Work::LockSecurity => next.flags.sec = true,
        Work::WriteConfiguration(ioc, wpen) => {
            next.flags.ioc = ioc;
            next.flags.wpen = wpen;
        }
        Work::AddPermanent(v) => {
            let more = v & 0x5555_ffff_ffff;
            next.locks.protection |= more;
            next.locks.permanent |= more;
        }
        _ => {}
    }
    next
}

// BUSY and WEL 0.
fn rest(r: Rest) -> Rest
    ensures { result ≡ rested r }
{
    let mut next = r;
    next.works.running = Work::Nothing;
    next.flags.wel = false;
    next
}

// After a completion.
pub fn completed(r: Rest) -> Rest
    ensures { result ≡ rested (settled r.works.running r) }
{
    rest(settle(r))
}

// Where work is stopped after k bytes.
fn settled_first(r: Rest, k: u64) -> Rest
    ensures { result ≡ settled_first k r }
{
    if 0 < k { settle(r) } else { r }
}

// After a power cut.
pub fn cut(r: Rest, k: u64) -> Rest
    ensures { result ≡ after_cut (settled_first k r) }
{
    let left = settled_first(r, k);
    power::powered_up(
        left.flags.ba,
        left.flags.sec,
        left.flags.wpen,
        left.locks.permanent,
    )
}

// After a reset.
pub fn reset(r: Rest, k: u64) -> Rest
    ensures { result ≡ after_reset (settled_first k (with_enable false r)) }
{
    power::reset(settled_first(r, k))
}
