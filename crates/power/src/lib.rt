// Power-up and reset.
#![tactic(auto)]

ghost use Rattle.std.specs.Prelude.{◌≡◌, false};
ghost use Rattle.rules.specs.Fields.{with_enable};
ghost use Rattle.rules.specs.Commands.{power_up_ioc, powered_up, after_reset};

use rules::{Burst, Flags, Locks, Rest, Works};

// IOC at power-up and after a reset, by the part.
fn power_up_ioc(ba: bool) -> bool
    ensures { result ≡ power_up_ioc ba }
{
    ba
}

// The power-up state, with what outlives a power cut.
pub fn powered_up(ba: bool, sec: bool, wpen: bool, permanent: u64) -> Rest
    ensures { result ≡ powered_up ba sec wpen permanent }
{
    Rest {
        locks: Locks {
            protection: 0x5555_ffff_ffff,
            permanent,
        },
        works: Works::default(),
        flags: Flags {
            ba,
            sec,
            ioc: power_up_ioc(ba),
            wpen,
            ..Flags::default()
        },
        burst: Burst::default(),
    }
}

// Of a new chip.
pub fn new_rest(ba: bool) -> Rest
    ensures { result ≡ powered_up ba false false 0 }
{
    powered_up(ba, false, false, 0)
}

pub fn reset(r: Rest) -> Rest
    ensures { result ≡ after_reset (with_enable false r) }
{
    let mut next = r;
    next.works = Works::default();
    next.burst = Burst::default();
    next.flags.sqi = false;
    next.flags.wel = false;
    next.flags.ioc = power_up_ioc(r.flags.ba);
    next.flags.enable = false;
    next
}
