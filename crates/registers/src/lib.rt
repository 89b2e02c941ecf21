// The registers as read.
#![tactic(auto)]

ghost use Rattle.std.specs.Prelude.{◌≡◌};
ghost use Rattle.rules.specs.Registers.{status, configuration};

use rules::{Rest, Works};

// Status, bit by bit.
pub fn status_of(r: Rest) -> u8
    ensures { result ≡ status r }
{
    let Works {
        running: run,
        suspended: aside,
    } = r.works;
    let busy = !blocks::is_nothing(run);
    let wse = blocks::is_erase(aside);
    let wsp = blocks::is_program(aside);
    (busy as u8)
        | ((r.flags.wel as u8) << 1)
        | ((wse as u8) << 2)
        | ((wsp as u8) << 3)
        | ((r.flags.wpld as u8) << 4)
        | ((r.flags.sec as u8) << 5)
        | ((busy as u8) << 7)
}

pub fn configuration_of(r: Rest) -> u8
    ensures { result ≡ configuration r }
{
    let bpnv = r.locks.permanent == 0;
    ((r.flags.ioc as u8) << 1) | ((bpnv as u8) << 3) | ((r.flags.wpen as u8) << 7)
}
