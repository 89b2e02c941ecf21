// What an event gives back where the page buffer lies with the caller.
#![tactic(auto)]

ghost use Rattle.std.specs.Prelude.{◌≡◌};

use rules::{Refusal, Rest, Turn};

pub fn refused(why: Refusal, r: Rest) -> Turn
    ensures { result ≡ record { answer = Err why; rest = r } }
{
    Turn {
        answer: Err(why),
        rest: r,
    }
}

pub fn done(r: Rest) -> Turn
    ensures { result ≡ record { answer = Ok tt; rest = r } }
{
    Turn {
        answer: Ok(()),
        rest: r,
    }
}
