// The number of an answer: document 01's list, then 02's.
ghost use Rattle.std.specs.Prelude.{◌≡◌};
ghost use Rattle.rules.specs.Numbers.{answer_number};

use rules::Refusal;

pub fn answer_number(answer: Result<(), Refusal>) -> u8
    ensures { result ≡ answer_number answer }
{
    match answer {
        Ok(()) => 0,
        Err(why) => why as u8,
    }
}
