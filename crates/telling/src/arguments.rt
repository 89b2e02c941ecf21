// The words of the command line. specs/Arguments.antt.
ghost use Rattle.std.specs.Prelude.{◌≡◌};
ghost use Rattle.rules.specs.Texts.{ascii};
ghost use Rattle.telling.specs.Arguments.{argument_of};

use crate::Argument;

#[tactic(auto, using(crate::proofs::Words::same_is), unfolding(crate::specs::Arguments::argument_of))]
pub fn argument_of(word: &[u8]) -> Argument
    ensures { result ≡ argument_of word.now }
{
    if word == b"--strict".as_slice() {
        Argument::Strict
    } else if word == b"--prompt".as_slice() {
        Argument::Prompt
    } else if word == b"-".as_slice() {
        Argument::Input
    } else {
        Argument::Script
    }
}
