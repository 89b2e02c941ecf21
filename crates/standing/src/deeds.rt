// What a line asks for, by its verb: crate grammar, specs/Verbs.
ghost use Rattle.std.specs.Prelude.{◌≡◌};
ghost use Rattle.standing.specs.Deeds.{deed_of};

use crate::{Call, Deed, Event, Post, Question, Setting};
use grammar::Verb;

#[tactic(auto, unfolding(crate::specs::Deeds::deed_of))]
pub fn deed_of(verb: Verb) -> Deed
    ensures { result ≡ deed_of verb }
{
    match verb {
        Verb::Blank => Deed::Nothing,
        Verb::Frame => Deed::Event(Event::Frame),
        Verb::Done => Deed::Event(Event::Completion),
        Verb::Cut => Deed::Event(Event::Cut),
        Verb::New => Deed::Setting(Setting::New),
        Verb::Status => Deed::Question(Question::Status),
        Verb::Work => Deed::Question(Question::Work),
        Verb::Locks => Deed::Question(Question::Locks),
        Verb::Dump => Deed::Question(Question::Dump),
        Verb::Full => Deed::Setting(Setting::Full),
        Verb::Short => Deed::Setting(Setting::Short),
        Verb::Strict => Deed::Setting(Setting::Strict),
        Verb::Fill => Deed::Setting(Setting::Fill),
        Verb::Buffer => Deed::Setting(Setting::Buffer),
        Verb::Lend => Deed::Setting(Setting::Lend),
        Verb::Record => Deed::Setting(Setting::Record),
        Verb::Is => Deed::Question(Question::Is),
        Verb::Pattern => Deed::Setting(Setting::Pattern),
        Verb::Save => Deed::Post(Post::Save),
        Verb::Load => Deed::Post(Post::Load),
        Verb::SaveRaw => Deed::Post(Post::SaveRaw),
        Verb::LoadRaw => Deed::Post(Post::LoadRaw),
        Verb::CompareRaw => Deed::Post(Post::CompareRaw),
        Verb::Store => Deed::Call(Call::Store),
        Verb::Find => Deed::Call(Call::Find),
        Verb::Stations => Deed::Call(Call::Stations),
        Verb::Wrong => Deed::Wrong,
    }
}
