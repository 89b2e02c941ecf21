// The row right below the first one. specs/Heads.antt.
ghost use Rattle.std.specs.Prelude.{◌≡◌};
ghost use Rattle.grammar.specs.Verbs as verbs;
ghost use Rattle.heads.specs.Heads.{answer_below, suspended_row, allowed_row, second_row};

use grammar::Verb;
use rows::Row;
use rules::Work;

#[tactic(auto, unfolding(crate::specs::Heads::answer_below))]
fn answer_below(
    line: u64,
    wanted: usize,
    number: u8,
    sent: &[u8],
    reply: &[u8],
    marks: &[u8],
) -> Row
    ensures { result ≡ answer_below line wanted number sent.now reply.now marks.now }
{
    let left = rows::sent(line, sent, wanted);
    if rows::fits(left) {
        return rows::empty();
    }
    let r = rows::plain(1, 0, 0, 0);
    rows::answer(r, sent, number, reply, marks)
}

#[tactic(auto, unfolding(crate::specs::Heads::suspended_row))]
fn suspended_row(aside: Work) -> Row
    ensures { result ≡ suspended_row aside }
{
    let r = rows::below(157, 0, 0, 0);
    rows::work_places(r, aside)
}

// What is allowed at a place of the grammar.
#[tactic(auto, unfolding(crate::specs::Heads::allowed_row))]
fn allowed_row(place: u8) -> Row
    ensures { result ≡ allowed_row place }
{
    let r = rows::below(177, 0, 0, 0);
    let n = match place {
        0..54 => 222 + usize::from(place),
        54..58 => 257 + usize::from(place),
        _ => 264 + usize::from(place).min(73),
    };
    rows::form(r, n, 0, 0, 0)
}

#[tactic(auto, unfolding(crate::specs::Heads::second_row))]
pub fn second(
    line: u64,
    verb: Verb,
    wanted: usize,
    number: u8,
    aside: Work,
    place: u8,
    sent: &[u8],
    reply: &[u8],
    marks: &[u8],
) -> Row
    ensures { result ≡ second_row (verbs.number verb) line wanted number aside place sent.now reply.now marks.now }
{
    match verb {
        Verb::Frame => answer_below(line, wanted, number, sent, reply, marks),
        Verb::Work => suspended_row(aside),
        Verb::Wrong => allowed_row(place),
        _ => rows::empty(),
    }
}
