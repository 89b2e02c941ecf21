// The row of a question. specs/Heads.antt.
ghost use Rattle.std.specs.Prelude.{◌≡◌};
ghost use Rattle.heads.specs.Heads.{dump_row, question_row};

use rows::Row;
use rules::Rest;
use showing::dumped;
use standing::Question;

// A dump says how many bytes there are.
#[tactic(auto, unfolding(crate::specs::Heads::dump_row))]
fn dump(line: u64, slots: [u64; 24]) -> Row
    ensures { result ≡ dump_row line slots }
{
    let n = dumped(slots);
    let id = (slots[10] as usize).min(1);
    rows::numbered(line, 170 + id, slots[7], n as u64, 0)
}

pub fn row(line: u64, q: Question, slots: [u64; 24], number: u8, rest: Rest) -> Row
    ensures { result ≡ question_row q line slots number rest }
{
    let locks = rest.locks;
    let works = rest.works;
    let run = works.running;
    match q {
        Question::Status => rows::numbered(line, 140, u64::from(registers::status_of(rest)), 0, 0),
        Question::Work => rows::work_places(rows::numbered(line, 156, 0, 0, 0), run),
        Question::Locks => rows::numbered(line, 158, locks.protection, locks.permanent, 0),
        Question::Dump => dump(line, slots),
        Question::Is => rows::numbered(line, 217 + usize::from(number).min(1), 0, 0, 0),
    }
}
