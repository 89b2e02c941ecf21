// The rows around a script: its heading, and what it came to. specs/Totals.antt.
ghost use Rattle.std.specs.Prelude.{◌≡◌};
ghost use Rattle.telling.specs.Totals.{heading, total_on, total_row, total_of};

use rows::Row;
use tallies::Tally;

pub fn heading() -> Row
    ensures { result ≡ heading }
{
    rows::plain(22, 0, 0, 0)
}

#[tactic(auto, unfolding(crate::specs::Totals::total_on))]
fn total_on(r: Row, t: Tally) -> Row
    ensures { result ≡ total_on t r }
{
    let r = rows::form(r, 192, t.events, t.refused, t.differences);
    if t.wrong == 0 {
        return r;
    }
    rows::form(r, 193, t.wrong, 0, 0)
}

// The last row of a script.
pub fn total(t: Tally) -> Row
    ensures { result ≡ total_row t }
{
    let r = rows::empty();
    total_on(r, t)
}

// The row of several scripts.
pub fn total_of(scripts: u64, t: Tally) -> Row
    ensures { result ≡ total_of scripts t }
{
    let r = rows::plain(205, scripts, 0, 0);
    total_on(r, t)
}
