// What a script's last row counts. specs/Tallies.antt.
#![tactic(auto)]

ghost use Rattle.std.specs.Prelude.{◌≡◌};
ghost use Rattle.tallies.specs.Tallies.{untold, after_event, after_unmet, after_wrong, sum_of};

#[derive(Clone, Copy, Default)]
pub struct Tally {
    pub events: u64,
    pub refused: u64,
    // expectations that were not met
    pub differences: u64,
    // lines that are none of the language
    pub wrong: u64,
}

pub fn no_events() -> Tally
    ensures { result ≡ untold }
{
    Tally::default()
}

// An event with this number came, and so many of its expectations are not met.
#[tactic(auto, unfolding(crate::specs::Tallies::added))]
pub fn with_event(t: Tally, number: u8, unmet: u64) -> Tally
    ensures { result ≡ after_event t number unmet }
{
    Tally {
        events: t.events.saturating_add(1),
        refused: t.refused.saturating_add(u64::from(number != 0)),
        differences: t.differences.saturating_add(unmet),
        ..t
    }
}

#[tactic(auto, unfolding(crate::specs::Tallies::added))]
pub fn with_wrong_line(t: Tally) -> Tally
    ensures { result ≡ after_wrong t }
{
    Tally {
        wrong: t.wrong.saturating_add(1),
        ..t
    }
}

// So many expectations of a line that is no event are not met.
#[tactic(auto, unfolding(crate::specs::Tallies::added))]
pub fn with_unmet(t: Tally, unmet: u64) -> Tally
    ensures { result ≡ after_unmet t unmet }
{
    Tally {
        differences: t.differences.saturating_add(unmet),
        ..t
    }
}

// Of two scripts.
#[tactic(auto, unfolding(crate::specs::Tallies::added))]
pub fn sum_of(t: Tally, u: Tally) -> Tally
    ensures { result ≡ sum_of t u }
{
    Tally {
        events: t.events.saturating_add(u.events),
        refused: t.refused.saturating_add(u.refused),
        differences: t.differences.saturating_add(u.differences),
        wrong: t.wrong.saturating_add(u.wrong),
    }
}
