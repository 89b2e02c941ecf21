// Why the suspension rule refused a frame. specs/Suspension.antt.
#![tactic(auto)]

ghost use Rattle.std.specs.Prelude.{◌≡◌};
ghost use Rattle.suspension.specs.Suspension.{suspend_why, clause, suspension_why};

use describing::{work, work_places};
use page::form;
use rules::Work;
use writing::Row;

#[tactic(auto, unfolding(crate::specs::Suspension::suspend_why))]
fn cannot_suspend(r: Row, running: Work, suspended: Work) -> Row
    ensures { result ≡ suspend_why running suspended r }
{
    if blocks::is_nothing(suspended) {
        if blocks::is_nothing(running) {
            return form(r, 63, 0, 0, 0);
        }
        let r = work(r, running);
        return form(r, 64, 0, 0, 0);
    }
    let r = work(r, suspended);
    form(r, 65, 0, 0, 0)
}

#[tactic(auto, unfolding(crate::specs::Suspension::clause))]
fn clause(suspended: Work, op: u8) -> usize
    ensures { result ≡ clause suspended op }
{
    if named::must_wait(op) {
        return 67;
    }
    if blocks::is_erase(suspended) {
        if named::erases(op) { 68 } else { 69 }
    } else if named::programs(op) {
        70
    } else {
        71
    }
}

#[tactic(auto, unfolding(crate::specs::Suspension::suspension_why))]
pub fn suspension(r: Row, running: Work, suspended: Work, op: u8) -> Row
    ensures { result ≡ suspension_why running suspended op r }
{
    if op == 0xB0 {
        return cannot_suspend(r, running, suspended);
    }
    if op == 0x30 {
        return form(r, 66, 0, 0, 0);
    }
    let r = work_places(r, suspended);
    form(r, clause(suspended, op), 0, 0, 0)
}
