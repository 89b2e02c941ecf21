// A completion and a power cut where the page buffer lies with the caller: it changes in place, the rest of the record goes in and out by value.
#![tactic(auto)]

ghost use Rattle.std.specs.Prelude.{[]};
ghost use Rattle.rules.specs.Fields.{chip_of};
ghost use Rattle.rules.specs.Promises.{bench_of, returned_of, after_of, CompletionPromise, CutPromise};
ghost use Rattle.turns.specs.Turns.{StateKnown};

use rules::{Refusal, Rest, Tear, Turn};
use turns::{done, refused};

// The running operation ends.
pub fn completion_turn(
    known: bool,
    r: Rest,
    page: &mut [u8],
    array: &mut [u8],
    security: &mut [u8],
) -> Turn
    requires { StateKnown known r page.old array.old security.old }
    ensures { CompletionPromise (bench_of (chip_of page.old r) array.old security.old) (returned_of (after_of result page.new) array.new security.new [] []) }
{
    if !known {
        return refused(Refusal::Malformed, r);
    }
    let run = r.works.running;
    if blocks::is_nothing(run) {
        return refused(Refusal::NothingRuns, r);
    }
    memory::finish_array(run, page, 2097152, 0, array);
    memory::finish_security(run, page, 2097152, 0, security);
    pages::page_rested(r.works.suspended, page);
    done(settling::completed(r))
}

// A power cut in the middle of the running operation.
pub fn cut_turn(
    known: bool,
    r: Rest,
    page: &mut [u8],
    array: &mut [u8],
    security: &mut [u8],
    tear: Tear,
) -> Turn
    requires { StateKnown known r page.old array.old security.old }
    ensures { CutPromise (bench_of (chip_of page.old r) array.old security.old) tear (returned_of (after_of result page.new) array.new security.new [] []) }
{
    if !known {
        return refused(Refusal::Malformed, r);
    }
    let run = r.works.running;
    memory::finish_array(run, page, tear.k, tear.m, array);
    memory::finish_security(run, page, tear.k, tear.m, security);
    memory::blank_page(page);
    done(settling::cut(r, tear.k))
}
