// A frame where the page buffer lies with the caller: it changes in place, the rest of the record goes in and out by value.
#![tactic(auto)]

ghost use Rattle.std.specs.Prelude.{◌≡◌, false, ◌&&◌, [], ◌∷◌, eqb, leb, length};
ghost use Rattle.rules.specs.Fields.{chip_of};
ghost use Rattle.rules.specs.Promises.{bench_of, carried_of, returned_of, after_of, FramePromise};
ghost use Rattle.rules.specs.Tears.{resets};
ghost use Rattle.turns.specs.Turns.{StateKnown};
ghost use Rattle.framing.specs.Framing.{Resettable, PlainPromise, Commandable, TurnedAway};

use rules::{Circumstances, Refusal, Rest, Turn};
use turns::{done, refused};

fn frame_right(sent_len: usize, reply_len: usize, marks_len: usize) -> bool
    ensures { result ≡ (leb sent_len 65536 && leb reply_len 65536 && eqb reply_len marks_len) }
{
    (sent_len <= 65536) & (reply_len <= 65536) & (reply_len == marks_len)
}

// The memories, the reply and the marks stay parameters of their own: `chip::frame` and C's fulkibono_frame are handed them apart.

// ---- an accepted 99: it stops what runs, the only frame that changes the two memories

pub fn resets(known: bool, r: Rest, sent: &[u8], reply_len: usize, marks_len: usize) -> bool
    ensures { result ≡ resets known r sent.now reply_len marks_len }
{
    matches!(sent, [0x99]) && known & frame_right(1, reply_len, marks_len) & r.flags.enable
}

pub fn reset_turn(
    r: Rest,
    page: &mut [u8],
    array: &mut [u8],
    security: &mut [u8],
    reply: &mut [u8],
    marks: &mut [u8],
    circumstances: Circumstances,
) -> Turn
    requires { Resettable r page.old array.old security.old reply.old marks.old }
    ensures { FramePromise (bench_of (chip_of page.old r) array.old security.old) (carried_of (0x99 ∷ []) reply.old marks.old circumstances) (returned_of (after_of result page.new) array.new security.new reply.new marks.new) }
{
    let tear = circumstances.tear;
    let run = r.works.running;
    memory::finish_array(run, page, tear.k, tear.m, array);
    memory::finish_security(run, page, tear.k, tear.m, security);
    memory::blank_page(page);
    replying::fill_both(reply, marks, 255, 0);
    done(settling::reset(r, tear.k))
}

// ---- any other frame

// One that is neither empty nor malformed.
fn command(
    r: Rest,
    page: &mut [u8],
    array: &[u8],
    security: &[u8],
    sent: &[u8],
    reply: &mut [u8],
    marks: &mut [u8],
) -> Turn
    requires { Commandable r page.old array.now security.now sent.now reply.old marks.old }
    ensures { PlainPromise (bench_of (chip_of page.old r) array.now security.now) sent.now reply.old marks.old (returned_of (after_of result page.new) array.now security.now reply.new marks.new) }
{
    let op = sent[0];
    let form = opcodes::form_of(op);
    match judging::judge(r, op, form, sent) {
        Ok(()) => {
            let kind = form.kind;
            replying::respond(kind, r, array, security, sent, reply, marks);
            pages::page_after(kind, sent, page);
            done(acting::acted(kind, sent, r))
        }
        Err(why) => {
            replying::fill_both(reply, marks, 255, 0);
            refused(why, acting::used(r))
        }
    }
}

// Refusal 1 leaves every byte; 2 fills the reply and the marks.
fn turned_away(r: Rest, right: bool, reply: &mut [u8], marks: &mut [u8]) -> Turn
    ensures { TurnedAway r right reply.old marks.old result reply.new marks.new }
{
    if right {
        replying::fill_both(reply, marks, 255, 0);
        return refused(Refusal::Empty, r);
    }
    refused(Refusal::Malformed, r)
}

// The bytes sent while CE# is low, and the two reply buffers. What a frame carries beside them is not asked.
pub fn plain_turn(
    known: bool,
    r: Rest,
    page: &mut [u8],
    array: &[u8],
    security: &[u8],
    sent: &[u8],
    reply: &mut [u8],
    marks: &mut [u8],
) -> Turn
    requires { StateKnown known r page.old array.now security.now × (resets known r sent.now (length reply.old) (length marks.old) ≡ false) }
    ensures { PlainPromise (bench_of (chip_of page.old r) array.now security.now) sent.now reply.old marks.old (returned_of (after_of result page.new) array.now security.now reply.new marks.new) }
{
    let fits = frame_right(sent.len(), reply.len(), marks.len());
    let right = known & fits;
    if right & (0 < sent.len()) {
        return command(r, page, array, security, sent, reply, marks);
    }
    turned_away(r, right, reply, marks)
}

// ---- any frame

pub fn frame_turn(
    known: bool,
    r: Rest,
    page: &mut [u8],
    array: &mut [u8],
    security: &mut [u8],
    sent: &[u8],
    reply: &mut [u8],
    marks: &mut [u8],
    circumstances: Circumstances,
) -> Turn
    requires { StateKnown known r page.old array.old security.old }
    ensures { FramePromise (bench_of (chip_of page.old r) array.old security.old) (carried_of sent.now reply.old marks.old circumstances) (returned_of (after_of result page.new) array.new security.new reply.new marks.new) }
{
    if resets(known, r, sent, reply.len(), marks.len()) {
        return reset_turn(r, page, array, security, reply, marks, circumstances);
    }
    plain_turn(known, r, page, array, security, sent, reply, marks)
}
