// What may come beside suspended work: refusal 8.
#![tactic(auto)]

ghost use Rattle.std.specs.Prelude.{◌≡◌, true, ◌&&◌, ◌||◌, [], ◌∷◌, ◌*◌, ◌/◌};
ghost use Rattle.rules.specs.Words.{one_of, range, holds};
ghost use Rattle.rules.specs.Blocks.{block_of, block_at, span};
ghost use Rattle.rules.specs.Works.{is_erase, is_program, array_range};
ghost use Rattle.rules.specs.Frames.{address};
ghost use Rattle.rules.specs.WellFormed.{numbers_right};
ghost use Rattle.rules.specs.Numbers.{suspension};

use rules::{Range, Rest, Work, Works};

// With WSE 1.
fn beside_erase(aside: Work, op: u8, sent: &[u8]) -> bool
    requires { numbers_right aside ≡ true }
    ensures { result ≡ (is_erase aside && (one_of op (0x20 ∷ 0xD8 ∷ []) || one_of op (0x02 ∷ 0x32 ∷ []) && holds (array_range aside) (address sent.now))) }
{
    if !blocks::is_erase(aside) {
        return false;
    }
    let erased = blocks::array_range(aside);
    let into = blocks::holds_place(erased, opcodes::address_of(sent));
    named::erases(op) | named::programs(op) & into
}

// With WSP 1.
fn beside_program(aside: Work, op: u8, sent: &[u8]) -> bool
    requires { numbers_right aside ≡ true }
    ensures { result ≡ (is_program aside && (one_of op (0x02 ∷ 0x32 ∷ []) || one_of op (0x20 ∷ []) && holds (range (address sent.now / 4096 * 4096) 4096) (array_range aside).start || one_of op (0xD8 ∷ []) && holds (span (block_at (block_of (address sent.now)))) (array_range aside).start)) }
{
    if !blocks::is_program(aside) {
        return false;
    }
    let page = blocks::array_range(aside);
    let a = opcodes::address_of(sent);
    let sector = Range {
        start: a / 4096 * 4096,
        size: 4096,
    };
    let b = blocks::block_at(blocks::block_of(a));
    let block = Range {
        start: b.start,
        size: b.size,
    };
    let in_sector = blocks::holds_place(sector, page.start);
    let in_block = blocks::holds_place(block, page.start);
    named::programs(op) | named::is(op, 0x20) & in_sector | named::is(op, 0xd8) & in_block
}

// 8, clause by clause; the last two are of opcodes that go to one block.
fn conflicts_beside(r: Rest, op: u8, sent: &[u8]) -> bool
    requires { numbers_right r.works.suspended ≡ true }
    ensures { result ≡ suspension r op sent.now }
{
    let Works {
        running: run,
        suspended: aside,
    } = r.works;
    let wrongly = named::is(op, 0xb0) & !(blocks::can_suspend(run) & blocks::is_nothing(aside));
    let nothing = named::is(op, 0x30) & blocks::is_nothing(aside);
    let waits = named::must_wait(op) & !blocks::is_nothing(aside);
    if !named::in_a_block(op) {
        return wrongly | nothing | waits;
    }
    let erase = beside_erase(aside, op, sent);
    let program = beside_program(aside, op, sent);
    wrongly | nothing | waits | erase | program
}

// 8: with nothing suspended only B0 and 30 can conflict.
pub fn conflicts(r: Rest, op: u8, sent: &[u8]) -> bool
    requires { numbers_right r.works.suspended ≡ true }
    ensures { result ≡ suspension r op sent.now }
{
    let Works {
        running: run,
        suspended: aside,
    } = r.works;
    if blocks::is_nothing(aside) {
        return named::is(op, 0xb0) & !blocks::can_suspend(run) | named::is(op, 0x30);
    }
    conflicts_beside(r, op, sent)
}
