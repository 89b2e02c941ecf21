// The page buffer after an event, in place.
#![tactic(auto)]

ghost use Rattle.std.specs.Prelude.{◌≡◌, ◌≤◌, length};
ghost use Rattle.rules.specs.Commands.{buffer_of, buffer_at_once, buffer_after, buffer_rested};

use rules::{Kind, Long, Short, Work};

// With which a long command starts.
#[tactic(auto, unfolding(rules::specs::Programs::page_buffer, rules::specs::Programs::security_buffer))]
fn page_of(l: Long, sent: &[u8], page: &mut [u8])
    requires { (length page.old ≡ 256) × (length sent.now ≤ 65536) }
    ensures { page.new ≡ buffer_of l sent.now page.old }
{
    match l {
        Long::Page => {
            let a = opcodes::address_of(sent);
            memory::fill_page(page, sent, 4, a % 256);
        }
        Long::SecurityPage => {
            let a = opcodes::security_address_of(sent);
            memory::fill_page(page, sent, 3, a % 256);
        }
        _ => {}
    }
}

// A reset drops it.
fn page_at_once(s: Short, page: &mut [u8])
    requires { length page.old ≡ 256 }
    ensures { page.new ≡ buffer_at_once s page.old }
{
    if s == Short::Reset {
        memory::blank_page(page);
    }
}

// After a done frame.
pub fn page_after(kind: Kind, sent: &[u8], page: &mut [u8])
    requires { (length page.old ≡ 256) × (length sent.now ≤ 65536) }
    ensures { page.new ≡ buffer_after kind sent.now page.old }
{
    match kind {
        Kind::Show(_) => {}
        Kind::Begin(l) => page_of(l, sent, page),
        Kind::Do(s) => page_at_once(s, page),
    }
}

// After a completion, beside suspended work.
pub fn page_rested(aside: Work, page: &mut [u8])
    requires { length page.old ≡ 256 }
    ensures { page.new ≡ buffer_rested aside page.old }
{
    if !blocks::is_program(aside) {
        memory::blank_page(page);
    }
}
