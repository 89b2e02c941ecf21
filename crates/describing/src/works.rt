// What runs or is suspended. specs/Works.antt.
ghost use Rattle.std.specs.Prelude.{◌≡◌, ◌+◌, ◌≤◌, false};
ghost use Rattle.describing.specs.Works.{told, span_of, work, places, cut_after};

use crate::Span;
use page::form;
use rules::Work;
use writing::Row;

fn in_array(start: usize, size: usize) -> Span
    ensures { result ≡ record { start = start; size = size; security = false } }
{
    Span {
        start,
        size,
        security: false,
    }
}

// The places that work is about.
pub fn span_of(w: Work) -> Span
    ensures value { result ≡ span_of (told w) }
    ensures inside { result.start + result.size ≤ 2097152 }
{
    match w {
        Work::EraseSector(n) => in_array(n % 512 * 4096, 4096),
        Work::EraseBlock(n) => {
            let b = blocks::block_at(n % 40);
            in_array(b.start, b.size)
        }
        Work::EraseArray => in_array(0, 0x20_0000),
        Work::ProgramPage(n) => in_array(n % 8192 * 256, 256),
        Work::ProgramSecurity(n) => Span {
            start: n % 8 * 256,
            size: 256,
            security: true,
        },
        Work::Nothing
        | Work::LockSecurity
        | Work::WriteConfiguration(_, _)
        | Work::AddPermanent(_) => in_array(0, 0),
    }
}

// The work alone.
#[tactic(auto, unfolding(crate::specs::Works::work))]
pub fn work(r: Row, w: Work) -> Row
    ensures { result ≡ work (told w) r }
{
    match w {
        Work::Nothing => form(r, 40, 0, 0, 0),
        Work::EraseSector(n) => form(r, 41, (n % 512) as u64, 0, 0),
        Work::EraseBlock(n) => {
            let b = blocks::block_at(n % 40);
            form(r, 42, u64::from(b.write), 0, 0)
        }
        Work::EraseArray => form(r, 43, 0, 0, 0),
        Work::ProgramPage(n) => form(r, 44, (n % 8192) as u64, 0, 0),
        Work::ProgramSecurity(n) => form(r, 45, (n % 8) as u64, 0, 0),
        Work::LockSecurity => form(r, 46, 0, 0, 0),
        Work::WriteConfiguration(ioc, wpen) => { form(r, 47, u64::from(ioc), u64::from(wpen), 0) }
        Work::AddPermanent(bits) => form(r, 48, bits, 0, 0),
    }
}

#[tactic(auto, using(crate::proofs::Tellings::told_security), unfolding(crate::specs::Works::places))]
fn places(r: Row, w: Work) -> Row
    ensures { result ≡ places (told w) r }
{
    let s = span_of(w);
    if s.size == 0 {
        return r;
    }
    let last = s.start + s.size - 1;
    form(
        r,
        49 + usize::from(s.security),
        s.start as u64,
        last as u64,
        0,
    )
}

#[tactic(auto, unfolding(crate::specs::Works::cut_after))]
fn cut_after(r: Row, w: Work, k: u64) -> Row
    ensures { result ≡ cut_after (told w) k r }
{
    let size = span_of(w).size as u64;
    if size == 0 {
        return form(r, if k == 0 { 18 } else { 19 }, 0, 0, 0);
    }
    form(r, 17, k.min(size), size, 0)
}

// The work and its range.
pub fn work_places(r: Row, w: Work) -> Row
    ensures { result ≡ places (told w) (work (told w) r) }
{
    let r = work(r, w);
    places(r, w)
}

// The work, and after how much of it it was stopped.
pub fn work_cut(r: Row, w: Work, k: u64) -> Row
    ensures { result ≡ cut_after (told w) k (work (told w) r) }
{
    let r = work(r, w);
    cut_after(r, w, k)
}
