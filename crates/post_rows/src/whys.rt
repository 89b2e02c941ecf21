// Why a file was refused, and in what it differs. specs/Posts.antt.
ghost use Rattle.std.specs.Prelude.{◌≡◌};
ghost use Rattle.post_rows.specs.Posts.{number_form, number_row, is_raw, saves, lent_short, malformed_row, work_row, difference_row, why_row};

use fault_rows::{fault, length};
use posting::{Report, Trouble};
use raw_image::Difference;
use rows::Row;
use rules::{Chip, Works};
use standing::Post;

#[tactic(auto, unfolding(crate::specs::Posts::number_form))]
fn number_form(number: u8) -> usize
    ensures { result ≡ number_form number }
{
    match number {
        15 => 276,
        _ => 24 + usize::from(number).min(14),
    }
}

// The number's words.
#[tactic(auto, unfolding(crate::specs::Posts::number_row))]
pub fn number(t: Option<Trouble>, number: u8) -> Row
    ensures { result ≡ number_row t number }
{
    if t.is_some() | (number == 0) {
        return rows::empty();
    }
    rows::below(number_form(number), 0, 0, 0)
}

// ---- 1

fn is_raw(f: Post) -> bool
    ensures { result ≡ is_raw f }
{
    matches!(f, Post::SaveRaw | Post::LoadRaw | Post::CompareRaw)
}

fn saves(f: Post) -> bool
    ensures { result ≡ saves f }
{
    matches!(f, Post::Save | Post::SaveRaw)
}

fn lent_short(raw: bool, array: usize, security: usize) -> bool
    ensures { result ≡ lent_short raw array security }
{
    (array != 2097152) | (!raw & (security != 2048))
}

#[tactic(auto, unfolding(crate::specs::Posts::malformed_row))]
fn malformed(f: Post, array: usize, security: usize, before: Chip, n: usize) -> Row
    ensures { result ≡ malformed_row f array security before n }
{
    let raw = is_raw(f);
    if saves(f) | lent_short(raw, array, security) {
        let r = rows::plain(1, 0, 0, 0);
        return rows::malformed(r, array, security, 0, 0, 0, before);
    }
    length(raw, n)
}

// ---- 14

#[tactic(auto, unfolding(crate::specs::Posts::work_row))]
fn at_work(w: Works) -> Row
    ensures { result ≡ work_row w }
{
    let r = rows::plain(1, 0, 0, 0);
    if blocks::is_nothing(w.running) {
        return rows::form(rows::work(r, w.suspended), 310, 0, 0, 0);
    }
    rows::form(rows::work(r, w.running), 60, 0, 0, 0)
}

// ---- done

fn difference(d: Option<Difference>) -> Row
    ensures { result ≡ difference_row d }
{
    match d {
        None => rows::empty(),
        Some(d) => rows::below(298, d.place as u64, u64::from(d.file), u64::from(d.array)),
    }
}

// By the number.
#[tactic(auto, unfolding(crate::specs::Posts::why_row))]
pub fn why(f: Post, array: usize, security: usize, before: Chip, number: u8, report: Report) -> Row
    ensures { result ≡ why_row f array security before number report }
{
    if report.trouble.is_some() {
        return rows::empty();
    }
    match number {
        0 => difference(report.difference),
        1 => malformed(f, array, security, before, report.length),
        14 => at_work(before.rest.works),
        _ => fault(report.fault),
    }
}
