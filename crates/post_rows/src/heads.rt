// The first row: the line's words and the answer. specs/Posts.antt.
ghost use Rattle.std.specs.Prelude.{◌≡◌};
ghost use Rattle.post_rows.specs.Posts.{words_form, name_on, left_row, trouble_form, compared_on, done_on, answer_on, head_row, second_row};

use posting::{Report, Trouble};
use raw_image::Difference;
use rows::Row;
use standing::Post;

// The numbers are the page's, not the enum's, here and in `trouble_form`: as discriminants they would stand far from the page.
fn words_form(f: Post) -> usize
    ensures { result ≡ words_form f }
{
    match f {
        Post::Save => 277,
        Post::Load => 278,
        Post::SaveRaw => 279,
        Post::LoadRaw => 280,
        Post::CompareRaw => 281,
    }
}

// At most 54 bytes of the name.
#[tactic(auto, unfolding(crate::specs::Posts::name_on))]
fn name_on(r: Row, name: &[u8]) -> Row
    ensures { result ≡ name_on name.now r }
{
    let r = byte_text::printed_bytes(r, name, 0, 54);
    if name.len() <= 54 {
        return r;
    }
    rows::form(r, 175, 0, 0, 0)
}

#[tactic(auto, unfolding(crate::specs::Posts::left_row))]
fn left(line: u64, f: Post, name: &[u8]) -> Row
    ensures { result ≡ left_row line f name.now }
{
    name_on(rows::numbered(line, words_form(f), 0, 0, 0), name)
}

fn trouble_form(t: Trouble) -> usize
    ensures { result ≡ trouble_form t }
{
    match t {
        Trouble::Missing => 286,
        Trouble::Denied => 287,
        Trouble::Unopened => 288,
        Trouble::Unread => 289,
        Trouble::Folderless => 290,
        Trouble::Forbidden => 291,
        Trouble::Unwritten => 292,
        Trouble::Taken => 293,
    }
}

fn compared_on(r: Row, length: usize, d: Option<Difference>) -> Row
    ensures { result ≡ compared_on length d r }
{
    match d {
        None => rows::form(r, 284, length as u64, 0, 0),
        Some(d) => rows::form(r, 285, d.count as u64, 0, 0),
    }
}

fn done_on(r: Row, f: Post, ba: bool, length: usize, d: Option<Difference>) -> Row
    ensures { result ≡ done_on f ba length d r }
{
    match f {
        Post::Save => rows::form(r, 282, length as u64, 0, 0),
        Post::Load => rows::part(rows::form(r, 283, length as u64, 0, 0), ba),
        Post::SaveRaw => rows::form(r, 282, length as u64, 0, 0),
        Post::LoadRaw => rows::form(r, 283, length as u64, 0, 0),
        Post::CompareRaw => compared_on(r, length, d),
    }
}

#[tactic(auto, unfolding(crate::specs::Posts::answer_on))]
fn answer_on(r: Row, f: Post, ba: bool, number: u8, report: Report) -> Row
    ensures { result ≡ answer_on f ba number report r }
{
    if let Some(t) = report.trouble {
        return rows::form(r, trouble_form(t), 0, 0, 0);
    }
    if number == 0 {
        return done_on(r, f, ba, report.length, report.difference);
    }
    rows::form(r, 21, u64::from(number), 0, 0)
}

// The line, and beside it, where there is room, the answer.
#[tactic(auto, unfolding(crate::specs::Posts::head_row))]
pub fn head(line: u64, f: Post, ba: bool, number: u8, report: Report, name: &[u8]) -> Row
    ensures { result ≡ head_row line f ba number report name.now }
{
    let l = left(line, f, name);
    if rows::fits(l) {
        return answer_on(rows::form(l, 7, 0, 0, 0), f, ba, number, report);
    }
    l
}

// The answer that found no room.
#[tactic(auto, unfolding(crate::specs::Posts::second_row))]
pub fn second(line: u64, f: Post, ba: bool, number: u8, report: Report, name: &[u8]) -> Row
    ensures { result ≡ second_row line f ba number report name.now }
{
    let l = left(line, f, name);
    if rows::fits(l) {
        return rows::empty();
    }
    answer_on(rows::plain(1, 0, 0, 0), f, ba, number, report)
}
