// A form of a page behind a row. specs/Forms.antt says what each piece is.
#![tactic(auto)]

ghost use Rattle.std.specs.Prelude.{◌≡◌};
ghost use Rattle.writing.specs.Rows.{put};
ghost use Rattle.forms.specs.Forms.{lead, digits_at, number_text, plural, gap, piece, with_row, opened, ended, formed, taken, begun, filled};

use writing::Row;

// A form half filled.
#[derive(Clone, Copy)]
pub struct Filling {
    pub row: Row,
    // lines of the page to pass, and whether the form's line is over
    pub skip: usize,
    pub over: bool,
    // a % came last
    pub percent: bool,
    // the number put last, and those to come
    pub last: u64,
    pub a: u64,
    pub b: u64,
    pub c: u64,
}

#[tactic(auto, using(writing::proofs::Laws::nothing_more), unfolding(crate::specs::Forms::lead))]
fn lead(r: Row, n: u64) -> Row
    ensures { result ≡ put r (lead n) }
{
    match n {
        0..10 => r.pad(4),
        10..100 => r.pad(3),
        100..1000 => r.pad(2),
        1000..10000 => r.pad(1),
        _ => r,
    }
}

#[tactic(auto, unfolding(crate::specs::Forms::digits_at))]
fn digits_at(kind: u8) -> usize
    ensures { result ≡ digits_at kind }
{
    match kind {
        b'b' => 2,
        b'p' => 3,
        b'o' => 4,
        b'a' => 6,
        _ => 12,
    }
}

#[tactic(auto, using(writing::proofs::Laws::then), unfolding(crate::specs::Forms::number_text))]
fn number_text(r: Row, kind: u8, v: u64) -> Row
    ensures { result ≡ put r (number_text kind v) }
{
    match kind {
        b'n' => r.number(v),
        b'f' => {
            let r = lead(r, v);
            r.number(v)
        }
        _ => r.hexadecimal(digits_at(kind), v),
    }
}

#[tactic(auto, using(writing::proofs::Laws::nothing_more), unfolding(crate::specs::Forms::plural))]
fn plural(r: Row, n: u64) -> Row
    ensures { result ≡ put r (plural n) }
{
    if n == 1 { r } else { r.text(b"s") }
}

fn gap(n: usize) -> usize
    ensures { result ≡ gap n }
{
    31usize.saturating_sub(n).max(2)
}

impl Filling {
    fn with_row(self, r: Row) -> Filling
        ensures { result ≡ with_row r self }
    {
        Filling {
            row: r,
            percent: false,
            ..self
        }
    }

    // The letter after a %.
    #[tactic(auto, unfolding(crate::specs::Forms::piece))]
    fn piece(self, kind: u8) -> Filling
        ensures { result ≡ piece kind self }
    {
        let r = self.row;
        match kind {
            b's' => self.with_row(plural(r, self.last)),
            b'>' => self.with_row(r.pad(gap(r.length))),
            _ => Filling {
                row: number_text(r, kind, self.a),
                percent: false,
                last: self.a,
                a: self.b,
                b: self.c,
                c: 0,
                ..self
            },
        }
    }

    #[tactic(auto, unfolding(crate::specs::Forms::ended))]
    fn ended(&mut self)
        ensures { self.new ≡ ended self.old }
    {
        if self.skip == 0 {
            self.over = true;
        } else {
            self.skip -= 1;
        }
    }

    #[tactic(auto, unfolding(crate::specs::Forms::formed))]
    fn formed(&mut self, x: u8)
        ensures { self.new ≡ formed self.old x }
    {
        if self.percent {
            *self = self.piece(x);
        } else if x == b'%' {
            self.percent = true;
        } else {
            *self = self.with_row(self.row.add(x));
        }
    }

    // In place: a page has some thousand bytes before the form, and a copy of the whole for each of them took most of a row's time.
    #[tactic(auto, unfolding(crate::specs::Forms::taken))]
    fn taken(&mut self, x: u8)
        ensures { self.new ≡ taken self.old x }
    {
        if self.over {
            return;
        }
        if x == b'\n' {
            self.ended();
        } else if self.skip == 0 {
            self.formed(x);
        }
    }
}

#[tactic(auto, using(crate::proofs::Fills::fills_over, crate::proofs::Fills::fills_next, crate::proofs::Fills::fills_none), unfolding(crate::specs::Forms::filled))]
pub fn fill(page: &[u8], r: Row, n: usize, a: u64, b: u64, c: u64) -> Row
    ensures { result ≡ filled page.now r n a b c }
{
    let mut f = Filling {
        row: r,
        skip: n,
        over: false,
        percent: false,
        last: 0,
        a,
        b,
        c,
    };
    for x in page {
        if f.over {
            break;
        }
        f.taken(*x);
    }
    f.row
}
