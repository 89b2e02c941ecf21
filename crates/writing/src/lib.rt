// Rows of text by value, and what can be put behind them: texts, numbers (specs/Rows.antt).
#![tactic(auto)]

ghost use Rattle.std.specs.Prelude.{◌≡◌, ◌≤◌};
ghost use Rattle.writing.specs.Rows.{blank, push, put, blanks, digits, decimal, hex_digit, hex};

// The first `length` bytes of the text are the row: an array with a length, since no heap is used below the programs.
#[derive(Clone, Copy)]
pub struct Row {
    pub text: [u8; 80],
    pub length: usize,
}

// A row of no bytes is also what a row that is not told is: no Option, since the definitions (specs/Rows, `blank`) and the promises above say it so.
#[tactic(auto, unfolding(crate::specs::Rows::blank))]
pub fn empty() -> Row
    ensures { result ≡ blank }
{
    Row {
        text: [0u8; 80],
        length: 0,
    }
}

#[tactic(auto, unfolding(crate::specs::Rows::hex_digit))]
fn hex_digit(d: u8) -> u8
    requires { d ≤ 15 }
    ensures { result ≡ hex_digit d }
{
    if d < 10 { b'0' + d } else { b'A' - 10 + d }
}

impl Row {
    #[tactic(auto, unfolding(crate::specs::Rows::push))]
    pub fn add(self, b: u8) -> Row
        ensures { result ≡ push self b }
    {
        let mut q = self;
        if self.length < 80 {
            q.text[self.length] = b;
            q.length += 1;
        }
        q
    }

    #[tactic(auto, using(crate::proofs::Laws::nothing_more, crate::proofs::Laws::text_next))]
    pub fn text(self, t: &[u8]) -> Row
        ensures { result ≡ put self t.now }
    {
        let mut q = self;
        for b in t {
            q = q.add(*b);
        }
        q
    }

    #[tactic(auto, using(crate::proofs::Laws::nothing_more, crate::proofs::Laws::blanks_next), unfolding(crate::specs::Rows::blanks))]
    pub fn pad(self, n: usize) -> Row
        ensures { result ≡ put self (blanks n) }
    {
        let mut q = self;
        for _ in 0..n {
            q = q.add(b' ');
        }
        q
    }

    // A number below ten is its digit; of another the higher digits come first, and then the lowest.
    #[tactic(auto, using(crate::proofs::Laws::decimal_low, crate::proofs::Laws::decimal_step))]
    pub fn number(self, n: u64) -> Row
        ensures { result ≡ put self (decimal n) }
    {
        if n < 10 {
            return self.add(b'0' + n as u8);
        }
        let q = self.number(n / 10);
        q.add(b'0' + (n % 10) as u8)
    }

    // The highest digit comes first: no plainer as a loop, as k has no bound, and a shift by the digits that are to come would need one.
    #[tactic(auto, using(crate::proofs::Laws::hex_none, crate::proofs::Laws::hex_step))]
    pub fn hexadecimal(self, k: usize, n: u64) -> Row
        ensures { result ≡ put self (hex k n) }
    {
        if k == 0 {
            return self;
        }
        let q = self.hexadecimal(k - 1, n / 16);
        q.add(hex_digit((n % 16) as u8))
    }

    // A number of places.
    pub fn size(self, n: usize) -> Row
        ensures { result ≡ put self (decimal n) }
    {
        self.number(n as u64)
    }
}
