// Random lines of the script language, made from the forms of a data file: what comes up, how often and in which state is data.
// data/random.txt says how a form is written.
use crate::at;
use crate::dice::{draw, seed_of};

// Where a line is being written, and the seed of what it says. Past the line's end it goes on, and writes nothing.
#[derive(Drop)]
struct Pen<'a> {
    line: &'a mut [u8],
    seed: u64,
    at: usize,
}

impl Pen<'_> {
    // The seed of what stands at its place.
    fn seed_here(&self) -> u64 {
        seed_of(self.seed, self.at as u64)
    }

    fn put(&mut self, b: u8) {
        if let Some(place) = self.line.get_mut(self.at) {
            *place = b;
        }
        self.at = self.at.wrapping_add(1);
    }

    // The last k hex digits of a number.
    fn put_hex(&mut self, k: u32, n: u64) {
        for i in (0..k).rev() {
            self.put(digit(n >> (i % 16 * 4)));
        }
    }

    // A letter that stands for a number; | for the end of a line; any other stands for itself.
    fn put_letter(&mut self, letter: u8) {
        let seed = self.seed_here();
        match letter {
            b'H' => self.put_hex(1, seed),
            b'X' => self.put_hex(2, seed),
            b'J' => self.put_hex(3, seed % 512),
            b'G' => self.put_hex(4, seed % 8192),
            b'|' => self.put(b'\n'),
            _ => self.put(letter),
        }
    }
}

fn digit(n: u64) -> u8 {
    b"0123456789ABCDEF"[(n % 16) as usize]
}

// ---- forms

// Where a letter's forms begin among the places, and how many there are.
#[derive(Clone, Copy)]
struct Letter {
    first: usize,
    count: u64,
}

// The places of all forms, each as often as it is drawn: those of one letter stand together.
#[derive(Drop)]
struct Index {
    letters: [Letter; 256],
    places: [usize; 3584],
}

impl Index {
    // A form that is drawn so often, behind the n that are there.
    fn enter(&mut self, n: usize, letter: u8, often: usize, place: usize) {
        if let Some(free) = self.places.get_mut(n..) {
            for p in free.iter_mut().take(often) {
                *p = place;
            }
        }
        let of_letter = &mut self.letters[usize::from(letter)];
        if of_letter.count == 0 {
            of_letter.first = n;
        }
        of_letter.count = of_letter.count.wrapping_add(often as u64);
    }

    // Where the k-th form of a letter stands.
    fn place(&self, letter: u8, k: u64) -> usize {
        let i = self.letters[usize::from(letter)]
            .first
            .wrapping_add(k as usize);
        self.places.get(i).copied().unwrap_or(0)
    }
}

// A file of forms: its bytes, how many there are, and where the forms stand in it.
#[derive(Drop)]
pub struct Forms {
    pub text: [u8; 65536],
    length: usize,
    index: Index,
}

fn is_part(letter: u8) -> bool {
    matches!(
        letter,
        b'K' | b'N' | b'P' | b'Q' | b'R' | b'S' | b'U' | b'V' | b'W' | b'Y' | b'Z'
    )
}

// In SQI a letter's forms may be others: Z is then z.
fn part_of(letter: u8, sqi: bool) -> u8 {
    match letter {
        b'Z' if sqi => b'z',
        _ => letter,
    }
}

impl Forms {
    // No file yet.
    pub fn new() -> Forms {
        let none = Letter { first: 0, count: 0 };
        let index = Index {
            letters: [none; 256],
            places: [0; 3584],
        };
        Forms {
            text: [0; 65536],
            length: 0,
            index,
        }
    }

    // Every form of the file, of which so many bytes came: a line that begins with a letter, a digit and a blank.
    pub fn enter(&mut self, length: usize) {
        self.length = length.min(self.text.len());
        let text = &self.text[..self.length];
        let mut n: usize = 0;
        let mut before = 0;
        for (i, letter) in text.iter().enumerate() {
            if before == b'\n' && *letter > 64 {
                let often = usize::from(at(text, i.wrapping_add(1)) % 16);
                self.index.enter(n, *letter, often, i.wrapping_add(3));
                n = n.wrapping_add(often);
            }
            before = *letter;
        }
    }

    // How often forms of a letter are drawn in all.
    pub fn total(&self, letter: u8) -> u64 {
        self.index.letters[usize::from(letter)].count
    }

    // Where a form of a letter stands, drawn.
    fn drawn(&self, letter: u8, seed: u64) -> usize {
        let k = draw(seed, u64::from(letter), self.total(letter));
        self.index.place(letter, k)
    }

    // The letters of the form at a place.
    fn letters(&self, from: usize) -> &[u8] {
        let rest = self.text.get(from..self.length).unwrap_or(&[]);
        let end = rest.iter().position(|b| *b == b'\n');
        &rest[..end.unwrap_or(rest.len())]
    }

    // The form at a place as lines, and how many bytes they have.
    fn put(&self, line: &mut [u8], seed: u64, sqi: bool, from: usize) -> usize {
        let mut pen = Pen { line, seed, at: 0 };
        for letter in self.letters(from) {
            if is_part(*letter) {
                let part = self.drawn(part_of(*letter, sqi), pen.seed_here());
                for inner in self.letters(part) {
                    pen.put_letter(*inner);
                }
            } else {
                pen.put_letter(*letter);
            }
        }
        pen.put(b'\n');
        pen.at
    }

    // A form of a letter as lines, drawn.
    pub fn put_any(&self, line: &mut [u8], seed: u64, sqi: bool, letter: u8) -> usize {
        self.put(line, seed, sqi, self.drawn(letter, seed))
    }

    // The k-th form of a letter.
    pub fn put_nth(&self, line: &mut [u8], seed: u64, letter: u8, k: u64) -> usize {
        self.put(line, seed, false, self.index.place(letter, k))
    }
}
