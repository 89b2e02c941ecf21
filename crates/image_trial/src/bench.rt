// The memories and files of both models, written and read by both, and in what the two differ: a bit for each comparison, which also a difference can be planted for.
use crate::comparisons::Comparison;
use crate::report::Counts;
use comparing::bytes::{front, front_mut, same_front};
use comparing::comparisons::{bit, planted_number, planted_record};
use comparing::mapping::{flat_of, same_records};
use drawing::bump;
use drawing::dice::seed_of;
use image_drawing::chips;
use image_drawing::places::{BEFORE, File, Identity, Memory, all_are, turn};
use rules::Chip;
use second::Flat;

// As much of each as is lent. Not one struct with station_drawing's lengths, of which only two are the same: each `..RIGHT` would then be two.
#[derive(Clone, Copy)]
pub struct Lengths {
    pub array: usize,
    pub security: usize,
    pub file: usize,
}

pub const RIGHT: Lengths = Lengths {
    array: 2097152,
    security: 2048,
    file: 2148374,
};

// ---- numbers and records

// The comparison of a number with the one that is due, where one is.
fn odd_due(number: u8, due: Option<u8>, plant: Option<Comparison>) -> u64 {
    let right = match due {
        Some(due) => {
            u64::from(number) == planted_number(u64::from(due), plant, Comparison::DueNumber)
        }
        None => true,
    };
    bit(right, Comparison::DueNumber)
}

fn odd_record(first: Chip, second: Flat, plant: Option<Comparison>, c: Comparison) -> u64 {
    bit(same_records(first, planted_record(second, plant, c)), c)
}

// What both readers gave back.
#[derive(Clone, Copy)]
pub struct Got {
    number: u8,
    chip: Chip,
    second: u8,
    state: Flat,
}

// That the record was left is asked of a refusal.
fn odd_records(before: Chip, g: Got, due: Option<u8>, plant: Option<Comparison>) -> u64 {
    let second = planted_number(u64::from(g.second), plant, Comparison::ReadingNumber);
    let left = if g.number == 0 {
        0
    } else {
        odd_record(before, g.state, plant, Comparison::RecordLeft)
    };
    bit(u64::from(g.number) == second, Comparison::ReadingNumber)
        | odd_record(g.chip, g.state, plant, Comparison::Record)
        | left
        | odd_due(g.number, due, plant)
}

// A chip that is read is the part that its file says: bit 7 of the flags, which stand behind the mark and two registers, is 1 for BA (02, W-204).
fn odd_part(g: Got, plant: Option<Comparison>, file: &File) -> u64 {
    let ba = g.chip.rest.flags.ba ^ (plant == Some(Comparison::Part));
    bit(ba == (file[14] / 128 == 1), Comparison::Part)
}

// ---- memories

fn fill(array_seed: u64, security_seed: u64, array: &mut [u8], security: &mut [u8]) {
    chips::fill(front_mut(RIGHT.array, array), seed_of(array_seed, 50));
    chips::fill(
        front_mut(RIGHT.security, security),
        seed_of(security_seed, 51),
    );
}

// The two models have neither a type nor a function in common, so each writes by its own.
pub fn first_writes(c: Chip, l: Lengths, array: &[u8], security: &[u8], file: &mut [u8]) -> u8 {
    let p = image_writing::write(
        c,
        front(l.array, array),
        front(l.security, security),
        front_mut(l.file, file),
    );
    image::number(p)
}

fn second_writes(f: Flat, l: Lengths, array: &[u8], security: &[u8], file: &mut [u8]) -> u8 {
    second::image_write(
        f,
        front(l.array, array),
        front(l.security, security),
        front_mut(l.file, file),
    )
}

// The memories that both write from and the first model reads into, and two files; the second reads into the front of the other file and a Security ID of its own.
#[derive(Drop)]
pub struct Bench<'a> {
    pub array: &'a mut Memory,
    pub security: &'a mut Identity,
    pub file: &'a mut File,
    pub other: &'a mut File,
    pub security2: &'a mut Identity,
}

impl Bench<'_> {
    pub fn fill(&mut self, array_seed: u64, security_seed: u64) {
        let array = &mut *self.array;
        let security = &mut *self.security;
        fill(array_seed, security_seed, array, security);
    }

    // ---- writing

    // Both write into a buffer of 5A each; in what they differ.
    pub fn write(
        &mut self,
        c: Chip,
        l: Lengths,
        due: Option<u8>,
        plant: Option<Comparison>,
        counts: &mut Counts,
    ) -> u64 {
        let array = &*self.array;
        let security = &*self.security;
        let file = &mut *self.file;
        let other = &mut *self.other;
        file.fill(BEFORE);
        other.fill(BEFORE);
        let first = first_writes(c, l, array, security, file);
        let second = second_writes(flat_of(c), l, array, security, other);
        counts.writes = counts.writes.wrapping_add(1);
        bump(&mut counts.write_numbers, usize::from(first));
        let second = planted_number(u64::from(second), plant, Comparison::WritingNumber);
        if plant == Some(Comparison::File) && first == 0 {
            turn(other);
        }
        if plant == Some(Comparison::BufferLeft) && first != 0 {
            turn(file);
            turn(other);
        }
        let left = first == 0 || all_are(file, BEFORE) && all_are(other, BEFORE);
        bit(u64::from(first) == second, Comparison::WritingNumber)
            | bit(*file == *other, Comparison::File)
            | bit(left, Comparison::BufferLeft)
            | odd_due(first, due, plant)
    }

    // ---- reading

    // Both read into memories of 5A each. The record is not judged.
    pub fn read(&mut self, c: Chip, l: Lengths, counts: &mut Counts) -> Got {
        let array = &mut *self.array;
        let security = &mut *self.security;
        let other = &mut *self.other;
        let security2 = &mut *self.security2;
        array.fill(BEFORE);
        security.fill(BEFORE);
        other.fill(BEFORE);
        security2.fill(BEFORE);
        let file = front(l.file, &*self.file);
        let r = image_reading::read(
            c,
            file,
            front_mut(l.array, array),
            front_mut(l.security, security),
        );
        let s = second::image_read(
            flat_of(c),
            file,
            front_mut(l.array, other),
            front_mut(l.security, security2),
        );
        let number = image::number(r.answer);
        counts.reads = counts.reads.wrapping_add(1);
        bump(&mut counts.read_numbers, usize::from(number));
        Got {
            number,
            chip: r.chip,
            second: s.number,
            state: s.state,
        }
    }

    fn plant_in_memories(&mut self, number: u8, plant: Option<Comparison>) {
        let refused = number != 0;
        match plant {
            Some(Comparison::Array) => turn(&mut *self.other),
            Some(Comparison::SecurityId) => turn(&mut *self.security2),
            Some(Comparison::ArrayLeft) if refused => {
                turn(&mut *self.array);
                turn(&mut *self.other);
            }
            Some(Comparison::SecurityIdLeft) if refused => {
                turn(&mut *self.security);
                turn(&mut *self.security2);
            }
            _ => {}
        }
    }

    fn odd_memories(&self, number: u8) -> u64 {
        let done = number == 0;
        let array_left = done || all_are(&*self.array, BEFORE) && all_are(&*self.other, BEFORE);
        let security_left = done
            || all_are(&*self.security, BEFORE) && all_are(&*self.security2, BEFORE);
        bit(
            same_front(2097153, &*self.array, &*self.other),
            Comparison::Array,
        ) | bit(*self.security == *self.security2, Comparison::SecurityId)
            | bit(array_left, Comparison::ArrayLeft)
            | bit(security_left, Comparison::SecurityIdLeft)
    }

    // In what the two differ that were read in place of a record.
    pub fn odd_reading(
        &mut self,
        before: Chip,
        g: Got,
        due: Option<u8>,
        plant: Option<Comparison>,
    ) -> u64 {
        self.plant_in_memories(g.number, plant);
        odd_records(before, g, due, plant) | self.odd_memories(g.number)
    }

    // ---- what is read is what was written

    // The second's memories are filled once more, with what was written, and compared.
    pub fn odd_back(&mut self, c: Chip, g: Got, seed: u64, plant: Option<Comparison>) -> u64 {
        let other = &mut *self.other;
        let security2 = &mut *self.security2;
        fill(seed, seed, other, security2);
        match plant {
            Some(Comparison::ArrayBack) => turn(other),
            Some(Comparison::SecurityIdBack) => turn(security2),
            _ => {}
        }
        bit(
            same_front(RIGHT.array, &*self.array, other),
            Comparison::ArrayBack,
        ) | bit(
            same_front(RIGHT.security, &*self.security, security2),
            Comparison::SecurityIdBack,
        ) | odd_record(c, g.state, plant, Comparison::RecordBack)
    }

    // A model writes what was read: the same bytes.
    fn odd_again<F: FnOnce(&Memory, &Identity, &mut File) -> u8>(
        &mut self,
        write: F,
        plant: Option<Comparison>,
        c: Comparison,
    ) -> u64
        requires { F.IsAlwaysCallable write }
    {
        let array = &*self.array;
        let security = &*self.security;
        let other = &mut *self.other;
        other.fill(BEFORE);
        write(array, security, other);
        if plant == Some(c) {
            turn(other);
        }
        bit(*self.file == *other, c)
    }

    pub fn odd_written_again(&mut self, g: Got, plant: Option<Comparison>) -> u64 {
        if g.number != 0 {
            return 0;
        }
        odd_part(g, plant, &*self.file)
            | self.odd_again(
                |array, security, file| first_writes(g.chip, RIGHT, array, security, file),
                plant,
                Comparison::WrittenAgain,
            )
            | self.odd_again(
                |array, security, file| second_writes(g.state, RIGHT, array, security, file),
                plant,
                Comparison::WrittenAgainBySecond,
            )
    }
}
