// The table: what may follow what, and what a word says where it stands. specs/Table.antt.
ghost use Rattle.std.specs.Prelude.{◌≡◌, ◌-◌, ◌%◌};
ghost use Rattle.grammar.specs.Verbs.{verb_of};
ghost use Rattle.grammar.specs.Places.{takes_name};
ghost use Rattle.grammar.specs.Table.{position, keys_from, called, called_long, has_class, class_of, store_of, source_of, first_of, row_in, rows_in, next_of, can_end, value_of, slots_with};

use crate::{Class, Entry, Source, Store, Verb};
use spelling::{Word, key_after};

// ---- the words

// The class of the word with that key, in a text where a blank follows each word; 255 where it is none of them, and no Option: a row asks for a class by its number, and none has that one.
fn position(text: &[u8], key: u64) -> u8
    ensures { result ≡ position key 16 (keys_from 1 text.now) }
{
    let mut n: u8 = 16;
    let mut k: u64 = 1;
    for &b in text {
        if b != b' ' {
            k = key_after(k, b);
        } else if k == key {
            return n;
        } else {
            n = n.saturating_add(1);
            k = 1;
        }
    }
    255
}

// The one word of eight bytes.
#[tactic(auto, unfolding(crate::specs::Table::called_long))]
fn called_long(length: usize, key: u64) -> u8
    ensures { result ≡ called_long length key }
{
    if length == 8 && key == u64::from_be_bytes(*b"stations") {
        15
    } else {
        255
    }
}

#[tactic(auto, unfolding(crate::specs::Table::called, crate::specs::Table::keys, crate::specs::Table::word_list, crate::specs::Table::keys_from))]
fn called(w: Word) -> u8
    ensures { result ≡ called w }
{
    if w.length <= 7 {
        position(
            b"> = ! / * ~ ?? kept done cut status work locks dump id new fill buffer pattern \
            lend record is full short strict protect perm run aside sqi wel ioc wpen wpld \
            sec enable sector block array page lock config bits burst 8 16 32 64 \
            save load compare raw old ba torn store find text polls list ",
            w.key,
        )
    } else {
        called_long(w.length, w.key)
    }
}

// ---- the rows

#[tactic(auto, unfolding(crate::specs::Table::has_class))]
fn has_class(class: Class, w: Word, name: u8) -> bool
    ensures { result ≡ has_class class w name }
{
    match class {
        Class::Byte => w.hexadecimal & (w.length == 2),
        Class::Number => w.decimal,
        Class::Times => w.decimal & (0 < w.number),
        Class::Refusal => w.decimal & (w.number <= 18),
        Class::Address => w.hexadecimal & (w.length <= 6),
        Class::Hex => w.hexadecimal & (w.length <= 16),
        Class::Name => true,
        Class::Station => w.decimal & (w.number <= 65535),
        Class::Word(n) => n == name,
    }
}

// The table is a text, so that its rows are seen to be those of specs/Table by computing: of a row's numbers these are the kinds.
#[tactic(auto, unfolding(crate::specs::Table::class_of))]
fn class_of(n: u8) -> Class
    ensures { result ≡ class_of n }
{
    match n {
        0 => Class::Byte,
        1 => Class::Number,
        2 => Class::Times,
        3 => Class::Refusal,
        4 => Class::Address,
        5 => Class::Hex,
        6 => Class::Name,
        7 => Class::Station,
        _ => Class::Word(n),
    }
}

#[tactic(auto, unfolding(crate::specs::Table::store_of))]
fn store_of(n: u8) -> Store
    ensures { result ≡ store_of n }
{
    match n {
        1 => Store::Sends,
        2 => Store::SendsAgain,
        3 => Store::Expects,
        4 => Store::ExpectsAny,
        5 => Store::ExpectsUnknown,
        6 => Store::ExpectsAgain,
        7 => Store::Forgets,
        8 => Store::Enters,
        _ => Store::Nothing,
    }
}

#[tactic(auto, unfolding(crate::specs::Table::source_of))]
fn source_of(n: u8) -> Source
    ensures { result ≡ source_of n }
{
    match n {
        0 => Source::Nothing,
        1 => Source::Number,
        2 => Source::Hex,
        60 => Source::Byte,
        _ => Source::Says(n.saturating_sub(3)),
    }
}

// A number of the table is written as a byte 48 more.
fn less(b: u8) -> u8
    ensures { result ≡ b - 48 }
{
    b.saturating_sub(48)
}

// What a row of six bytes says: its place, the word's class, the next place, what is stored, the slot, its source.
fn entry_of(row: &[u8; 6]) -> Entry
    ensures { result ≡ (row_in row.now).entry }
{
    Entry {
        class: class_of(less(row[1])),
        next: less(row[2]),
        store: store_of(less(row[3])),
        slot: less(row[4]),
        source: source_of(less(row[5])),
    }
}

// The first row of that place whose class the word has.
fn first_of(text: &[u8], place: u8, w: Word, name: u8) -> Option<Entry>
    ensures { result ≡ first_of (rows_in text.now) place w name }
{
    let (rows, _) = text.as_chunks::<6>();
    for row in rows {
        if less(row[0]) == place {
            let entry = entry_of(row);
            if has_class(entry.class, w, name) {
                return Some(entry);
            }
        }
    }
    None
}

// What follows that place and that word; none where the word is a mistake. Six bytes a row: place, class, next place, store, slot, source.
pub fn follows(place: u8, w: Word) -> Option<Entry>
    ensures { result ≡ next_of place w }
{
    let name = called(w);
    first_of(
        b"0011040@40041011001D20001@40001B=0543011003@40003B=054223200\
        1vf0003vf000f1g071g0h09lg@4000gB=054h@4000hB=054\
        42501141W0115C60245A80445B=0546170317A80447B=054\
        WCX024WB=054X27031X1?031\
        8G?0458093008FY4008E:0009093009F94009E:0009D;0009B=054<09300<F9400<E:000<B=054:09500\
        ;2<600\
        Y09300YFY400YE:000YDZ000Z2[600[09300[FY400[E:000\
        =3>061\
        0H?0050I@006@1i071i0?09liB=054?B=054\
        0JA0080K>0090L>00:0MG00;GNH0:4G4I072H4I072I2A081I1>081AAB044B0C300BF\\400BED000C0C300CFC400\
        CED000CDE000F0C300FFC400FED000D0C500E2F600\
        \\0C300\\F\\400\\ED000\\D]000]2^600^0C300^F\\400^ED000\
        0Oe007et>0:40PJ00?0QK00@0R>00D0SN00AJNK0:4J4L072K4L072L1M081M0>092N1O071O1>081\
        0TP00B0UP00CPYQ000PZR000P[S000P\\T000P]P0A4P^P0B4P_P0C4P`P0D4PaP0E4PbP0F4PcP0G4PuP0:4Pk_000Q5P0;2\
        R5P0<2_lP093_mP094_nP095_oP096\
        SdU0=4SeU0=5SfP0=6SgU0=7SNU0=8ShP0=9SiU0=:SjU0=;U5P0>2\
        TdV0?4TeV0?5TfP0?6TgV0?7TNV0?8ThP0?9TiV0?:TjV0?;V5P0@2\
        0V>00<0W>00=0X>00>\
        0p`00E0qa00F0rc00I`sb70G`6?000asb70Ha6?000b6?000csd700d6>000\
        0wj00J0xw00K0?>00Lj7k071k0l100kyo094l0l100lDm000lzq024l{s0:4lB=054m2n200n0l100nzq024n{s0:4\
        nB=054o6p000pzq024p{s0:4pB=054q1r081r{s0:4rB=054s7t800t7t800tDu000tB=054u2v600v7t800vB=054\
        w7x071xAy044xB=054y09300yFY400",
        place,
        w,
        name,
    )
}

// A word is a name here.
pub fn takes_name(place: u8) -> bool
    ensures { result ≡ takes_name place }
{
    matches!(place, 48..=52 | 63)
}

// The line may end here.
#[tactic(auto, unfolding(crate::specs::Table::ends))]
pub fn can_end(place: u8) -> bool
    ensures { result ≡ can_end place }
{
    matches!(
        place,
        0 | 1
            | 3
            | 5
            | 7
            | 9
            | 12
            | 14
            | 15
            | 17
            | 19
            | 22
            | 32
            | 39
            | 53
            | 55
            | 56
            | 57
            | 60
            | 62
            | 64
            | 66
            | 68
            | 70
            | 72
    )
}

// ---- what a word says

#[tactic(auto, unfolding(crate::specs::Table::value_of))]
fn value(source: Source, w: Word) -> u64
    ensures { result ≡ value_of source w }
{
    match source {
        Source::Nothing => 0,
        Source::Number => w.number,
        Source::Hex => w.hex,
        Source::Byte => 256 + w.hex % 256,
        Source::Says(n) => u64::from(n),
    }
}

#[tactic(auto, unfolding(crate::specs::Table::slots_with))]
pub fn heard(slots: [u64; 24], e: Entry, w: Word) -> [u64; 24]
    ensures { result ≡ slots_with slots e w }
{
    let mut all = slots;
    let at = usize::from(e.slot);
    if !matches!(e.source, Source::Nothing) && at < all.len() {
        all[at] = value(e.source, w);
    }
    all
}

// The verb that a line's slot says, modulo 256; any other number is none.
#[tactic(auto, unfolding(crate::specs::Verbs::verb_of))]
pub fn verb_of(n: u64) -> Verb
    ensures { result ≡ verb_of (n % 256) }
{
    match n % 256 {
        0 => Verb::Blank,
        1 => Verb::Frame,
        2 => Verb::Done,
        3 => Verb::Cut,
        4 => Verb::New,
        5 => Verb::Status,
        6 => Verb::Work,
        7 => Verb::Locks,
        8 => Verb::Dump,
        9 => Verb::Full,
        10 => Verb::Short,
        11 => Verb::Strict,
        12 => Verb::Fill,
        13 => Verb::Buffer,
        14 => Verb::Lend,
        15 => Verb::Record,
        16 => Verb::Is,
        17 => Verb::Pattern,
        18 => Verb::Save,
        19 => Verb::Load,
        20 => Verb::SaveRaw,
        21 => Verb::LoadRaw,
        22 => Verb::CompareRaw,
        23 => Verb::Store,
        24 => Verb::Find,
        25 => Verb::Stations,
        _ => Verb::Wrong,
    }
}
