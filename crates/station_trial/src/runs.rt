// Runs of drawn calls on drawn chips and lists, with events between.
use crate::report::Report;
use drawing::dice::{draw, seed_of};
use station_drawing::both::{Call, Event, Lengths, Pair, Sides};
use station_drawing::{both, calls, chips, lists, showing};

// A step of a run: the numbers of both, what is lent in the run, and the seed of what is drawn.
#[derive(Clone, Copy)]
struct At {
    run: u64,
    step: u64,
    lengths: Lengths,
    seed: u64,
}

// ---- calls

fn looks(
    p: Pair,
    t: At,
    station: u16,
    wanted: Option<u8>,
    report: &mut Report<impl Print>,
    sides: &mut Sides,
) -> Pair {
    let w = both::looked_up(p, t.lengths, station, wanted, None, sides);
    report.lookup_counted(w.pair.first.number);
    report.told("lookup of run", t.run, t.step, w.odd);
    w.pair
}

fn looks_drawn(p: Pair, t: At, report: &mut Report<impl Print>, sides: &mut Sides) -> Pair {
    let lengths = calls::lengths(t.lengths, t.seed);
    let lent = At { lengths, ..t };
    looks(p, lent, calls::station(t.seed), None, report, sides)
}

fn stores(p: Pair, t: At, c: Call, report: &mut Report<impl Print>, sides: &mut Sides) -> Pair {
    let mut list = [0; 2304];
    let entries = calls::entries(&mut list, t.seed, c.allowance);
    let lengths = calls::lengths(t.lengths, t.seed);
    let w = both::stored(p, lengths, c, entries, None, sides);
    let live = showing::live_slots(&sides.first, c.station);
    report.store_counted(w.pair.first.number, live);
    report.told("store of run", t.run, t.step, w.odd);
    w.pair
}

// What was just stored is looked up.
fn stores_and_looks(p: Pair, t: At, report: &mut Report<impl Print>, sides: &mut Sides) -> Pair {
    let c = calls::call(t.seed);
    let next = stores(p, t, c, report, sides);
    let wanted = (next.first.number == 0).then_some(c.from);
    looks(next, t, c.station, wanted, report, sides)
}

// ---- events

fn happens(p: Pair, t: At, e: Event, report: &mut Report<impl Print>, sides: &mut Sides) -> Pair {
    let w = both::happened(p, t.lengths, e, None, sides);
    report.told("event of run", t.run, t.step, w.odd);
    w.pair
}

fn cuts(p: Pair, t: At, report: &mut Report<impl Print>, sides: &mut Sides) -> Pair {
    report.cut_counted();
    happens(p, t, calls::cut(t.seed), report, sides)
}

// A power cut, and 06 and 98, which open the list again.
fn cuts_and_opens(p: Pair, t: At, report: &mut Report<impl Print>, sides: &mut Sides) -> Pair {
    let a = cuts(p, t, report, sides);
    let b = happens(a, t, Event::Frame(&[0x06]), report, sides);
    happens(b, t, Event::Frame(&[0x98]), report, sides)
}

// The reset enable, suspension, resumption, WEL.
fn opcode(seed: u64) -> u8 {
    match draw(seed, 41, 5) {
        0 => 0x66,
        1 | 2 => 0xb0,
        3 => 0x30,
        _ => 0x06,
    }
}

fn step(p: Pair, t: At, report: &mut Report<impl Print>, sides: &mut Sides) -> Pair {
    match draw(t.seed, 42, 16) {
        0..=6 => stores_and_looks(p, t, report, sides),
        7..=10 => looks_drawn(p, t, report, sides),
        11 | 12 => cuts_and_opens(p, t, report, sides),
        13 => happens(p, t, Event::Completion, report, sides),
        14 => happens(p, t, Event::Frame(&[opcode(t.seed)]), report, sides),
        _ => cuts(p, t, report, sides),
    }
}

// ---- runs

// The same list in both arrays.
fn filled(k: u64, report: &mut Report<impl Print>, sides: &mut Sides) {
    let seed = seed_of(207, k);
    let n = (draw(seed, 43, 10) % 10) as usize;
    let sort = lists::SORTS[n];
    report.list_counted(n);
    lists::fill(sides.first.array, sort, seed);
    lists::fill(sides.second.array, sort, seed);
}

// Each sort of chip in turn; an idle chip with an open list more often.
fn run(k: u64, report: &mut Report<impl Print>, sides: &mut Sides) {
    let seed = seed_of(206, k);
    let turn = (k % 32) as usize;
    let n = if turn < 23 { turn } else { 0 };
    let sort = chips::SORTS[n];
    report.chip_counted(n);
    filled(k, report, sides);
    let lengths = calls::run_lengths(sort, seed);
    let mut p = both::pair_of(chips::start(sort, seed));
    for i in 0..6 {
        let t = At {
            run: k,
            step: i,
            lengths,
            seed: seed_of(seed, i),
        };
        p = step(p, t, report, sides);
    }
}

pub fn runs_tried(runs: u64, report: &mut Report<impl Print>, sides: &mut Sides) {
    for k in 0..runs {
        run(k, report, sides);
    }
}
