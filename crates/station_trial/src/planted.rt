// A short run with a difference planted on one side, or on both where a comparison is with what was before: each comparison is made in it.
use comparing::comparisons::say_planted;
use station_drawing::both::{Call, Event, Lengths, RIGHT, Sides};
use station_drawing::comparisons::{COMPARISONS, Comparison};
use station_drawing::{both, lists};

// 06, 98, a store, a lookup that is done, and one that gets 1.
fn tried(plant: Comparison, sides: &mut Sides) -> u64 {
    let plant = Some(plant);
    lists::fill(sides.first.array, lists::Sort::Empty, 0);
    lists::fill(sides.second.array, lists::Sort::Empty, 0);
    let a = both::happened(both::new_pair(), RIGHT, Event::Frame(&[0x06]), plant, sides);
    let b = both::happened(a.pair, RIGHT, Event::Frame(&[0x98]), plant, sides);
    let call = Call {
        station: 7,
        from: 3,
        allowance: 5,
    };
    let c = both::stored(b.pair, RIGHT, call, &[2, 3], plant, sides);
    let d = both::looked_up(c.pair, RIGHT, 7, Some(3), plant, sides);
    let short = Lengths { bytes: 27, ..RIGHT };
    let e = both::looked_up(c.pair, short, 7, Some(3), plant, sides);
    a.odd | b.odd | c.odd | d.odd | e.odd
}

pub fn planted_tried(rt: &impl Print, sides: &mut Sides) {
    for plant in COMPARISONS {
        let odd = tried(plant, sides);
        say_planted(rt, &COMPARISONS, plant, odd);
    }
}
