// Image files of both models side by side (document 02, W-203 and W-204): the paper's values; chips written, read and written again; chips that are refused; spoiled
// files. Differences planted on one side show that each comparison is made. All numbers come from fixed seeds.
#![tactic(auto)]

mod bench;
mod cases;
mod comparisons;
mod report;
mod worked;

use bench::Bench;
use comparing::comparisons::say_planted;
use comparisons::{COMPARISONS, Comparison};
use report::{Counts, Report};

// Every value of the flags comes up once.
const CHIPS: u64 = 256;

// Each lock is once the fault of a broken record.
const REFUSED: u64 = 800;

// Each way of changing a file eight times, four of each part.
const FILES: u64 = 144;

// A case in which the comparison is made: what a refusal leaves, of a broken record and of a wrong mark; else an idle chip.
fn planted_case(plant: Comparison, counts: &mut Counts, bench: &mut Bench) -> u64 {
    match plant {
        Comparison::BufferLeft => cases::refused_case(bench, 1, Some(plant), counts),
        Comparison::ArrayLeft | Comparison::SecurityIdLeft | Comparison::RecordLeft => {
            cases::file_case(bench, 1, Some(plant), counts)
        }
        _ => cases::chip_case(bench, 3, Some(plant), counts),
    }
}

fn main(rt: HostRuntime) {
    let mut array = [255u8; 2097153];
    let mut security = [255u8; 2049];
    let mut file = [0u8; 2148375];
    let mut other = [0u8; 2148375];
    let mut security2 = [0u8; 2049];
    let mut bench = Bench {
        array: &mut array,
        security: &mut security,
        file: &mut file,
        other: &mut other,
        security2: &mut security2,
    };
    let mut report = Report {
        rt: &rt,
        counts: report::no_counts(),
    };
    worked::show_paper(&mut report, &mut bench);
    for k in 0..CHIPS {
        let odd = cases::chip_case(&mut bench, k, None, &mut report.counts);
        report.tell("chip", k, odd);
    }
    for k in 0..REFUSED {
        let odd = cases::refused_case(&mut bench, k, None, &mut report.counts);
        report.tell("refused chip", k, odd);
    }
    for k in 0..FILES {
        let odd = cases::file_case(&mut bench, k, None, &mut report.counts);
        report.tell("file", k, odd);
    }
    report.say_counts();
    // What is counted counts for nothing here.
    for plant in COMPARISONS {
        let odd = planted_case(plant, &mut report.counts, &mut bench);
        say_planted(&rt, &COMPARISONS, plant, odd);
    }
}
