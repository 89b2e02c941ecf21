// The station list of both models side by side (document 02, W-206): the paper's values; then runs of drawn calls, with events between. Differences planted on one side show
// that each comparison is made. All numbers come from fixed seeds.
#![tactic(auto)]

mod deeds;
mod paper;
mod planted;
mod report;
mod runs;
mod worked;

use comparing::Side;
use report::{Counts, Report};
use station_drawing::both::Sides;

const RUNS: u64 = 1600;

fn main(rt: HostRuntime) {
    let mut array = [255; 2097153];
    let mut security = [0x5a; 2049];
    let mut reply = [0; 65537];
    let mut marks = [0; 65537];
    let mut array2 = [255; 2097153];
    let mut security2 = [0x5a; 2049];
    let mut reply2 = [0; 65537];
    let mut marks2 = [0; 65537];
    let mut sides = Sides {
        first: Side {
            array: &mut array,
            security: &mut security,
            reply: &mut reply,
            marks: &mut marks,
        },
        second: Side {
            array: &mut array2,
            security: &mut security2,
            reply: &mut reply2,
            marks: &mut marks2,
        },
    };
    let mut report = Report {
        rt: &rt,
        counts: Counts::default(),
    };
    worked::both_filled(&mut sides);
    worked::paper_shown(&mut report, &mut sides);
    runs::runs_tried(RUNS, &mut report, &mut sides);
    report.counts_said();
    planted::planted_tried(&rt, &mut sides);
}
