// Chips, station lists and calls that are drawn for the program station_trial, and both models' calls side by side; apart so that they are proved beside other
// crates, and like it safe and ending, with few contracts: that each comparison is made is shown by differences planted for it.
#![tactic(auto)]

pub mod both;
pub mod calls;
pub mod chips;
pub mod comparisons;
pub mod lists;
pub mod showing;
