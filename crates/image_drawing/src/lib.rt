// Chips, memories and spoiled files for the program image_trial, apart so that they are proved beside other crates; like it safe and ending, with few contracts.
#![tactic(auto)]

pub mod chips;
pub mod places;
pub mod spoiling;
