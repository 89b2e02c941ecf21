// What a line says to the store, and the store's calls on what the bench lends. specs/.
#![tactic(auto)]

mod lent;
mod lists;

pub use lent::{found, sent, shown};
pub use lists::{allowance_of, list_of, station_of, writes_ended};
