// Makes records from text: events in one line, copies of a piece, and CSV.
#![tactic(auto)]

mod blanks;
pub mod csv;
pub mod events;
pub mod repeat;
