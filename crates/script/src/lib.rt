// Reads a line of a script or of a run sheet. Lines are bytes and need not be UTF-8.
#![tactic(auto)]

pub mod arguments;
pub mod command;
pub mod hex;
pub mod mistake;
pub mod number;
pub mod sheet;
pub mod symbol;
pub mod words;
