// Lines of scripts that search: the commands that the program is to get. The program does not make them yet.
#![tactic(auto)]

pub mod command;
mod opening;
mod source;
mod verb;
