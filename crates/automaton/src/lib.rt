// A pattern over an alphabet, as a searcher asks for it; a sealed pattern is one.
#![tactic(auto)]

mod automaton;
mod sealed_pattern;

pub use automaton::Automaton;
