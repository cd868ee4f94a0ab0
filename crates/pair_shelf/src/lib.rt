// The shelf that is a table of pairs, and owns its memory.
#![tactic(auto)]

mod pair;
mod step;

pub use pair::PairShelf;
pub use step::Step;
