// The searcher: finds words of a pattern in a record by scanning it in sets of positions, and remembers the steps
// between sets that it has met, so that most symbols of a long record cost one look-up.
//
// A set of positions that is remembered has a place. The shelf knows steps from place to place; the policy chooses
// which places are given up when all are taken. Neither can change what is found.
#![tactic(auto)]

mod answer;
mod counts;
mod row;
mod scanner;
mod searcher;

pub use answer::{Found, Listed, Whole};
pub use counts::Counts;
pub use searcher::Searcher;
