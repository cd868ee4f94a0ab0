// What a searcher remembers: the traits of a shelf of known steps and of an eviction policy, by what they mean.
#![tactic(auto)]

pub mod policy;
pub mod shelf;
