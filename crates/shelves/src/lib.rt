// Both shelves under one name, for a program that takes either.
#![tactic(auto)]

pub use dense_shelf::{DenseShelf, Watermark};
pub use pair_shelf::{PairShelf, Step};
