// Sets of places and sets of positions, as one type whose contracts speak of members alone.
#![tactic(auto)]

mod bit_set;
mod iter;

pub use bit_set::{BitSet, Place, PlaceSet, Position, PositionSet, equality_stands};
pub use iter::Iter;
