// A sealed pattern: the alphabet that its tests make, and what the step rule needs to know of its positions.
#![tactic(auto)]

mod assembly;
mod part;
mod plan;
mod rows;
mod sealing;
mod tables;

pub use plan::Plan;
pub use sealing::{Sealed, seal};
