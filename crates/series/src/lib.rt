// Series of calls on a searcher, and the law that they keep.
#![tactic(auto)]

mod agreement;
mod answer;
mod series;

pub use agreement::{Agreement, Side, agree};
pub use answer::Answer;
pub use series::{Call, Session, perform, run};
