// Reading a pattern text into a draft: its lexemes in some notation, then the pattern that they form.
#![tactic(auto)]

pub use self::draft::Draft;
pub use self::trials::trials_stand;

mod draft;
mod limits;
mod surplus;
mod trials;
