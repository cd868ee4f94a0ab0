// The shelf of dense rows over lent bytes.
#![tactic(auto)]

mod dense;
mod rows;
mod watermark;

pub use dense::DenseShelf;
pub use watermark::Watermark;
