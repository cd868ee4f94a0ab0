// The eviction policies: flush-all gives up every place that it may, the clock one at a time.
#![tactic(auto)]

mod clock;
mod flush_all;
mod others;

pub use clock::Clock;
pub use flush_all::FlushAll;
