use search::{Found, Listed, Whole};

// What a call of a series answers, unless it is refused.
#[derive(Clone, Copy)]
pub enum Answer {
    Found(Found),
    Listed(Listed),
    Whole(Whole),
    // A limit or a clear: how many steps were dropped.
    Dropped(usize),
}
