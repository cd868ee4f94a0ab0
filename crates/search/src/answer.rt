// What the searches answer.
use crate::counts::Counts;
use theory::Span;

// The span that a find found, if there is one.
#[derive(Clone, Copy, Debug, PartialEq, Eq)]
pub struct Found {
    pub span: Option<Span>,
    pub counts: Counts,
}

// How many spans a list wrote, and its rest.
#[derive(Clone, Copy, Debug, PartialEq, Eq)]
pub struct Listed {
    pub written: usize,
    pub rest: Option<usize>,
    pub counts: Counts,
}

// Whether the record is a word.
#[derive(Clone, Copy, Debug, PartialEq, Eq)]
pub struct Whole {
    pub is_word: bool,
    pub counts: Counts,
}
