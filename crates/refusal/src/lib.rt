// Why a text or a call is refused, and where.
#![tactic(auto)]

ghost use Rattle.std.specs.Prelude.{◌≡◌};
ghost use Rattle.refusal.specs.Causes.{number_of, number_of_layer, layer_of};

mod words;

// The causes, in checking order, each with the number by which it is told.
#[derive(Clone, Copy, Debug, PartialEq, Eq)]
pub enum Cause {
    TextTooLong = 3,
    NoItem = 4,
    BadEscape = 5,
    UnclosedBracket = 6,
    ReversedRange = 7,
    BadNumber = 8,
    TooManyAtoms = 9,
    TooDeep = 10,
    MissingOperand = 11,
    UnmatchedClosing = 12,
    UnclosedGroup = 13,
    RecordTooLong = 14,
    FromPastEnd = 15,
    LimitTooLarge = 16,
}

// What refuses, with the number by which it is told: the items, the count of atoms, the pattern's structure, a search call.
#[derive(Clone, Copy, Debug, PartialEq, Eq)]
pub enum Layer {
    Items = 2,
    Atoms = 3,
    Structure = 4,
    Call = 5,
}

impl Layer {
    pub fn number(self) -> u8
        ensures { result ≡ number_of_layer self }
    {
        self as u8
    }
}

impl Cause {
    pub fn number(self) -> u8
        ensures { result ≡ number_of self }
    {
        self as u8
    }

    pub fn layer(self) -> Layer
        ensures { number_of_layer result ≡ layer_of self }
    {
        match self {
            Cause::TextTooLong
            | Cause::NoItem
            | Cause::BadEscape
            | Cause::UnclosedBracket
            | Cause::ReversedRange
            | Cause::BadNumber => Layer::Items,
            Cause::TooManyAtoms => Layer::Atoms,
            Cause::TooDeep
            | Cause::MissingOperand
            | Cause::UnmatchedClosing
            | Cause::UnclosedGroup => Layer::Structure,
            Cause::RecordTooLong | Cause::FromPastEnd | Cause::LimitTooLarge => Layer::Call,
        }
    }
}

// A refusal: its cause and its place, a byte of the text counted from 0 (the text's length for what is missing at its end).
#[derive(Clone, Copy, Debug, PartialEq, Eq)]
pub struct Refusal {
    pub cause: Cause,
    pub place: usize,
}
