// Why a line of a script gets no answer of its own.
use crate::failure::Failure;
use script::hex::HexError;
use script::mistake::Mistake;
use std::{fmt, io};

// What is wrong with the line, in words for people.
#[derive(Clone, Copy, Debug, PartialEq, Eq)]
pub enum Wrong {
    Mistake(Mistake),
    NotHex,
    Unsealed,
    NotAByte,
    NotAnEvent,
}

impl fmt::Display for Wrong {
    fn fmt<W: fmt::Write>(&self, f: &mut fmt::Formatter<W>) -> fmt::Result {
        match self {
            Wrong::Mistake(mistake) => write!(f, "{mistake}"),
            Wrong::NotHex => f.write_str("the text has to be pairs of hexadecimal digits"),
            Wrong::Unsealed => {
                f.write_str("there is no sealed pattern yet; seal makes one of the draft")
            }
            Wrong::NotAByte => f.write_str("behind class comes a byte in decimal"),
            Wrong::NotAnEvent => f.write_str("behind class comes an event, KIND:VALUE@MOMENT"),
        }
    }
}

// The line is wrong, or the program has to end.
#[derive(Drop)]
pub enum Trouble {
    Line(Wrong),
    Program(Failure),
}

impl From<Wrong> for Trouble {
    fn from(wrong: Wrong) -> Trouble {
        Trouble::Line(wrong)
    }
}

impl From<Mistake> for Trouble {
    fn from(mistake: Mistake) -> Trouble {
        Trouble::Line(Wrong::Mistake(mistake))
    }
}

impl From<Failure> for Trouble {
    fn from(failure: Failure) -> Trouble {
        Trouble::Program(failure)
    }
}

impl From<io::Error> for Trouble {
    fn from(error: io::Error) -> Trouble {
        Trouble::Program(Failure::from(error))
    }
}

impl From<HexError> for Trouble {
    fn from(error: HexError) -> Trouble {
        match error {
            HexError::NotHex => Trouble::Line(Wrong::NotHex),
            HexError::NoMemory => Trouble::Program(Failure::NoMemory),
        }
    }
}
