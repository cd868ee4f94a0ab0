// Why the program ends with status 1, in words for people.
use std::alloc::{AllocError, AllocFailed};
use std::{fmt, io};

#[derive(Drop)]
pub enum Failure {
    Usage(&'static str),
    UnknownWord(String),
    File(String, io::Error),
    Input(io::Error),
    Output(io::Error),
    NoMemory,
}

impl From<io::Error> for Failure {
    fn from(error: io::Error) -> Failure {
        Failure::Output(error)
    }
}

impl From<AllocError> for Failure {
    fn from(_error: AllocError) -> Failure {
        Failure::NoMemory
    }
}

impl<T: Drop> From<AllocFailed<T>> for Failure {
    fn from(_error: AllocFailed<T>) -> Failure {
        Failure::NoMemory
    }
}

impl fmt::Display for Failure {
    fn fmt<W: fmt::Write>(&self, f: &mut fmt::Formatter<W>) -> fmt::Result {
        match self {
            Failure::Usage(words) => write!(f, "{words}; sungrieb --help has the commands"),
            Failure::UnknownWord(word) => write!(
                f,
                "unknown command '{word}'; sungrieb --help has the commands"
            ),
            Failure::File(path, error) => write!(f, "cannot read {path}: {error}"),
            Failure::Input(error) => write!(f, "cannot read standard input: {error}"),
            Failure::Output(error) => write!(f, "cannot write the answers: {error}"),
            Failure::NoMemory => f.write_str("out of memory"),
        }
    }
}
