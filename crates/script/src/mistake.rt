// What can be wrong with a line.
ghost use Rattle.std.specs.Prelude.{Some};
ghost use Rattle.script.specs.Mistakes.{told_to_people};

use std::error::Error;
use std::fmt;

#[derive(Clone, Copy, Debug, PartialEq, Eq)]
pub enum Mistake {
    UnknownCommand,
    UnknownNotation,
    BadNumber,
    Surplus,
}

impl fmt::Display for Mistake {
    ghost output = { λ mistake. Some (told_to_people mistake) };

    fn fmt<W: fmt::Write>(&self, f: &mut fmt::Formatter<W>) -> fmt::Result {
        f.write_str(match self {
            Mistake::UnknownCommand => "unknown command; sungrieb --help has the commands",
            Mistake::UnknownNotation => {
                "behind pattern comes bytes, events, bytes-hex or events-hex"
            }
            Mistake::BadNumber => "a number is missing, or something else stands in its place",
            Mistake::Surplus => "nothing comes behind this command",
        })
    }
}

impl Error for Mistake {}
