// What a code is called when it is printed.
ghost use Rattle.std.specs.Prelude.{Some};
ghost use Rattle.pattern.specs.Names.{name_of};

use super::Code;
use std::fmt;

impl fmt::Display for Code {
    ghost output = { λ code. Some (name_of code) };

    fn fmt<W: fmt::Write>(&self, f: &mut fmt::Formatter<W>) -> fmt::Result {
        f.write_str(match self {
            Code::Atom => "atom",
            Code::Join => "join",
            Code::Choice => "choice",
            Code::Star => "star",
            Code::Plus => "plus",
            Code::Maybe => "maybe",
        })
    }
}
