// What a refusal says when it is printed.
ghost use Rattle.std.specs.Prelude.{Some};
ghost use Rattle.refusal.specs.Words.{words_of, refusal_text};

use super::{Cause, Refusal};
use std::error::Error;
use std::fmt;

impl fmt::Display for Cause {
    ghost output = { λ cause. Some (words_of cause) };

    fn fmt<W: fmt::Write>(&self, f: &mut fmt::Formatter<W>) -> fmt::Result {
        f.write_str(match self {
            Cause::TextTooLong => "the text has over 512 bytes",
            Cause::NoItem => "nothing begins with this byte",
            Cause::BadEscape => "a backslash does not go before this",
            Cause::UnclosedBracket => "this bracket is not closed",
            Cause::ReversedRange => "this range ends below its start",
            Cause::BadNumber => "a number is missing here, has over five digits or is too large",
            Cause::TooManyAtoms => "there are over 63 atoms",
            Cause::TooDeep => "parentheses nest over 32 deep",
            Cause::MissingOperand => "something to match is missing here",
            Cause::UnmatchedClosing => "this parenthesis was not opened",
            Cause::UnclosedGroup => "a parenthesis is not closed at the end",
            Cause::RecordTooLong => "the record has over 1,048,576 symbols",
            Cause::FromPastEnd => "the search begins behind the record's end",
            Cause::LimitTooLarge => "the limit is above 64",
        })
    }
}

impl Error for Cause {}

impl fmt::Display for Refusal {
    ghost output = { λ refusal. Some (refusal_text refusal) };

    fn fmt<W: fmt::Write>(&self, f: &mut fmt::Formatter<W>) -> fmt::Result {
        let number = self.cause.number();
        let layer = self.cause.layer().number();
        let place = self.place;
        write!(f, "refused {number} layer {layer} place {place}")
    }
}

impl Error for Refusal {}
