// A line of a script that searches as a command.
ghost use Rattle.std.specs.Prelude.{◌≡◌};
ghost use Rattle.search_script.specs.Commands.{asked_by, asked, told_command, told};
ghost use Rattle.search_script.specs.declared.command.Mistake.TheVariants.{Plain};

use crate::opening::parse_opening;
use crate::source::parse_source;
use crate::verb::{Verb, verb_of};
use script::arguments::{parse_end, parse_number, parse_two};
use script::words::{before, behind, trimmed};
use script::{command, mistake};

// A shelf for known steps; a dense one is lent so many bytes.
#[derive(Clone, Copy, Debug, PartialEq, Eq)]
pub enum ShelfChoice {
    Dense(u64),
    Pair,
}

#[derive(Clone, Copy, Debug, PartialEq, Eq)]
pub enum PolicyChoice {
    Flush,
    Clock,
}

// What a searcher is opened with.
#[derive(Clone, Copy, Debug, PartialEq, Eq)]
pub struct Opening {
    pub shelf: ShelfChoice,
    pub policy: PolicyChoice,
}

// What a record is made of: a text, digits or events of the line, so many copies of them, or a file.
#[derive(Clone, Copy, Debug, PartialEq, Eq)]
pub enum Source<'a> {
    Text(&'a [u8]),
    Hex(&'a [u8]),
    HexRepeat(u64, &'a [u8]),
    File(&'a [u8]),
    Events(&'a [u8]),
    EventsRepeat(u64, &'a [u8]),
    EventsFile(&'a [u8]),
}

// What a line asks for; texts stay bytes of the line.
#[derive(Clone, Copy, Debug, PartialEq, Eq)]
pub enum Command<'a> {
    // A command that does not search.
    Plain(command::Command<'a>),
    Open(Opening),
    Record(Source<'a>),
    // From which place on.
    Find(u64),
    // From which place on, and into how many entries.
    List(u64, u64),
    Whole,
    Limit(u64),
    Clear,
    Memory,
}

// What can be wrong with a line.
#[derive(Clone, Copy, Debug, PartialEq, Eq)]
pub enum Mistake {
    // What can be wrong with a line that does not search, too.
    Plain(mistake::Mistake),
    UnknownShelf,
    UnknownPolicy,
    NoPath,
}

impl From<mistake::Mistake> for Mistake {
    ghost from_gives = { λ mistake r. r ≡ Plain mistake };

    fn from(mistake: mistake::Mistake) -> Mistake {
        Mistake::Plain(mistake)
    }
}

fn parse_verb(verb: Verb, rest: &[u8]) -> Result<Command<'_>, Mistake>
    ensures { told_command result ≡ asked_by verb rest.now }
{
    match verb {
        Verb::Open => Ok(Command::Open(parse_opening(rest)?)),
        Verb::Record(manner) => Ok(Command::Record(parse_source(manner, rest)?)),
        Verb::Find => Ok(Command::Find(parse_number(rest)?)),
        Verb::List => {
            let (from, entries) = parse_two(rest)?;
            Ok(Command::List(from, entries))
        }
        Verb::Whole => {
            parse_end(rest)?;
            Ok(Command::Whole)
        }
        Verb::Limit => Ok(Command::Limit(parse_number(rest)?)),
        Verb::Clear => {
            parse_end(rest)?;
            Ok(Command::Clear)
        }
        Verb::Memory => {
            parse_end(rest)?;
            Ok(Command::Memory)
        }
    }
}

// What the line asks for, if it asks for anything.
pub fn parse_line(line: &[u8]) -> Result<Option<Command<'_>>, Mistake>
    ensures { told result ≡ asked line.now }
{
    if let Some(verb) = verb_of(before(trimmed(line), b' ')) {
        return Ok(Some(parse_verb(verb, behind(line, b' '))?));
    }
    let plain = command::parse_line(line)?;
    Ok(plain.map(Command::Plain))
}
