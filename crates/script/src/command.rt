// A line of a script as a command.
ghost use Rattle.std.specs.Prelude.{◌≡◌};
ghost use Rattle.script.specs.Commands.{verb_of, kind_of, form_of, passed_over, asked_pattern, asked_by, asked, told_command, told};

use crate::arguments::{parse_end, parse_number, parse_two};
// What the functions here fail with.
pub use crate::mistake::Mistake;
use crate::words::{before, behind, trimmed};

// The notation of a pattern, or the kind of a record.
#[derive(Clone, Copy, Debug, PartialEq, Eq)]
pub enum Kind {
    Bytes,
    Events,
}

// How a pattern's text is given.
#[derive(Clone, Copy, Debug, PartialEq, Eq)]
pub struct Form {
    pub kind: Kind,
    pub hex: bool,
}

#[derive(Clone, Copy, Debug, PartialEq, Eq)]
pub enum Verb {
    Pattern,
    Test,
    Seal,
    Class,
    Passes,
    Positions,
}

// What a line asks for; texts stay bytes of the line.
#[derive(Clone, Copy, Debug, PartialEq, Eq)]
pub enum Command<'a> {
    Pattern(Form, &'a [u8]),
    Test(u64),
    Seal,
    // The symbol, in the way of the sealed pattern's alphabet.
    Class(&'a [u8]),
    // A class and a test.
    Passes(u64, u64),
    Positions,
}

#[tactic(auto, using(crate::proofs::Same::same_is))]
fn verb_of(word: &[u8]) -> Option<Verb>
    ensures { result ≡ verb_of word.now }
{
    match word {
        b"pattern" => Some(Verb::Pattern),
        b"test" => Some(Verb::Test),
        b"seal" => Some(Verb::Seal),
        b"class" => Some(Verb::Class),
        b"passes" => Some(Verb::Passes),
        b"positions" => Some(Verb::Positions),
        _ => None,
    }
}

#[tactic(auto, using(crate::proofs::Same::same_is))]
pub(crate) fn kind_of(word: &[u8]) -> Option<Kind>
    ensures { result ≡ kind_of word.now }
{
    match word {
        b"bytes" => Some(Kind::Bytes),
        b"events" => Some(Kind::Events),
        _ => None,
    }
}

fn form_of(word: &[u8]) -> Option<Form>
    ensures { result ≡ form_of word.now }
{
    let (kind, hex) = match word.strip_suffix(b"-hex") {
        Some(kind) => (kind_of(kind)?, true),
        None => (kind_of(word)?, false),
    };
    Some(Form { kind, hex })
}

// Blank lines and comments ask for nothing.
pub(crate) fn is_passed_over(line: &[u8]) -> bool
    ensures { result ≡ passed_over line.now }
{
    matches!(trimmed(line), [] | [b'#', ..])
}

fn parse_pattern(rest: &[u8]) -> Result<Command<'_>, Mistake>
    ensures { told_command result ≡ asked_pattern rest.now }
{
    let form = form_of(before(rest, b' ')).ok_or(Mistake::UnknownNotation)?;
    Ok(Command::Pattern(form, behind(rest, b' ')))
}

fn parse_verb(verb: Verb, rest: &[u8]) -> Result<Command<'_>, Mistake>
    ensures { told_command result ≡ asked_by verb rest.now }
{
    match verb {
        Verb::Pattern => parse_pattern(rest),
        Verb::Test => Ok(Command::Test(parse_number(rest)?)),
        Verb::Seal => {
            parse_end(rest)?;
            Ok(Command::Seal)
        }
        Verb::Class => Ok(Command::Class(trimmed(rest))),
        Verb::Passes => {
            let (class, test) = parse_two(rest)?;
            Ok(Command::Passes(class, test))
        }
        Verb::Positions => {
            parse_end(rest)?;
            Ok(Command::Positions)
        }
    }
}

// What the line asks for, if it asks for anything.
pub fn parse_line(line: &[u8]) -> Result<Option<Command<'_>>, Mistake>
    ensures { told result ≡ asked line.now }
{
    if is_passed_over(line) {
        return Ok(None);
    }
    let verb = verb_of(before(trimmed(line), b' ')).ok_or(Mistake::UnknownCommand)?;
    let command = parse_verb(verb, behind(line, b' '))?;
    Ok(Some(command))
}
