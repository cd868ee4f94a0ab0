// What stands behind the first word of a command.
ghost use Rattle.std.specs.Prelude.{◌≡◌};
ghost use Rattle.script.specs.Arguments.{number_behind, count_before, two_behind, end_behind};

use crate::mistake::Mistake;
use crate::number::number;
use crate::words::{before, behind, trimmed};

// A number, and nothing else.
pub fn parse_number(rest: &[u8]) -> Result<u64, Mistake>
    ensures { result ≡ number_behind rest.now }
{
    number(trimmed(rest)).ok_or(Mistake::BadNumber)
}

// A number in front of more.
pub fn parse_count(rest: &[u8]) -> Result<u64, Mistake>
    ensures { result ≡ count_before rest.now }
{
    number(before(rest, b' ')).ok_or(Mistake::BadNumber)
}

pub fn parse_two(rest: &[u8]) -> Result<(u64, u64), Mistake>
    ensures { result ≡ two_behind rest.now }
{
    let first = parse_count(rest)?;
    let second = parse_number(behind(rest, b' '))?;
    Ok((first, second))
}

// Nothing, as behind a command of one word.
pub fn parse_end(rest: &[u8]) -> Result<(), Mistake>
    ensures { result ≡ end_behind rest.now }
{
    if trimmed(rest).is_empty() {
        Ok(())
    } else {
        Err(Mistake::Surplus)
    }
}
