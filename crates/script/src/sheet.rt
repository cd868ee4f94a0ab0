// A line of a run sheet: a pattern with its name.
ghost use Rattle.std.specs.Prelude.{◌≡◌};
ghost use Rattle.script.specs.Sheets.{entered, told_entry};

use crate::command::{Kind, is_passed_over, kind_of};
use crate::mistake::Mistake;
use crate::words::{before, behind};

#[derive(Clone, Copy, Debug, PartialEq, Eq)]
pub struct Entry<'a> {
    pub name: &'a [u8],
    pub kind: Kind,
    pub text: &'a [u8],
}

// The pattern that the line has, if it is not blank or a comment.
pub fn parse_entry(line: &[u8]) -> Result<Option<Entry<'_>>, Mistake>
    ensures { told_entry result ≡ entered line.now }
{
    if is_passed_over(line) {
        return Ok(None);
    }
    let rest = behind(line, b' ');
    let kind = kind_of(before(rest, b' ')).ok_or(Mistake::UnknownNotation)?;
    Ok(Some(Entry {
        name: before(line, b' '),
        kind,
        text: behind(rest, b' '),
    }))
}
