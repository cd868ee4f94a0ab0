// Symbols as they are written in a script: a byte in decimal, an event as KIND:VALUE@MOMENT.
ghost use Rattle.std.specs.Prelude.{◌≡◌};
ghost use Rattle.script.specs.Symbols.{byte_of, event_of};

use crate::number::number;
use crate::words::{before, behind};
use symbols::Event;

pub fn parse_byte(text: &[u8]) -> Option<u8>
    ensures { result ≡ byte_of text.now }
{
    u8::try_from(number(text)?).ok()
}

pub fn parse_event(text: &[u8]) -> Option<Event>
    ensures { result ≡ event_of text.now }
{
    let rest = behind(text, b':');
    let kind = u8::try_from(number(before(text, b':'))?).ok()?;
    let value = u16::try_from(number(before(rest, b'@'))?).ok()?;
    let moment = u32::try_from(number(behind(rest, b'@'))?).ok()?;
    Some(Event {
        kind,
        value,
        moment,
    })
}
