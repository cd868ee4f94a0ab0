// Events in one text, as KIND:VALUE@MOMENT with spaces between.
ghost use Rattle.std.specs.Prelude.{◌≡◌, Some};
ghost use Rattle.records.specs.Words.{EventsRead, events_error_text};
ghost use Rattle.records.specs.declared.events.EventsError.TheVariants.{NoMemory};

use crate::blanks::stripped;
use script::symbol::parse_event;
use std::alloc::AllocFailed;
use std::error::Error;
use std::fmt;
use symbols::Event;

#[derive(Clone, Copy, Debug, PartialEq, Eq)]
pub enum EventsError {
    // The word of that number, counted from 1, is not an event.
    NotAnEvent(usize),
    NoMemory,
}

impl fmt::Display for EventsError {
    ghost output = { λ error. Some (events_error_text error) };

    fn fmt<W: fmt::Write>(&self, f: &mut fmt::Formatter<W>) -> fmt::Result {
        match self {
            Self::NotAnEvent(number) => write!(f, "word {number} is not an event"),
            Self::NoMemory => f.write_str("out of memory"),
        }
    }
}

impl Error for EventsError {}

impl<T: Drop> From<AllocFailed<T>> for EventsError {
    ghost from_gives = { λ _ r. r ≡ NoMemory };

    fn from(_failed: AllocFailed<T>) -> EventsError {
        EventsError::NoMemory
    }
}

// Puts the events in the place of what `out` held; nothing where a word is not an event.
pub fn parse_events(text: &[u8], out: &mut Vec<Event>) -> Result<(), EventsError>
    ensures { EventsRead text.now out.new.items result }
{
    out.clear();
    let mut number = 0;
    for piece in text.split(|b| *b == b' ') {
        let word = stripped(piece);
        if word.is_empty() {
            continue;
        }
        number += 1;
        let Some(event) = parse_event(word) else {
            out.clear();
            return Err(EventsError::NotAnEvent(number));
        };
        out.push(event)?;
    }
    Ok(())
}
