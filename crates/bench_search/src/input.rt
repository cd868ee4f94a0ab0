// The files of a run: a pattern's text, a record of bytes, a record of events.
use alphabet::FromTests;
use anyhow::anyhow;
use items::Notation;
use reader::Draft;
use sealed::Sealed;
use std::fs;
use symbols::Event;

pub fn bytes(rt: &HostRuntime, path: &str) -> anyhow::Result<Vec<u8>> {
    Ok(fs::read(rt, path)?)
}

// The pattern of a file, read by a notation into an empty draft and sealed.
pub fn pattern<N: Notation, A: FromTests<Test = N::Test>>(
    rt: &HostRuntime,
    path: &str,
    mut draft: Draft<N::Test>,
) -> anyhow::Result<Sealed<A>> {
    let text = bytes(rt, path)?;
    match draft.read::<N>(text.as_slice()) {
        Ok(()) => Ok(sealed::seal(draft)),
        Err(_) => Err(anyhow!("the pattern is refused")),
    }
}

// An event has eight bytes in a file: its kind, a zero, its value and its moment, low bytes first.
fn event(bytes: &[u8]) -> Option<Event> {
    let [kind, _, low, high, a, b, c, d] = bytes else {
        return None;
    };
    Some(Event {
        kind: *kind,
        value: u16::from_le_bytes([*low, *high]),
        moment: u32::from_le_bytes([*a, *b, *c, *d]),
    })
}

pub fn events(rt: &HostRuntime, path: &str) -> anyhow::Result<Vec<Event>> {
    let all = bytes(rt, path)?;
    let mut events = Vec::new(rt.alloc());
    for eight in all.as_slice().chunks(8) {
        match event(eight) {
            Some(event) => events.push(event)?,
            None => return Err(anyhow!("the file ends within an event")),
        }
    }
    Ok(events)
}
