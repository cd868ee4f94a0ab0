// The draft of either notation, and which of them was read last.
use byte_notation::Bytes;
use event_notation::Events;
use reader::Draft;
use refusal::Refusal;
use script::command::Kind;
use symbols::{ByteTest, EventTest};

#[derive(Drop)]
pub struct Drafts {
    pub bytes: Draft<ByteTest>,
    pub events: Draft<EventTest>,
    pub last: Kind,
}

impl Drafts {
    pub fn new() -> Drafts {
        Drafts {
            bytes: Draft::default(),
            events: Draft::default(),
            last: Kind::Bytes,
        }
    }

    pub fn read(&mut self, kind: Kind, text: &[u8]) -> Result<(), Refusal> {
        self.last = kind;
        match kind {
            Kind::Bytes => self.bytes.read::<Bytes>(text),
            Kind::Events => self.events.read::<Events>(text),
        }
    }
}
