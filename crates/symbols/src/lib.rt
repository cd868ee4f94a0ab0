// The symbols of a record, and the tests that atoms put to them.
#![tactic(auto)]

ghost use Rattle.std.specs.Prelude.{◌≡◌, nat_eq};
ghost use Rattle.symbols.specs.Tests.{passes_byte, passes_code, code_of};
ghost use Rattle.symbols.specs.ByteSets.{no_byte, with_byte, with_range, others, Nothing, Adds, Inverts, between};

mod printing;

// A set of bytes: byte b is bit b mod 8 of the b div 8-th of `bits`.
#[derive(Clone, Copy, Debug, Default, PartialEq, Eq)]
pub struct ByteTest {
    pub bits: [u8; 32],
}

impl ByteTest {
    pub fn passes(&self, byte: u8) -> bool
        ensures { result ≡ passes_byte self.now byte }
    {
        self.bits[byte as usize / 8] >> (byte % 8) & 1 == 1
    }

    // The test that no byte passes.
    pub fn none() -> ByteTest
        ensures is { result ≡ no_byte }
        ensures law { Nothing result }
    {
        ByteTest { bits: [0; 32] }
    }

    pub fn insert(&mut self, byte: u8)
        ensures is { self.new ≡ with_byte self.old byte }
        ensures law { Adds (λ x. nat_eq x byte) self.old self.new }
    {
        self.bits[byte as usize / 8] |= 1 << (byte % 8);
    }

    // Both ends are inserted too; nothing is if `high` is below `low`.
    pub fn insert_range(&mut self, low: u8, high: u8)
        ensures is { self.new ≡ with_range self.old low high }
        ensures law { Adds (between low high) self.old self.new }
    {
        for byte in low..=high {
            self.insert(byte);
        }
    }

    // Afterwards exactly the other bytes pass.
    pub fn invert(&mut self)
        ensures is { self.new ≡ others self.old }
        ensures law { Inverts self.old self.new }
    {
        for part in self.bits.iter_mut() {
            *part ^= 255;
        }
    }
}

// How many values an event of one kind can have.
const VALUES: u32 = 65536;

// Something that a bench reports. Searches do not look at the moment, in milliseconds.
#[derive(Clone, Copy, Debug, PartialEq, Eq)]
pub struct Event {
    pub kind: u8,
    pub value: u16,
    pub moment: u32,
}

impl Event {
    // Kind and value as one number below 16,777,216.
    pub fn code(self) -> u32
        ensures { result ≡ code_of self }
    {
        u32::from(self.kind) * VALUES + u32::from(self.value)
    }
}

// The events with a code from `low` to `high`; all others if inverted.
#[derive(Clone, Copy, Debug, Default, PartialEq, Eq)]
pub struct EventTest {
    pub low: u32,
    pub high: u32,
    pub inverted: bool,
}

impl EventTest {
    pub fn passes(&self, event: Event) -> bool
        ensures { result ≡ passes_code self.now (code_of event) }
    {
        self.passes_code(event.code())
    }

    pub fn passes_code(&self, code: u32) -> bool
        ensures { result ≡ passes_code self.now code }
    {
        (self.low..=self.high).contains(&code) != self.inverted
    }
}
