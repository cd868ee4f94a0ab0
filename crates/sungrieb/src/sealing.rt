// The sealed pattern of a session, over bytes or over events.
use crate::drafts::Drafts;
use crate::failure::Failure;
use crate::lines::Out;
use crate::show;
use crate::wrong::{Trouble, Wrong};
use alphabet::{Alphabet, FromTests};
use byte_classes::ByteClasses;
use event_classes::EventCuts;
use reader::Draft;
use script::command::Kind;
use script::symbol;
use sealed::Sealed;
use sets::PositionSet;
use std::io::Write;
use std::mem;

#[derive(Drop)]
pub enum Pattern {
    Bytes(Counted<ByteClasses>),
    Events(Counted<EventCuts>),
}

// A sealed pattern with the number of its atoms.
#[derive(Drop)]
pub struct Counted<A> {
    pattern: Sealed<A>,
    atoms: usize,
}

impl Pattern {
    // Seals the draft of the pattern that was read last, and leaves an empty draft.
    pub fn seal(drafts: &mut Drafts) -> Pattern {
        match drafts.last {
            Kind::Bytes => Pattern::Bytes(Counted::seal(mem::take(&mut drafts.bytes))),
            Kind::Events => Pattern::Events(Counted::seal(mem::take(&mut drafts.events))),
        }
    }

    pub fn show_sealed(&self, out: &mut Out) -> Result<(), Failure> {
        match self {
            Pattern::Bytes(counted) => counted.show_sealed(out),
            Pattern::Events(counted) => counted.show_sealed(out),
        }
    }

    pub fn show_class(&self, text: &[u8], out: &mut Out) -> Result<(), Trouble> {
        let class = match self {
            Pattern::Bytes(counted) => {
                let byte = symbol::parse_byte(text).ok_or(Wrong::NotAByte)?;
                counted.pattern.class_of(byte)
            }
            Pattern::Events(counted) => {
                let event = symbol::parse_event(text).ok_or(Wrong::NotAnEvent)?;
                counted.pattern.class_of(event)
            }
        };
        writeln!(out, "class {class}")?;
        Ok(())
    }

    pub fn show_passes(&self, class: u64, test: u64, out: &mut Out) -> Result<(), Failure> {
        match self {
            Pattern::Bytes(counted) => counted.show_passes(class, test, out),
            Pattern::Events(counted) => counted.show_passes(class, test, out),
        }
    }

    pub fn show_positions(&self, out: &mut Out) -> Result<(), Failure> {
        match self {
            Pattern::Bytes(counted) => counted.show_positions(out),
            Pattern::Events(counted) => counted.show_positions(out),
        }
    }
}

impl<A: FromTests> Counted<A> {
    fn seal(draft: Draft<A::Test>) -> Counted<A> {
        let atoms = draft.atoms();
        Counted {
            pattern: sealed::seal(draft),
            atoms,
        }
    }
}

impl<A: Alphabet> Counted<A> {
    fn show_sealed(&self, out: &mut Out) -> Result<(), Failure> {
        let classes = self.pattern.class_count();
        let nullable = show::yes_or_no(self.pattern.nullable());
        writeln!(out, "sealed classes {classes} nullable {nullable}")?;
        Ok(())
    }

    // Numbers past those of classes and tests name none, and pass nothing.
    fn show_passes(&self, class: u64, test: u64, out: &mut Out) -> Result<(), Failure> {
        let passes = match (u16::try_from(class), u8::try_from(test)) {
            (Ok(class), Ok(test)) => self.pattern.class_passes(class, test),
            _ => false,
        };
        let answer = show::yes_or_no(passes);
        writeln!(out, "{answer}")?;
        Ok(())
    }

    fn show_positions(&self, out: &mut Out) -> Result<(), Failure> {
        write!(out, "first")?;
        show_set(self.pattern.first(), out)?;
        write!(out, " last")?;
        show_set(self.pattern.last(), out)?;
        for p in (1..64u8).take(self.atoms) {
            write!(out, " follow {p}:")?;
            show_set(self.pattern.followers(p), out)?;
        }
        writeln!(out, "")?;
        Ok(())
    }
}

fn show_set(set: PositionSet, out: &mut Out) -> Result<(), Failure> {
    for p in set {
        write!(out, " {p}")?;
    }
    Ok(())
}
