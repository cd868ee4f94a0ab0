// A session: what the commands of a script work on, and their answers.
use crate::drafts::Drafts;
use crate::failure::Failure;
use crate::lines::{Answers, Out};
use crate::sealing::Pattern;
use crate::show;
use crate::wrong::{Trouble, Wrong};
use script::command::{Command, Form, Kind};
use script::{command, hex, words};
use std::alloc::Global;

#[derive(Drop)]
pub struct Session {
    drafts: Drafts,
    // The text of a pattern that is given in hexadecimal digits.
    text: Vec<u8>,
    sealed: Option<Pattern>,
}

impl Session {
    pub fn new(heap: Global) -> Session {
        Session {
            drafts: Drafts::new(),
            text: Vec::new(heap),
            sealed: None,
        }
    }

    fn obey(&mut self, line: &[u8], out: &mut Out) -> Result<(), Trouble> {
        match command::parse_line(line)? {
            None => {}
            Some(Command::Pattern(form, text)) => self.pattern(form, text, out)?,
            Some(Command::Test(k)) => self.test(k, out)?,
            Some(Command::Seal) => self.seal(out)?,
            Some(Command::Class(symbol)) => self.sealed()?.show_class(symbol, out)?,
            Some(Command::Passes(class, test)) => self.sealed()?.show_passes(class, test, out)?,
            Some(Command::Positions) => self.sealed()?.show_positions(out)?,
        }
        Ok(())
    }

    fn pattern(&mut self, form: Form, text: &[u8], out: &mut Out) -> Result<(), Trouble> {
        if form.hex {
            hex::read_hex(words::trimmed(text), &mut self.text)?;
            read_pattern(&mut self.drafts, form.kind, self.text.as_slice(), out)?;
        } else {
            read_pattern(&mut self.drafts, form.kind, text, out)?;
        }
        Ok(())
    }

    fn test(&self, k: u64, out: &mut Out) -> Result<(), Failure> {
        let k = k as usize;
        match self.drafts.last {
            Kind::Bytes => show::test("bytes", self.drafts.bytes.test(k), out),
            Kind::Events => show::test("events", self.drafts.events.test(k), out),
        }
    }

    fn seal(&mut self, out: &mut Out) -> Result<(), Failure> {
        let pattern = Pattern::seal(&mut self.drafts);
        pattern.show_sealed(out)?;
        self.sealed = Some(pattern);
        Ok(())
    }

    fn sealed(&self) -> Result<&Pattern, Wrong> {
        self.sealed.as_ref().ok_or(Wrong::Unsealed)
    }
}

fn read_pattern(
    drafts: &mut Drafts,
    kind: Kind,
    text: &[u8],
    out: &mut Out,
) -> Result<(), Failure> {
    let read = drafts.read(kind, text);
    match kind {
        Kind::Bytes => show::reading(read, &drafts.bytes, out),
        Kind::Events => show::reading(read, &drafts.events, out),
    }
}

impl Answers for Session {
    fn answer(&mut self, number: u64, line: &[u8], out: &mut Out) -> Result<(), Failure> {
        match self.obey(line, out) {
            Ok(()) => Ok(()),
            Err(Trouble::Line(wrong)) => show::wrong_line(number, wrong, out),
            Err(Trouble::Program(failure)) => Err(failure),
        }
    }
}
