// A run sheet: each of its patterns is read, and a refusal is told in plain words.
use crate::drafts::Drafts;
use crate::failure::Failure;
use crate::lines::{Answers, Out};
use crate::show;
use refusal::Refusal;
use script::sheet;
use script::sheet::Entry;
use std::io::Write;

#[derive(Drop)]
pub struct Sheet {
    drafts: Drafts,
    accepted: u64,
    refused: u64,
    wrong: u64,
}

impl Sheet {
    pub fn new() -> Sheet {
        Sheet {
            drafts: Drafts::new(),
            accepted: 0,
            refused: 0,
            wrong: 0,
        }
    }

    fn check(&mut self, entry: Entry<'_>, out: &mut Out) -> Result<(), Failure> {
        show::bytes(entry.name, out)?;
        match self.drafts.read(entry.kind, entry.text) {
            Ok(()) => {
                self.accepted = self.accepted.saturating_add(1);
                writeln!(out, ": accepted")?;
                Ok(())
            }
            Err(refusal) => {
                self.refused = self.refused.saturating_add(1);
                explain(refusal, entry.text, out)
            }
        }
    }

    fn note_wrong(&mut self, number: u64, out: &mut Out) -> Result<(), Failure> {
        self.wrong = self.wrong.saturating_add(1);
        show::wrong_line(number, "a line is NAME bytes TEXT or NAME events TEXT", out)
    }

    // The last line: how many patterns were accepted and refused.
    pub fn sum_up(&self, out: &mut Out) -> Result<(), Failure> {
        let accepted = self.accepted;
        let refused = self.refused;
        let wrong = self.wrong;
        if wrong == 0 {
            writeln!(out, "{accepted} accepted, {refused} refused")?;
        } else {
            writeln!(
                out,
                "{accepted} accepted, {refused} refused, {wrong} not understood"
            )?;
        }
        Ok(())
    }
}

// The refusal, the text around its place, and a caret under the place.
fn explain(refusal: Refusal, text: &[u8], out: &mut Out) -> Result<(), Failure> {
    let cause = refusal.cause;
    let number = cause.number();
    let place = refusal.place;
    writeln!(
        out,
        ": refused, {cause} (refusal {number} at place {place})"
    )?;
    show::marked(text, place, out)
}

impl Answers for Sheet {
    fn answer(&mut self, number: u64, line: &[u8], out: &mut Out) -> Result<(), Failure> {
        match sheet::parse_entry(line) {
            Ok(None) => Ok(()),
            Ok(Some(entry)) if !entry.name.is_empty() => self.check(entry, out),
            Ok(Some(_)) | Err(_) => self.note_wrong(number, out),
        }
    }
}
