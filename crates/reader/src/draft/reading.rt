// Reading a text: its length, its lexemes, the count of its atoms, its structure, in this order.
ghost use Rattle.std.specs.Prelude.{◌≡◌, ◌≤◌, length};
ghost use Rattle.reader.specs.Drafts.{tests_of, codes_of};
ghost use Rattle.reader.specs.Law.{Lawful};
ghost use Rattle.reader.specs.Reading.{reading, answer, tests_read, codes_read};
ghost use Rattle.reader.specs.Steps.{Checked, Filled};

use super::Draft;
use crate::limits::MOST_BYTES;
use crate::surplus::surplus_atom;
use collector::Collector;
use grammar::read_pattern;
use items::{Item, Notation, Placed};
use refusal::{Cause, Refusal};

impl<T: Copy> Draft<T> {
    // Fills the draft anew with the pattern that the text has in the notation. A refusal leaves it empty.
    pub fn read<N: Notation<Test = T>>(&mut self, text: &[u8]) -> Result<(), Refusal>
        ensures answer { result ≡ answer (reading N.Notation.lexed text.now) }
        ensures tests { tests_of self.new ≡ tests_read (reading N.Notation.lexed text.now) }
        ensures codes { codes_of self.new ≡ codes_read (reading N.Notation.lexed text.now) }
        ensures law { Lawful N.Notation.lexed text.now (tests_of self.new) (codes_of self.new) result }
    {
        if text.len() > MOST_BYTES {
            self.clear();
            return Err(Refusal {
                cause: Cause::TextTooLong,
                place: MOST_BYTES,
            });
        }
        let read = self.fill::<N>(text);
        if read.is_err() {
            self.clear();
        }
        read
    }

    // What comes behind the check of the length.
    fn fill<N: Notation<Test = T>>(&mut self, text: &[u8]) -> Result<(), Refusal>
        requires { length text.now ≤ 512 }
        ensures { Filled N.Notation.lexed text.now (tests_of self.new) (codes_of self.new) result }
    {
        let mut space = [Placed {
            item: Item::Atom,
            place: 0,
        }; MOST_BYTES];
        let count = self.lex::<N>(text, &mut space[..])?;
        self.check(&space[..count], text.len())
    }

    // The count of the atoms, then the structure.
    fn check(&mut self, items: &[Placed], text_length: usize) -> Result<(), Refusal>
        requires { length items.now ≤ 512 }
        ensures checked { Checked items.now text_length (codes_of self.new) result }
        ensures tests { tests_of self.new ≡ tests_of self.old }
    {
        if let Some(place) = surplus_atom(items) {
            return Err(Refusal {
                cause: Cause::TooManyAtoms,
                place,
            });
        }
        let mut codes = Collector::over(&mut self.codes[..]);
        let parsed = read_pattern(items, text_length, &mut codes);
        self.used = codes.used();
        parsed
    }
}
