// The lexemes of a text: their items go to the collector, the tests of atoms to the draft.
ghost use Rattle.std.specs.Prelude.{◌≡◌, ◌<◌, ◌≤◌, length};
ghost use Rattle.collector.specs.Pushing.{size};
ghost use Rattle.reader.specs.Drafts.{tests_of};
ghost use Rattle.reader.specs.Steps.{Took, Lexed};

use super::Draft;
use collector::Collector;
use items::{Item, Notation, Placed, Token};
use refusal::Refusal;

impl<T: Copy> Draft<T> {
    // Takes in the whole text and answers how many items it has, or says what is refused first.
    pub(super) fn lex<N: Notation<Test = T>>(
        &mut self,
        text: &[u8],
        space: &mut [Placed],
    ) -> Result<usize, Refusal>
        requires { length text.now ≤ length space.old }
        ensures { Lexed N.Notation.lexed text.now (tests_of self.new) space.new result }
    {
        self.clear();
        let mut items = Collector::over(space);
        let mut place = 0;
        while place < text.len() {
            let lexeme = N::next(text, place)?;
            self.take(lexeme.token, place, &mut items);
            place += lexeme.width;
        }
        Ok(items.used())
    }

    fn take(&mut self, token: Token<T>, place: usize, items: &mut Collector<'_, Placed>)
        requires { items.old.used < size items.old }
        ensures { Took token place (tests_of self.old) (tests_of self.new) items.old items.new }
    {
        match token {
            Token::Space => {}
            Token::Sign(sign) => {
                let placed = Placed {
                    item: Item::Sign(sign),
                    place,
                };
                items.push(placed).unwrap();
            }
            Token::Atom(test) => {
                let placed = Placed {
                    item: Item::Atom,
                    place,
                };
                items.push(placed).unwrap();
                self.keep(test);
            }
        }
    }
}
