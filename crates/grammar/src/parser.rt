// The parser: one item after another, with a stack of the patterns that it is in.
ghost use Rattle.std.specs.Prelude.{◌≤◌, length};

use crate::frame::{Frame, Repeats};
use arrayvec::ArrayVec;
use collector::Collector;
use items::{Item, Placed, Sign};
use pattern::Code;
use refusal::{Cause, Refusal};

// How deep parentheses may nest.
const DEEPEST: usize = 32;

// The codes so far, the innermost pattern, and the patterns around it, each as it will be once the group in it closes.
#[derive(Drop)]
pub struct Parser<'c, 'e> {
    pub codes: &'c mut Collector<'e, Code>,
    pub frame: Frame,
    pub around: ArrayVec<Frame, DEEPEST>,
    ghost shallow: { length around.items ≤ 32 },
}

impl<'c, 'e> Parser<'c, 'e> {
    ghost use Rattle.std.specs.Prelude.{◌≡◌, ◌+◌, ◌*◌, ◌<◌, [], ◌∷◌, ◌++◌, Ok};
    ghost use Rattle.collector.specs.Pushing.{held, size};
    ghost use Rattle.grammar.specs.Memory.{Room, state_of, Moved, SameCodes, load};
    ghost use Rattle.grammar.specs.Parse.{joins, ends, step, repeated, last, run, outcome};

    // All the items, of a text of that length.
    pub(crate) fn read_all(&mut self, items: &[Placed], text_length: usize) -> Result<(), Refusal>
        requires { load (state_of self.old) + 2 * length items.now ≤ size self.old.codes.now + 1 }
        ensures told { run text_length (state_of self.old) items.now ≡ outcome result (held self.new.codes.now) }
        ensures codes { SameCodes self.old self.new }
    {
        for placed in items {
            let place = placed.place;
            self.read(placed.item)
                .map_err(|cause| Refusal { cause, place })?;
        }
        self.finish().map_err(|cause| Refusal {
            cause,
            place: text_length,
        })
    }

    fn read(&mut self, item: Item) -> Result<(), Cause>
        requires { load (state_of self.old) < size self.old.codes.now }
        ensures { Moved (step (state_of self.old) item) result self.old self.new }
    {
        match item {
            Item::Atom => {
                self.atom();
                Ok(())
            }
            Item::Sign(Sign::Open) => self.opens(),
            Item::Sign(Sign::Close) => self.closes(),
            Item::Sign(Sign::Bar) => self.bar(),
            Item::Sign(Sign::Star) => self.repeat(Code::Star),
            Item::Sign(Sign::Plus) => self.repeat(Code::Plus),
            Item::Sign(Sign::Query) => self.repeat(Code::Maybe),
        }
    }

    // At the end of the text.
    fn finish(&mut self) -> Result<(), Cause>
        requires { load (state_of self.old) ≤ size self.old.codes.now + 1 }
        ensures { Moved (last (state_of self.old)) result self.old self.new }
    {
        self.frame.operand()?;
        if !self.around.is_empty() {
            return Err(Cause::UnclosedGroup);
        }
        self.end();
        Ok(())
    }

    fn atom(&mut self)
        requires { Room self.old (joins self.old.frame.repeats ++ Code.Atom ∷ []) }
        ensures { Moved (step (state_of self.old) Item.Atom) (Ok tt) self.old self.new }
    {
        self.join();
        self.emit(Code::Atom);
        self.frame = self.frame.grow();
    }

    fn opens(&mut self) -> Result<(), Cause>
        requires { Room self.old (joins self.old.frame.repeats) }
        ensures { Moved (step (state_of self.old) (Item.Sign Sign.Open)) result self.old self.new }
    {
        if self.around.is_full() {
            return Err(Cause::TooDeep);
        }
        self.join();
        self.around.push(self.frame.grow());
        self.frame = Frame::default();
        Ok(())
    }

    fn closes(&mut self) -> Result<(), Cause>
        requires { Room self.old (ends self.old.frame) }
        ensures { Moved (step (state_of self.old) (Item.Sign Sign.Close)) result self.old self.new }
    {
        self.frame.operand()?;
        let outer = self.around.pop().ok_or(Cause::UnmatchedClosing)?;
        self.end();
        self.frame = outer;
        Ok(())
    }

    fn bar(&mut self) -> Result<(), Cause>
        requires { Room self.old (ends self.old.frame) }
        ensures { Moved (step (state_of self.old) (Item.Sign Sign.Bar)) result self.old self.new }
    {
        self.frame.operand()?;
        self.end();
        self.frame = Frame {
            branches: true,
            repeats: Repeats::Empty,
        };
        Ok(())
    }

    // One of the signs * + ?, as its code.
    fn repeat(&mut self, code: Code) -> Result<(), Cause>
        requires { Room self.old (code ∷ []) }
        ensures { Moved (repeated (state_of self.old) code) result self.old self.new }
    {
        self.frame.operand()?;
        self.emit(code);
        Ok(())
    }
}
