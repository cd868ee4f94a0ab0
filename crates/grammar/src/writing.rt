// What the parser writes behind the codes so far.
ghost use Rattle.std.specs.Prelude.{◌+◌, ◌<◌, ◌≤◌, [], ◌∷◌, length};
ghost use Rattle.collector.specs.Pushing.{size};
ghost use Rattle.grammar.specs.Memory.{Room, Emitted};
ghost use Rattle.grammar.specs.Parse.{joins, ends};

use crate::frame::Repeats;
use crate::parser::Parser;
use pattern::Code;

impl<'c, 'e> Parser<'c, 'e> {
    pub(crate) fn emit(&mut self, code: Code)
        requires { Room self.old (code ∷ []) }
        ensures { Emitted self.old self.new (code ∷ []) }
    {
        self.codes.push(code).unwrap();
    }

    // The join that waited until the last repeat is complete.
    pub(crate) fn join(&mut self)
        requires { Room self.old (joins self.old.frame.repeats) }
        ensures { Emitted self.old self.new (joins self.old.frame.repeats) }
    {
        if self.frame.repeats == Repeats::Many {
            self.emit(Code::Join);
        }
    }

    // The codes that end a branch.
    pub(crate) fn end(&mut self)
        requires { Room self.old (ends self.old.frame) }
        ensures { Emitted self.old self.new (ends self.old.frame) }
    {
        self.join();
        if self.frame.branches {
            self.emit(Code::Choice);
        }
    }
}
