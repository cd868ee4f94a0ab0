// A sealed pattern is an automaton, so a searcher can search with it.
ghost use Rattle.automaton.specs.Subjects.{sealed_subject};
ghost use Rattle.automaton.specs.SubjectLemmas.{proper as sealed_proper};

use crate::automaton::Automaton;
use alphabet::Alphabet;
use sealed::Sealed;
use sets::PositionSet;
use theory::Direction;

impl<A: Alphabet> Automaton for Sealed<A> {
    type Symbol = A::Symbol;

    ghost subject = { sealed_subject A.Alphabet };

    ghost proper = { λ s. sealed_proper (record { fit = A.fit; tests = A.tests; passes = A.passes; classes = A.classes; class_of = A.class_of; accepts = A.accepts }) s (record { few = (A.few s.alphabet).1; below = λ t f. A.within s.alphabet t f; agree = λ k t f. A.agree s.alphabet k t f }) };

    fn class_of(&self, symbol: A::Symbol) -> u16 {
        self.class_of(symbol)
    }

    fn step(&self, direction: Direction, set: PositionSet, class: u16) -> PositionSet {
        match direction {
            Direction::Ahead => self.ahead(set, class),
            Direction::Back => self.back(set, class),
        }
    }

    fn begin(&self) -> PositionSet {
        PositionSet::single(0)
    }

    fn nullable(&self) -> bool {
        self.nullable()
    }

    fn has_first(&self, set: PositionSet) -> bool {
        self.begins(set)
    }

    fn has_last(&self, set: PositionSet) -> bool {
        self.ends(set)
    }

    fn is_empty(&self, set: PositionSet) -> bool {
        set.is_empty()
    }
}
