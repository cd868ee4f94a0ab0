ghost use Rattle.std.specs.Prelude.{◌≡◌, true};
ghost use Rattle.sets.specs.Positions.{PositionSet};
ghost use Rattle.law.specs.Subject.{Subject, Proper, leads};

use sets::PositionSet;
use theory::Direction;

// A pattern over an alphabet, as a searcher asks for it: which set of positions a symbol leads to.
pub trait Automaton {
    type Symbol: Copy;

    ghost subject: { Self → Subject Self.Symbol PositionSet };

    fn class_of(&self, symbol: Self::Symbol) -> u16
        ensures fits { (subject self.now).fit symbol ≡ true }
        ensures is { result ≡ (subject self.now).class_of symbol };

    // The step rule: where each symbol of the class leads from the set.
    fn step(&self, direction: Direction, set: PositionSet, class: u16) -> PositionSet
        ensures { (a : Self.Symbol) → (subject self.now).fit a ≡ true → (subject self.now).class_of a ≡ class → result ≡ leads (subject self.now) direction set a };

    // The set in which a scan begins.
    fn begin(&self) -> PositionSet
        ensures { result ≡ (subject self.now).machine.begin };

    // Whether the empty word is one of the pattern's.
    fn nullable(&self) -> bool
        ensures { result ≡ (subject self.now).machine.nullable };

    fn has_first(&self, set: PositionSet) -> bool
        ensures { result ≡ (subject self.now).machine.first set };

    fn has_last(&self, set: PositionSet) -> bool
        ensures { result ≡ (subject self.now).machine.last set };

    fn is_empty(&self, set: PositionSet) -> bool
        ensures { result ≡ (subject self.now).machine.empty set };

    ghost proper: { (m : Self) → Proper (subject m) };
}
